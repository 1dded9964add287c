//! What earlier replies gave.

ghost use Rattle.std.specs.Prelude.{◌≡◌, option_map};
ghost use Rattle.command_messages.specs.Lengths.{handle_numbered, verifier_numbered};

use ivy_base::Bytes;
use std::marker::Model;

/// What a reply gave to later lines: a file handle, and the verifier of a page. Contracts see it as `Given`.
#[derive(Drop)]
pub struct ReplyParts {
    handle: Option<Bytes>,
    verifier: Option<[u8; 8]>,
}

impl Model for ReplyParts {
    ghost use Rattle.script_model.specs.Messages.{Given};

    ghost Value = { Given };

    ghost view = { λ r. record { handle = r.handle; verifier = r.verifier } };
}

impl ReplyParts {
    /// What a reply with these parts gave.
    pub fn of(handle: Option<Bytes>, verifier: Option<[u8; 8]>) -> ReplyParts
        ensures handle { result.handle ≡ handle }
        ensures verifier { result.verifier ≡ verifier }
    {
        ReplyParts { handle, verifier }
    }

    /// The file handle that the reply made or found.
    pub fn handle(&self) -> Option<&[u8]>
        ensures { option_map (λ handle. handle.now) result ≡ self.now.handle }
    {
        Some(self.handle.as_ref()?.as_slice())
    }

    /// The verifier of the page that the reply has.
    pub fn verifier(&self) -> Option<&[u8; 8]>
        ensures { option_map (λ verifier. verifier.now) result ≡ self.now.verifier }
    {
        self.verifier.as_ref()
    }
}

/// The handle that the reply of that number, from 1, made or found.
pub fn handle_numbered(replies: &[ReplyParts], number: u64) -> Option<&[u8]>
    ensures { option_map (λ handle. handle.now) result ≡ handle_numbered replies.now number }
{
    let place = usize::try_from(number.checked_sub(1)?).ok()?;
    replies.get(place)?.handle()
}

/// The verifier of the page that the reply of that number, from 1, has.
pub fn verifier_numbered(replies: &[ReplyParts], number: u64) -> Option<&[u8; 8]>
    ensures { option_map (λ verifier. verifier.now) result ≡ verifier_numbered replies.now number }
{
    let index = usize::try_from(number.checked_sub(1)?).ok()?;
    replies.get(index)?.verifier()
}
