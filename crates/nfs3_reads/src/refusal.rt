//! How a procedure refuses.

ghost use Rattle.std.specs.Prelude.{◌≡◌};

use nfs_model::{Fattr, NfsStatus, Reply, Tail};

/// A refusal with the attributes of the object or of the directory, where these are known.
pub(crate) fn refused(status: NfsStatus, attributes: Option<Fattr>) -> Reply
    ensures { result ≡ Reply.Refused status (Tail.Attributes attributes) }
{
    Reply::Refused {
        status,
        tail: Tail::Attributes(attributes),
    }
}
