//! The generated script.

ghost use Rattle.std.specs.Prelude.{◌≡◌, ◌++◌, [], ◌∷◌, codes, string_bytes, IfOk, OnOk};
ghost use Rattle.std.specs.Fmt.{decimal};
ghost use Rattle.std.specs.List.{flat_map};
ghost use Rattle.ivy_cli.specs.Generator.{call_line, drawn, file_name, message as message_of, moment_line, next, opening, participant as participant_of, script_of};

use crate::draws::Draws;
use ivy_base::{Bytes, Memory};
use std::alloc::Global;

/// The lines in front of the calls: a ring of five nodes that holds each block three times, three logs, one view of them, and
/// its use by each participant.
const OPENING: &[u8; 94] = b"ring 5 3
log a 1 1 w4h10
log b 2 2 w4h10
log c 3 3 w4h10
view v a,b,c
use a v
use b v
use c v
";

/// The script of that seed and of so many calls. The error is: out of memory.
pub fn generate(alloc: Global, seed: u64, calls: u32) -> Result<Bytes, Memory>
    ensures { IfOk result (λ script. script ≡ script_of seed calls) }
{
    let mut script = Vec::new(alloc);
    script.extend_from_slice(OPENING.as_slice())?;
    let mut draws = Draws::of(seed);
    'calls: for before in 0..calls {
        put_call(alloc, &mut script, u64::from(before) + 1, &mut draws)?;
    }
    script.extend_from_slice(b"end\n".as_slice())?;
    Ok(Bytes::of(script))
}

/// Appends the lines of the call of that number, which the next three draws choose. The error is: out of memory.
fn put_call(
    alloc: Global,
    script: &mut Vec<u8>,
    number: u64,
    draws: &mut Draws,
) -> Result<(), Memory>
    ensures moved { draws.new ≡ next (next (next draws.old)) }
    ensures put { OnOk result (script.new.items ≡ script.old.items ++ moment_line number ++ 10 ∷ []
        ++ call_line (drawn (next draws.old)) (drawn (next (next draws.old))) (drawn (next (next (next draws.old)))) ++ 10 ∷ []) }
{
    let who = participant(draws.draw());
    let kind = draws.draw();
    let name = draws.draw() % 64;
    let message = message(alloc, kind, name)?;
    let lines = format!(in alloc; "at {number} 0\nas {who} {message}\n")?;
    script.extend_from_slice(lines.as_bytes())?;
    Ok(())
}

/// Whose call a draw chooses.
fn participant(drawn: u64) -> &'static str
    ensures { result.now ≡ participant_of drawn }
{
    match drawn % 3 {
        0 => "a",
        1 => "b",
        _ => "c",
    }
}

/// The message that a draw chooses, by the name of that number. The error is: out of memory.
fn message(alloc: Global, drawn: u64, name: u64) -> Result<String, Memory>
    ensures { IfOk result (λ pieces. string_bytes pieces ≡ message_of drawn (codes "f" ++ decimal name)) }
{
    Ok(match drawn % 4 {
        // CREATE
        0 => format!(in alloc; "nfs:8:0:0 root s:f{name} u:0 sa:420")?,
        // REMOVE
        1 => format!(in alloc; "nfs:12:0:0 root s:f{name}")?,
        // LOOKUP
        2 => format!(in alloc; "nfs:3:0:0 root s:f{name}")?,
        // READDIR
        _ => String::from_str(alloc, "nfs:16:0:0 root w:0 w:0 u:8192")?,
    })
}
