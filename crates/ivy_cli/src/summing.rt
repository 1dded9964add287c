//! The summary of a text.

ghost use Rattle.std.specs.Prelude.{◌≡◌, ◌++◌, [], ◌∷◌, ◌==◌, codes, count_by, IfOk, OnOk};
ghost use Rattle.std.specs.Fmt.{decimal};
ghost use Rattle.std.specs.List.{flat_map};
ghost use Rattle.hex.specs.Hex.{encode_lower};
ghost use Rattle.sha1.specs.Sha1.{sha1};
ghost use Rattle.ivy_cli.specs.Summary.{ascending, status_line, status_lines, summary_text};

use crate::statuses::statuses_in;
use ivy_base::{Bytes, Memory};
use sha1::Sha1;
use std::alloc::Global;

/// The summary of a text that a script of so many calls showed. The error is: out of memory.
pub fn summary(alloc: Global, calls: u32, text: &[u8]) -> Result<Bytes, Memory>
    ensures { IfOk result (λ summary. summary ≡ summary_text calls text.now) }
{
    let statuses = statuses_in(alloc, text)?;
    let mut summary = format!(in alloc; "calls {calls}\n")?.into_bytes();
    put_statuses(alloc, &mut summary, &statuses)?;
    put_digest(alloc, &mut summary, text)?;
    Ok(Bytes::of(summary))
}

/// Appends a line for each status that occurred, ascending. The error is: out of memory.
fn put_statuses(alloc: Global, summary: &mut Vec<u8>, all: &[u32]) -> Result<(), Memory>
    ensures { OnOk result (summary.new.items ≡ summary.old.items ++ status_lines all.now) }
{
    let occurred = in_order(alloc, all)?;
    'occurred: for status in &occurred {
        put_status(alloc, summary, *status, all)?;
    }
    Ok(())
}

/// These numbers, ascending, each once. The error is: out of memory.
fn in_order(alloc: Global, numbers: &[u32]) -> Result<Vec<u32>, Memory>
    ensures { IfOk result (λ found. found.items ≡ ascending numbers.now) }
{
    let mut found = Vec::from_slice(alloc, numbers)?;
    found.sort_unstable();
    found.dedup();
    Ok(found)
}

/// Appends the line of a status. The error is: out of memory.
fn put_status(alloc: Global, summary: &mut Vec<u8>, status: u32, all: &[u32]) -> Result<(), Memory>
    ensures { OnOk result (summary.new.items ≡ summary.old.items ++ status_line all.now status) }
{
    let count = all.iter().filter(|other| **other == status).count();
    let line = format!(in alloc; "status {status} {count}\n")?;
    summary.extend_from_slice(line.as_bytes())?;
    Ok(())
}

/// Appends the line of the text's SHA-1 (FIPS 180-4). The error is: out of memory.
fn put_digest(alloc: Global, summary: &mut Vec<u8>, text: &[u8]) -> Result<(), Memory>
    ensures { OnOk result (summary.new.items ≡ summary.old.items ++ codes "sha1 " ++ encode_lower (sha1 text.now) ++ 10 ∷ []) }
{
    let digits = hex::encode(alloc, &Sha1::digest(text))?;
    summary.extend_from_slice(b"sha1 ".as_slice())?;
    summary.extend_from_slice(digits.as_bytes())?;
    summary.push(b'\n')?;
    Ok(())
}
