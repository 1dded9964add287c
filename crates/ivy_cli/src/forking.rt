//! The check of a fork proof in digits, and what it tells.

ghost use Rattle.std.specs.Prelude.{◌≡◌, ◌≢◌, ◌⊎◌, ◌<◌, ◌≤◌, ℕ, length, take, IfOk, IfErr, OnOk};
ghost use Rattle.ivy_io.specs.Causes.{Rose};
ghost use Rattle.ivy_io.specs.Known.{then};
ghost use Rattle.script_driver.specs.Run.{refused_text};
ghost use Rattle.script_driver.specs.Told.{FailsReading};
ghost use Rattle.ivy_cli.specs.Forks.{fork_runs, forked_text, run_told, IsFork, Judges, Tells};
ghost use Rattle.ivy_cli.specs.ProofLines.{bytes_of, most_read, TakesUpTo};

use crate::loading::tell;
use crate::proof_line::{bytes_of, read_input};
use fork_proof::{Forked, ProofFault, check};
use ivy_base::{Bytes, Memory};
use ivy_io::{Sink, Source};
use ivy_play::Status;
use script_driver::Fault;
use std::alloc::Global;

/// What is told of bytes that show no fork.
const NO_PROOF: &[u8; 9] = b"no proof\n";

/// What is told of an input that is no line of digits.
const REFUSED: &[u8; 10] = b"refused 1\n";

/// The status of a program that did what it was asked for.
const STATUS_ENDED: Status = 0;

/// The status of a program whose input was refused.
const STATUS_REFUSED: Status = 3;

/// The status of a program whose reading failed.
const STATUS_READ: Status = 4;

/// The status of a program whose writing failed.
const STATUS_WRITE: Status = 5;

/// The status of a program for which memory ran out.
const STATUS_MEMORY: Status = 6;

/// Tells the sink which fork a proof shows, whose bytes come from the source as hexadecimal digits.
///
/// The input is one line of 2 to 33,554,432 lower-case digits, and their number is even. Its newline may lack, and nothing
/// comes after it. Status 0: `forked KEY M N` was told, with the log's head key and the numbers of the two heads, or `no
/// proof`. Status 3: the input is no such line, and `refused 1` was told. Status 4 comes only if the source's count of
/// faults rose, and 5 only if the sink's did. Status 6 means out of memory.
pub fn fork<Q: Source, W: Sink>(alloc: Global, source: &mut Q, sink: &mut W) -> Status
    ensures { IsFork result
        (record { left = Q.left source.old; held = W.contents sink.old; reads = Q.faults source.old; writes = W.faults sink.old })
        (record { left = Q.left source.new; held = W.contents sink.new; reads = Q.faults source.new; writes = W.faults sink.new }) }
{
    match read_told(alloc, source) {
        Ok(Some(text)) => tell(sink, text.as_slice()),
        Ok(None) => refuse(sink),
        Err(Fault::Read) => STATUS_READ,
        Err(Fault::Write) => STATUS_WRITE,
        Err(Fault::Memory) => STATUS_MEMORY,
    }
}

/// What is to be told of what the source has left, if it is a line of digits.
fn read_told<Q: Source>(alloc: Global, source: &mut Q) -> Result<Option<Bytes>, Fault>
    ensures ok { IfOk result (λ text. fork_runs (Q.left source.old) (run_told text)) }
    ensures takes { TakesUpTo most_read (Q.left source.old) (Q.left source.new) }
    ensures fails { IfErr result (λ fault. FailsReading fault (Q.faults source.old) (Q.faults source.new)) }
    ensures later { Q.faults source.old ≤ Q.faults source.new }
{
    let input = read_input(alloc, source)?;
    Ok(told_of(alloc, input.as_slice())?)
}

/// What is to be told of an input, if it is a line of digits. The error is: out of memory.
fn told_of(alloc: Global, input: &[u8]) -> Result<Option<Bytes>, Memory>
    ensures { IfOk result (λ text. Judges (bytes_of input.now) (run_told text)) }
{
    match bytes_of(alloc, input)? {
        Some(bytes) => Ok(Some(shown_by(alloc, bytes.as_slice())?)),
        None => Ok(None),
    }
}

/// What these bytes show of a fork. The error is: out of memory.
fn shown_by(alloc: Global, bytes: &[u8]) -> Result<Bytes, Memory>
    ensures { IfOk result (Tells bytes.now) }
{
    match check(alloc, bytes) {
        Ok(forked) => spell(alloc, &forked),
        Err(fault) => {
            shows_none(fault)?;
            Bytes::copy_of(alloc, NO_PROOF.as_slice())
        }
    }
}

/// Tells running out of memory from the faults by which bytes show no fork.
fn shows_none(fault: ProofFault) -> Result<(), Memory>
    ensures { OnOk result (fault ≢ ProofFault.Memory) }
{
    match fault {
        ProofFault::Memory => Err(Memory),
        ProofFault::Malformed
        | ProofFault::HeadWrong(_)
        | ProofFault::Unlinked(_)
        | ProofFault::NoFork => Ok(()),
    }
}

/// The line of a fork. The error is: out of memory.
fn spell(alloc: Global, forked: &Forked) -> Result<Bytes, Memory>
    ensures { IfOk result (λ text. text ≡ forked_text forked.now) }
{
    let Forked { log, low, high } = *forked;
    let log = hex::encode(alloc, &log.0)?;
    let text = format!(in alloc; "forked {log} {low} {high}\n")?;
    Ok(Bytes::of(text.into_bytes()))
}

/// Tells the sink that the input is no line of digits.
fn refuse<W: Sink>(sink: &mut W) -> Status
    ensures statuses { (result ≡ 3) ⊎ (result ≡ 5) ⊎ (result ≡ 6) }
    ensures whole { result ≡ 3 → W.contents sink.new ≡ then (W.contents sink.old) (refused_text 1) }
    ensures part { result ≢ 3 → (k : ℕ) × (k < length (refused_text 1)) × (W.contents sink.new ≡ then (W.contents sink.old) (take k (refused_text 1))) }
    ensures failed { result ≡ 5 → Rose (W.faults sink.old) (W.faults sink.new) }
    ensures later { W.faults sink.old ≤ W.faults sink.new }
{
    let status = tell(sink, REFUSED.as_slice());
    if status == STATUS_ENDED {
        STATUS_REFUSED
    } else {
        status
    }
}
