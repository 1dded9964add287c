//! A generated load.

ghost use Rattle.std.specs.Prelude.{◌≡◌, ◌≢◌, ◌⊎◌, ◌<◌, ◌≤◌, ℕ, length, take, IfOk, IfErr};
ghost use Rattle.ivy_io.specs.Causes.{Rose};
ghost use Rattle.ivy_io.specs.Known.{then};
ghost use Rattle.ivy_cli.specs.Loads.{GivesNone, GivesSummary, IsLoad};

use crate::memory::{Script, Shown};
use crate::script::generate;
use crate::summing::summary;
use ivy_base::{Bytes, Memory};
use ivy_io::{Sink, SinkFault, write_all};
use ivy_play::{Status, play};
use std::alloc::Global;

/// The status of a program that did what it was asked for.
const STATUS_ENDED: Status = 0;

/// The status of a program whose writing failed.
const STATUS_WRITE: Status = 5;

/// The status of a program for which memory ran out.
const STATUS_MEMORY: Status = 6;

/// Plays the script that is generated of a seed, with so many calls, and tells the sink the summary of what it showed.
///
/// Nothing is reported where the script isn't played to its line `end`; the status is then that of its play. The script
/// comes from memory and what it shows stays there, so status 4 never comes, and 5 only of this sink.
pub fn load<W: Sink>(alloc: Global, seed: u64, calls: u32, sink: &mut W) -> Status
    ensures { IsLoad seed calls result (W.contents sink.old) (W.contents sink.new) (W.faults sink.old) (W.faults sink.new) }
{
    match summed_up(alloc, seed, calls) {
        Ok(summary) => tell(sink, summary.as_slice()),
        Err(status) => status,
    }
}

/// The summary of what the generated script shows; or the status, if its play doesn't end with 0.
fn summed_up(alloc: Global, seed: u64, calls: u32) -> Result<Bytes, Status>
    ensures ok { IfOk result (GivesSummary seed calls) }
    ensures err { IfErr result (GivesNone seed calls) }
{
    let Ok(script) = generate(alloc, seed, calls) else {
        return Err(STATUS_MEMORY);
    };
    let mut source = Script::of(script);
    let mut shown = Shown::new(alloc);
    let status = play(alloc, &mut source, &mut shown);
    if status != STATUS_ENDED {
        return Err(status);
    }
    match summary(alloc, calls, shown.text()) {
        Ok(summary) => Ok(summary),
        Err(Memory) => Err(STATUS_MEMORY),
    }
}

/// Tells the sink all of these bytes, or says why not.
pub(crate) fn tell<W: Sink>(sink: &mut W, bytes: &[u8]) -> Status
    ensures statuses { (result ≡ 0) ⊎ (result ≡ 5) ⊎ (result ≡ 6) }
    ensures whole { result ≡ 0 → W.contents sink.new ≡ then (W.contents sink.old) bytes.now }
    ensures part { result ≢ 0 → (k : ℕ) × (k < length bytes.now) × (W.contents sink.new ≡ then (W.contents sink.old) (take k bytes.now)) }
    ensures failed { result ≡ 5 → Rose (W.faults sink.old) (W.faults sink.new) }
    ensures later { W.faults sink.old ≤ W.faults sink.new }
{
    match write_all(sink, bytes) {
        Ok(()) => STATUS_ENDED,
        Err(SinkFault::Failed) => STATUS_WRITE,
        Err(SinkFault::Memory) => STATUS_MEMORY,
    }
}
