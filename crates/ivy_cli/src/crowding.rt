//! A crowd, and what it tells.

ghost use Rattle.std.specs.Prelude.{◌≡◌, ◌++◌, codes, IfOk};
ghost use Rattle.std.specs.Fmt.{decimal};
ghost use Rattle.hex.specs.Hex.{encode_lower};
ghost use Rattle.ivy_cli.specs.Crowds.{IsCrowd, IsTold, tally_text};
ghost use Rattle.ivy_cli.specs.Words.{IsCrowdSize};

use crate::loading::tell;
use ivy_base::{Bytes, Memory};
use ivy_crowd::{Tally, crowd};
use ivy_io::{Clock, Sink};
use ivy_play::Status;
use std::alloc::Global;
use std::sync::Wait;
use std::thread::Threads;

/// The status of a program for which memory ran out.
const STATUS_MEMORY: Status = 6;

/// Has so many threads of one participant create so many files each over a live ring, and tells the sink what they came to.
///
/// The status is 0 where all lines were reported, 5 where the sink failed, and 6 when out of memory, which nothing ties to a
/// cause.
pub(crate) fn tell_crowd<R: Threads + Wait + Sync, W: Sink, C: Clock>(
    rt: &R,
    alloc: Global,
    threads: u32,
    calls: u32,
    sink: &mut W,
    clock: &mut C,
) -> Status
    requires { IsCrowdSize threads calls }
    ensures { IsCrowd (record { threads = threads; calls = calls; gives = C.gives; moment = C.moment; before = clock.old; after = clock.new })
        result (W.contents sink.old) (W.contents sink.new) (W.faults sink.old) (W.faults sink.new) }
{
    match tally_of(rt, alloc, threads, calls, clock) {
        Ok(text) => tell(sink, text.as_slice()),
        Err(Memory) => STATUS_MEMORY,
    }
}

/// The lines of what so many threads with so many calls each came to. The error is: out of memory.
fn tally_of<R: Threads + Wait + Sync, C: Clock>(
    rt: &R,
    alloc: Global,
    threads: u32,
    calls: u32,
    clock: &mut C,
) -> Result<Bytes, Memory>
    requires { IsCrowdSize threads calls }
    ensures { IfOk result (IsTold (record { threads = threads; calls = calls; gives = C.gives; moment = C.moment; before = clock.old; after = clock.new })) }
{
    let tally = crowd(rt, alloc, threads, calls, clock)?;
    spell(alloc, &tally)
}

/// The four lines of a tally. The error is: out of memory.
fn spell(alloc: Global, tally: &Tally) -> Result<Bytes, Memory>
    ensures { IfOk result (λ text. text ≡ tally_text tally.now) }
{
    let Tally {
        turns,
        files,
        last,
        stored,
    } = *tally;
    let last = hex::encode(alloc, &last.0)?;
    let text = format!(in alloc; "turns {turns}\nfiles {files}\nlast {last}\nstored {stored}\n")?;
    Ok(Bytes::of(text.into_bytes()))
}
