//! Runs of a script, each over another source and sink, and what is told of them.

use crate::ends::{Halting, Schedule, Slow};
use crate::text::Text;
use crate::told::{put_brief, put_status, put_written};
use ivy_base::{Bytes, Memory};
use ivy_io::{Failing, MemSink, MemSource, Sink, Source, StdSink, StdSource};
use ivy_play::{Status, play};

/// How a script is played over bytes in memory: the numbers of the read and of the write that fail, from 1, where 0 is none,
/// and whether it is told in brief.
#[derive(Clone, Copy)]
pub struct Plan {
    pub read: u64,
    pub write: u64,
    pub brief: bool,
}

impl Plan {
    /// Each call goes well, and all is reported.
    pub const WHOLE: Plan = Plan {
        read: 0,
        write: 0,
        brief: false,
    };

    /// Each call goes well, and it is told in brief.
    pub const BRIEF: Plan = Plan {
        read: 0,
        write: 0,
        brief: true,
    };
}

/// Plays a script. Nothing is said of it here, so that the trials aren't proved beside all that `play` promises.
fn status_of<Q: Source, W: Sink>(told: &Text, source: &mut Q, sink: &mut W) -> Status {
    play(told.alloc, source, sink)
}

/// The calls of which that one fails.
fn failing(told: &mut Text, number: u64) -> Failing {
    let mut calls = Vec::new(told.alloc);
    told.note(calls.push(number).is_ok());
    Failing::of(calls)
}

/// A source of the script, of which that read fails.
fn source_of(told: &mut Text, script: &[u8], read: u64) -> MemSource {
    let script = match Bytes::copy_of(told.alloc, script) {
        Ok(script) => script,
        Err(Memory) => {
            told.lack();
            Bytes::of(Vec::new(told.alloc))
        }
    };
    MemSource::new(script, failing(told, read))
}

/// A sink of which that write fails.
fn sink_of(told: &mut Text, write: u64) -> MemSink {
    MemSink::new(told.alloc, failing(told, write))
}

/// Tells the run over bytes in memory, and gives its status. The line that tells it isn't ended.
pub fn tell(told: &mut Text, script: &[u8], plan: Plan) -> Status {
    let mut source = source_of(told, script, plan.read);
    let mut sink = sink_of(told, plan.write);
    let status = status_of(told, &mut source, &mut sink);
    if plan.brief {
        put_brief(told, sink.written());
    } else {
        put_written(told, sink.written());
    }
    put_status(told, status);
    status
}

/// Tells the run by reads and writes of one byte each.
pub fn tell_slow(told: &mut Text, script: &[u8]) {
    let mut source = Slow {
        inner: source_of(told, script, 0),
    };
    let mut sink = Slow {
        inner: sink_of(told, 0),
    };
    let status = status_of(told, &mut source, &mut sink);
    put_written(told, sink.inner.written());
    put_status(told, status);
    told.byte(b'\n');
}

/// Tells the run over a reader and a writer of std, with these executions.
pub fn tell_over_std(told: &mut Text, script: &[u8], reads: Schedule, writes: Schedule) {
    let mut source = StdSource::new(Halting {
        inner: script,
        schedule: reads,
    });
    let mut sink = StdSink::new(Halting {
        inner: Vec::new(told.alloc),
        schedule: writes,
    });
    let status = status_of(told, &mut source, &mut sink);
    put_written(told, sink.into_writer().inner.as_slice());
    put_status(told, status);
    told.byte(b'\n');
}
