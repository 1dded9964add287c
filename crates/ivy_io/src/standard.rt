//! A source and a sink over readers and writers of std. They tell no bytes.

ghost use Rattle.std.specs.Prelude.{◌≡◌, None};
ghost use Rattle.std.specs.Io.{ReadsAtMost, WritesAtMost};
ghost use Rattle.std.specs.Io.KnownBytes.{ReadConsumes, WriteAppends as WriterAppends};
ghost use Rattle.ivy_io.specs.Causes.{HasCause, HasSinkCause};
ghost use Rattle.ivy_io.specs.Known.{ReadTakes, WriteAppends};

use crate::{Failed, Sink, SinkFault, Source};
use std::io;
use std::io::{ErrorKind, Read, Write};
use std::marker::Model;

/// How often a call that a signal interrupted is tried again, before it counts as a fault.
const RETRIES: u32 = 1_000;

/// A source over any reader. A read that a signal interrupts is tried again; each other error is a fault.
#[derive(Drop)]
pub struct StdSource<R> {
    reader: R,
    faults: u64,
}

impl<R> Model for StdSource<R> {
    ghost use Rattle.ivy_io.specs.States.{ReaderState};

    ghost Value = { ReaderState R };

    ghost view = { λ s. record { reader = s.reader; faults = s.faults } };
}

impl<R> StdSource<R> {
    /// A source over this reader, with no faults yet.
    pub fn new(reader: R) -> StdSource<R>
        ensures reader { result.reader ≡ reader }
        ensures faults { result.faults ≡ 0 }
    {
        StdSource { reader, faults: 0 }
    }
}

impl<R: Read> Source for StdSource<R> {
    ghost left = { λ _. None };

    ghost faults = { λ s. s.faults };

    fn read(&mut self, into: &mut [u8]) -> Result<usize, Failed>
        ensures bound { ReadsAtMost result into.new }
        ensures bytes { ReadTakes None None result into.new }
        ensures cause { HasCause self.old.faults self.new.faults result }

        // The bytes are those of the reader, where they are known of it.
        ensures given { ReadConsumes (R.remaining self.old.reader) (R.remaining self.new.reader) result into.new }
    {
        match read_retrying(&mut self.reader, into) {
            Ok(count) => Ok(count),
            Err(_) => {
                self.faults = self.faults.saturating_add(1);
                Err(Failed)
            }
        }
    }
}

/// One read, tried again where a signal interrupts it.
fn read_retrying<R: Read>(reader: &mut R, into: &mut [u8]) -> io::Result<usize>
    ensures bound { ReadsAtMost result into.new }
    ensures given { ReadConsumes (R.remaining reader.old) (R.remaining reader.new) result into.new }
{
    'tries: for _ in 0..RETRIES {
        match reader.read(into) {
            Err(error) if error.kind() == ErrorKind::Interrupted => {}
            result => return result,
        }
    }
    reader.read(into)
}

/// A sink over any writer. A write that a signal interrupts is tried again; each other error is a fault, but running
/// out of memory. Bytes count as written once the writer took them: a writer that holds bytes back may lose them
/// later.
#[derive(Drop)]
pub struct StdSink<W> {
    writer: W,
    faults: u64,
}

impl<W> Model for StdSink<W> {
    ghost use Rattle.ivy_io.specs.States.{WriterState};

    ghost Value = { WriterState W };

    ghost view = { λ s. record { writer = s.writer; faults = s.faults } };
}

impl<W> StdSink<W> {
    /// A sink over this writer, with no faults yet.
    pub fn new(writer: W) -> StdSink<W>
        ensures writer { result.writer ≡ writer }
        ensures faults { result.faults ≡ 0 }
    {
        StdSink { writer, faults: 0 }
    }

    /// The writer.
    pub fn writer(&self) -> &W
        ensures { result.now ≡ self.now.writer }
    {
        &self.writer
    }

    /// The writer, with what it took.
    pub fn into_writer(self) -> W
        ensures { result ≡ self.writer }
    {
        self.writer
    }
}

impl<W: Write> Sink for StdSink<W> {
    ghost contents = { λ _. None };

    ghost faults = { λ s. s.faults };

    fn write(&mut self, from: &[u8]) -> Result<usize, SinkFault>
        ensures bound { WritesAtMost result from.now }
        ensures bytes { WriteAppends None None result from.now }
        ensures cause { HasSinkCause self.old.faults self.new.faults from.now result }

        // The bytes go to the writer, where they are known of it.
        ensures taken { WriterAppends (W.contents self.old.writer) (W.contents self.new.writer) result from.now }
    {
        match write_retrying(&mut self.writer, from) {
            Ok(count) => {
                if count == 0 && !from.is_empty() {
                    self.faults = self.faults.saturating_add(1);
                }
                Ok(count)
            }
            Err(error) if error.kind() == ErrorKind::OutOfMemory => Err(SinkFault::Memory),
            Err(_) => {
                self.faults = self.faults.saturating_add(1);
                Err(SinkFault::Failed)
            }
        }
    }
}

/// One write, tried again where a signal interrupts it.
fn write_retrying<W: Write>(writer: &mut W, from: &[u8]) -> io::Result<usize>
    ensures bound { WritesAtMost result from.now }
    ensures taken { WriterAppends (W.contents writer.old) (W.contents writer.new) result from.now }
{
    'tries: for _ in 0..RETRIES {
        match writer.write(from) {
            Err(error) if error.kind() == ErrorKind::Interrupted => {}
            result => return result,
        }
    }
    writer.write(from)
}
