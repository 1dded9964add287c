//! Sources, sinks, readers and writers that don't do as much as they are asked for.

use ivy_io::{Failed, MemSink, MemSource, Sink, SinkFault, Source};
use std::io;
use std::io::{ErrorKind, Read, Write};

/// A source or a sink that gives or takes one byte at a time.
#[derive(Drop)]
pub struct Slow<T> {
    pub inner: T,
}

impl Source for Slow<MemSource> {
    ghost use Rattle.std.specs.Prelude.{None};

    ghost left = { λ _. None };

    ghost faults = { λ s. ⟦<MemSource as Source>⟧.faults s.inner };

    fn read(&mut self, into: &mut [u8]) -> Result<usize, Failed> {
        match into {
            [] => Ok(0),
            [_, ..] => self.inner.read(&mut into[..1]),
        }
    }
}

impl Sink for Slow<MemSink> {
    ghost contents = { λ s. ⟦<MemSink as Sink>⟧.contents s.inner };

    ghost faults = { λ s. ⟦<MemSink as Sink>⟧.faults s.inner };

    fn write(&mut self, from: &[u8]) -> Result<usize, SinkFault> {
        match from {
            [] => self.inner.write(from),
            [_, ..] => self.inner.write(&from[..1]),
        }
    }
}

/// How the calls of a reader or a writer go: so many are interrupted, then one fails if it is to, and the others go well.
#[derive(Clone, Copy)]
pub struct Schedule {
    pub interruptions: u32,
    pub fails: bool,
}

impl Schedule {
    /// Whether the next call goes well.
    fn next(&mut self) -> io::Result<()> {
        if self.interruptions > 0 {
            self.interruptions -= 1;
            return Err(io::Error::from(ErrorKind::Interrupted));
        }
        if self.fails {
            self.fails = false;
            return Err(io::Error::from(ErrorKind::BrokenPipe));
        }
        Ok(())
    }
}

/// A reader or a writer of std with such an execution.
#[derive(Drop)]
pub struct Halting<T> {
    pub inner: T,
    pub schedule: Schedule,
}

impl Read for Halting<&[u8]> {
    fn read(&mut self, into: &mut [u8]) -> io::Result<usize> {
        self.schedule.next()?;
        self.inner.read(into)
    }
}

impl Write for Halting<Vec<u8>> {
    fn write(&mut self, from: &[u8]) -> io::Result<usize> {
        self.schedule.next()?;
        self.inner.write(from)
    }

    fn flush(&mut self) -> io::Result<()> {
        Ok(())
    }
}
