//! The two ends of a thread's link, in memory. Neither fails.

ghost use Rattle.std.specs.Prelude.{◌≡◌, []};

use ivy_base::Bytes;
use ivy_io::{Failed, Failing, MemSink, MemSource, Sink, SinkFault, Source};
use std::alloc::Global;
use std::marker::Model;

/// A source in memory of which no call is planned to fail, so that none does. Contracts see the bytes that are left.
#[derive(Drop)]
pub(crate) struct SureSource {
    source: MemSource,
}

impl Model for SureSource {
    ghost use Rattle.std.specs.Prelude.{◌≡◌, ℕ, List, []};

    ghost Value = { List ℕ };

    ghost view = { λ s. s.source.left };

    ghost invariant = { λ s. s.source.failing ≡ [] };
}

impl SureSource {
    /// A source that gives these bytes.
    pub(crate) fn new(alloc: Global, bytes: Bytes) -> SureSource
        ensures { result ≡ bytes }
    {
        SureSource {
            source: MemSource::new(bytes, Failing::of(Vec::new(alloc))),
        }
    }
}

impl Source for SureSource {
    ghost use Rattle.std.specs.Prelude.{Some};

    ghost left = { λ s. Some s };

    ghost faults = { λ _. 0 };

    fn read(&mut self, into: &mut [u8]) -> Result<usize, Failed> {
        self.source.read(into)
    }
}

/// A sink in memory of which no call is planned to fail, so that none does except when out of memory. Contracts see the bytes
/// that were written.
#[derive(Drop)]
pub(crate) struct SureSink {
    sink: MemSink,
}

impl Model for SureSink {
    ghost use Rattle.std.specs.Prelude.{◌≡◌, ℕ, List, []};

    ghost Value = { List ℕ };

    ghost view = { λ s. s.sink.written };

    ghost invariant = { λ s. s.sink.failing ≡ [] };
}

impl SureSink {
    /// A sink that holds nothing yet.
    pub(crate) fn new(alloc: Global) -> SureSink
        ensures { result ≡ [] }
    {
        SureSink {
            sink: MemSink::new(alloc, Failing::of(Vec::new(alloc))),
        }
    }
}

impl Sink for SureSink {
    ghost use Rattle.std.specs.Prelude.{Some};

    ghost contents = { λ s. Some s };

    ghost faults = { λ _. 0 };

    fn write(&mut self, from: &[u8]) -> Result<usize, SinkFault> {
        self.sink.write(from)
    }
}
