//! A source and a sink in memory that never fail: between them nothing keeps a script from its end but running out of
//! memory.

ghost use Rattle.std.specs.Prelude.{◌≡◌, ℕ, List, [], Some};
ghost use Rattle.std.specs.Io.{ReadsAtMost, WritesAtMost};
ghost use Rattle.ivy_io.specs.Causes.{HasCause, HasSinkCause};
ghost use Rattle.ivy_io.specs.Known.{ReadTakes, WriteAppends};

use ivy_base::Bytes;
use ivy_io::{Failed, Sink, SinkFault, Source};
use std::alloc::Global;
use std::marker::Model;

/// A script in memory. Each read gives as many bytes as are left and fit.
#[derive(Drop)]
pub struct Script {
    bytes: Bytes,
    at: usize,
}

impl Model for Script {
    ghost use Rattle.std.specs.Prelude.{ℕ, List, drop};

    ghost Value = { List ℕ };

    ghost view = { λ s. drop s.at s.bytes };
}

impl Script {
    /// The script of these bytes.
    pub fn of(bytes: Bytes) -> Script
        ensures { result ≡ bytes }
    {
        Script { bytes, at: 0 }
    }
}

impl Source for Script {
    ghost left = { λ s. Some s };

    ghost faults = { λ _. 0 };

    fn read(&mut self, into: &mut [u8]) -> Result<usize, Failed>
        ensures bound { ReadsAtMost result into.new }
        ensures bytes { ReadTakes (Some self.old) (Some self.new) result into.new }
        ensures cause { HasCause 0 0 result }
    {
        let bytes = self.bytes.as_slice();
        if self.at >= bytes.len() {
            return Ok(0);
        }
        let rest = &bytes[self.at..];
        let count = rest.len().min(into.len());
        into[..count].copy_from_slice(&rest[..count]);
        self.at += count;
        Ok(count)
    }
}

/// What was shown, kept in memory. Each write takes the whole piece.
#[derive(Drop)]
pub struct Shown {
    bytes: Vec<u8>,
}

impl Model for Shown {
    ghost use Rattle.std.specs.Prelude.{ℕ, List};

    ghost Value = { List ℕ };

    ghost view = { λ s. s.bytes.items };
}

impl Shown {
    /// Nothing yet.
    pub fn new(alloc: Global) -> Shown
        ensures { result ≡ [] }
    {
        Shown {
            bytes: Vec::new(alloc),
        }
    }

    /// All that was shown.
    pub fn text(&self) -> &[u8]
        ensures { result.now ≡ self.now }
    {
        self.bytes.as_slice()
    }
}

impl Sink for Shown {
    ghost contents = { λ s. Some s };

    ghost faults = { λ _. 0 };

    fn write(&mut self, from: &[u8]) -> Result<usize, SinkFault>
        ensures bound { WritesAtMost result from.now }
        ensures bytes { WriteAppends (Some self.old) (Some self.new) result from.now }
        ensures cause { HasSinkCause 0 0 from.now result }
    {
        match self.bytes.extend_from_slice(from) {
            Ok(()) => Ok(from.len()),
            Err(_) => Err(SinkFault::Memory),
        }
    }
}
