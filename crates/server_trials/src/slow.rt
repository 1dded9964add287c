//! A slow source.

use ivy_io::{Failed, MemSource, Source};

/// A source over bytes in memory, of which each read gives one.
#[derive(Drop)]
pub struct Slow {
    pub source: MemSource,
}

impl Source for Slow {
    ghost use Rattle.std.specs.Prelude.{Some};

    ghost left = { λ s. Some s.source.left };

    ghost faults = { λ s. s.source.faults };

    fn read(&mut self, into: &mut [u8]) -> Result<usize, Failed> {
        let count = into.len().min(1);
        self.source.read(&mut into[..count])
    }
}
