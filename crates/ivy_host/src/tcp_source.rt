//! What is read of a TCP link.

ghost use Rattle.std.specs.Prelude.{◌≡◌, None};

use ivy_io::{Failed, Source, StdSource};
use std::marker::Model;
use std::net::TcpStream;

/// What is read of a link of [`crate::TcpPorts`], which knows the link's number.
#[derive(Drop)]
pub struct TcpSource {
    source: StdSource<TcpStream>,
    number: u64,
}

impl Model for TcpSource {
    ghost use Rattle.ivy_host.specs.Tcp.{TcpSourceState};

    ghost Value = { TcpSourceState };

    ghost view = { λ s. record { number = s.number; faults = s.source.faults } };
}

impl TcpSource {
    /// What is read of the link of that number.
    pub(crate) fn of(stream: TcpStream, number: u64) -> TcpSource
        ensures { result ≡ record { number = number; faults = 0 } }
    {
        TcpSource {
            source: StdSource::new(stream),
            number,
        }
    }

    /// The link's number.
    pub fn number(&self) -> u64
        ensures { result ≡ self.now.number }
    {
        self.number
    }
}

impl Source for TcpSource {
    ghost left = { λ s. None };

    ghost faults = { λ s. s.faults };

    fn read(&mut self, into: &mut [u8]) -> Result<usize, Failed> {
        self.source.read(into)
    }
}
