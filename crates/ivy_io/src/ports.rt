ghost use Rattle.std.specs.Prelude.{◌≡◌, ◌≤◌, ℕ, option_map, IfOk, IfErr, OnErr};
ghost use Rattle.std.specs.declared.option.Option.{Option};
ghost use Rattle.ivy_io.specs.Faults.{EndsCount, Refuses};
ghost use Rattle.ivy_io.specs.Links.{GivesNext, Links, taken_back};

use crate::{OpenFault, Sink, Source};
use std::alloc::Global;

/// Where links come from.
pub trait Ports {
    /// What is read of a link.
    type Reads: Source + Drop + Send;

    /// What is written to a link.
    type Writes: Sink + Drop + Send;

    /// The links that are to come, those that were given, and those that came back, where they are known.
    ghost links: { Self → Option (Links (Self.Reads × Self.Writes)) };

    /// How often the ports have failed. A count that reached 2^64 - 1 stays there.
    ghost faults: { Self → ℕ };

    /// How often there was no further link. A count that reached 2^64 - 1 stays there.
    ghost ends: { Self → ℕ };

    /// Which link may be given, or none, and how that leaves the ports.
    ghost gives: { Self → Option (Self.Reads × Self.Writes) → Self → Type 0 };

    /// How a link may be taken back.
    ghost takes: { Self → Self.Reads → Self.Writes → Self → Type 0 };

    /// From then on links come from that port. After running out of memory nothing has changed.
    fn listen(&mut self, alloc: Global, port: u16) -> Result<(), OpenFault>
        ensures links { links self.new ≡ links self.old }
        ensures ends { ends self.new ≡ ends self.old }
        ensures refused { IfErr result (λ fault. Refuses faults self.old self.new fault) }
        ensures later { faults self.old ≤ faults self.new };

    /// A new link, in the order in which they come. None comes exactly where the count of ends rises, and where the links
    /// are known, exactly where none is left. After running out of memory nothing has changed.
    fn accept(&mut self, alloc: Global) -> Result<Option<(Self::Reads, Self::Writes)>, OpenFault>
        ensures is { IfOk result (λ link. gives self.old link self.new) }
        ensures links { IfOk result (λ link. GivesNext (links self.old) (links self.new) link) }
        ensures none { OnErr result (links self.new ≡ links self.old) }
        ensures ends { EndsCount (ends self.old) (ends self.new) result }
        ensures never_falls { ends self.old ≤ ends self.new }
        ensures refused { IfErr result (λ fault. Refuses faults self.old self.new fault) }
        ensures later { faults self.old ≤ faults self.new };

    /// Tells who is at the link's other end that its session has ended. The link itself stays as it is.
    fn hang_up(_reads: &Self::Reads, _writes: &Self::Writes) {}

    /// Takes back a link that was given.
    fn give_back(&mut self, reads: Self::Reads, writes: Self::Writes)
        ensures is { takes self.old reads writes self.new }
        ensures links { links self.new ≡ option_map (taken_back (reads, writes)) (links self.old) }
        ensures ends { ends self.new ≡ ends self.old }
        ensures later { faults self.old ≤ faults self.new };
}
