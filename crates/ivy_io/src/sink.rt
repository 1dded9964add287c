ghost use Rattle.std.specs.Prelude.{◌≡◌, ℕ, ◌≤◌, ◌<◌, List, length, take, OnOk, OnErr, IsErrOf};
ghost use Rattle.std.specs.Io.{WritesAtMost};
ghost use Rattle.std.specs.declared.option.Option.{Option};
ghost use Rattle.ivy_io.specs.Causes.{Rose, HasSinkCause};
ghost use Rattle.ivy_io.specs.Known.{then, WriteAppends};

use crate::SinkFault;

/// Where bytes go to.
pub trait Sink {
    /// The bytes that were written, where they are known.
    ghost contents: { Self → Option (List ℕ) };

    /// How often the sink has failed. A count that reached 2^64 - 1 stays there.
    ghost faults: { Self → ℕ };

    /// Appends a front of the piece, and returns its length. To take nothing of a piece that isn't empty is a fault.
    /// After an error the contents are as before; the next write may succeed.
    fn write(&mut self, from: &[u8]) -> Result<usize, SinkFault>
        ensures bound { WritesAtMost result from.now }
        ensures bytes { WriteAppends (contents self.old) (contents self.new) result from.now }
        ensures cause { HasSinkCause (faults self.old) (faults self.new) from.now result };
}

/// Writes the whole piece, in as many writes as it takes. After an error a front of it was written, and not all.
pub fn write_all<W: Sink>(sink: &mut W, from: &[u8]) -> Result<(), SinkFault>
    ensures ok { OnOk result (W.contents sink.new ≡ then (W.contents sink.old) from.now) }
    ensures front { OnErr result ((k : ℕ) × (k < length from.now) × (W.contents sink.new ≡ then (W.contents sink.old) (take k from.now))) }
    ensures failed { IsErrOf result SinkFault.Failed → Rose (W.faults sink.old) (W.faults sink.new) }
    ensures later { W.faults sink.old ≤ W.faults sink.new }
{
    let mut at = 0;
    while at < from.len() {
        let count = sink.write(&from[at..])?;
        if count == 0 {
            return Err(SinkFault::Failed);
        }
        at += count;
    }
    Ok(())
}
