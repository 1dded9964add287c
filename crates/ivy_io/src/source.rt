ghost use Rattle.std.specs.Prelude.{ℕ, List};
ghost use Rattle.std.specs.Io.{ReadsAtMost};
ghost use Rattle.std.specs.declared.option.Option.{Option};
ghost use Rattle.ivy_io.specs.Causes.{HasCause};
ghost use Rattle.ivy_io.specs.Known.{ReadTakes};

use crate::Failed;

/// Where bytes come from.
pub trait Source {
    /// The bytes that are left to be read, where they are known.
    ghost left: { Self → Option (List ℕ) };

    /// How often the source has failed. A count that reached 2^64 - 1 stays there.
    ghost faults: { Self → ℕ };

    /// Reads the next bytes to the front of a slice, and returns how many. 0 for a slice that isn't empty is the
    /// end. After an error the bytes left are as before; the next read may succeed.
    fn read(&mut self, into: &mut [u8]) -> Result<usize, Failed>
        ensures bound { ReadsAtMost result into.new }
        ensures bytes { ReadTakes (left self.old) (left self.new) result into.new }
        ensures cause { HasCause (faults self.old) (faults self.new) result };
}
