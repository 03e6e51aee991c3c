ghost use Rattle.std.specs.Prelude.{ℕ, List, Option};
ghost use Rattle.std.specs.Io.{ReadsAtMost};
ghost use Rattle.std.specs.Io.KnownBytes.{ReadConsumes};
ghost use Rattle.dsd_station.specs.Causes.{CountsEnd, HasCause};

use crate::Failed;

/// Where a job reads its input.
pub trait Source {
    /// The bytes that are left, where the source tells them.
    ghost left: { Self → Option (List ℕ) };

    /// How many reads gave no byte, up to the last value of 64 bits.
    ghost ends: { Self → ℕ };

    /// How many calls have failed, up to the last value of 64 bits. It never falls.
    ghost faults: { Self → ℕ };

    /// Moves bytes into the front of the buffer and answers how many. A count of 0 is the end of the input,
    /// where the buffer is not empty. A read that fails takes none.
    fn read(&mut self, into: &mut [u8]) -> Result<usize, Failed>
        ensures bound { ReadsAtMost result into.new }
        ensures bytes { ReadConsumes (left self.old) (left self.new) result into.new }
        ensures ended { CountsEnd (ends self.old) (ends self.new) result }
        ensures cause { HasCause (faults self.old) (faults self.new) result };
}
