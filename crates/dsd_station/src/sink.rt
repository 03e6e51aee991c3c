ghost use Rattle.std.specs.Prelude.{ℕ, List, Option};
ghost use Rattle.std.specs.Io.KnownBytes.{WriteAppends};
ghost use Rattle.dsd_station.specs.Causes.{HasCause, TakesSome};

use crate::Failed;

/// Where a job writes its report.
pub trait Sink {
    /// The bytes written, where the sink tells them.
    ghost written: { Self → Option (List ℕ) };

    /// How many calls have failed, up to the last value of 64 bits. It never falls.
    ghost faults: { Self → ℕ };

    /// Takes bytes from the front of the piece and answers how many, at least 1 of a piece that is not empty.
    /// A write that fails takes none.
    fn write(&mut self, from: &[u8]) -> Result<usize, Failed>
        ensures bound { TakesSome result from.now }
        ensures bytes { WriteAppends (written self.old) (written self.new) result from.now }
        ensures cause { HasCause (faults self.old) (faults self.new) result };
}
