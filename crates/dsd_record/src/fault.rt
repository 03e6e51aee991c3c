//! Why an answer does not apply to a version.

ghost use Rattle.std.specs.Prelude.{◌≡◌};
ghost use Rattle.dsd_record.specs.declared.fault.ApplyFault.TheVariants.{Memory as WantOfMemory};

use dsd_values::{Check, Level, Memory};
use thiserror::Error;

/// The first reason against an answer, tried in the order of the variants.
#[derive(Clone, Copy, Debug, PartialEq, Eq, Error)]
pub enum ApplyFault {
    /// It is of another delivery: the flag or the number differs.
    #[error("another delivery")]
    WrongDelivery,
    /// It states a level that does not follow from the kept one.
    #[error("level {said} is not that of an answer to the kept level {kept}")]
    WrongLevel { kept: Level, said: Level },
    /// It names a set with another check.
    #[error("the set with check {said} is named, and the kept one has {kept}")]
    WrongCheck { kept: Check, said: Check },
    /// So many lines would stand.
    #[error("{0} lines are too many")]
    Limit(usize),
    /// The quantity that it states, or else its amount in cents, is not what the lines then come to.
    #[error("totals of {said} are stated, and the rows come to {computed}")]
    TotalsDiffer { said: u64, computed: i128 },
    /// There was no memory.
    #[error("no memory")]
    Memory,
}

impl From<Memory> for ApplyFault {
    ghost from_gives = { λ _ fault. fault ≡ WantOfMemory };

    fn from(_memory: Memory) -> ApplyFault {
        ApplyFault::Memory
    }
}
