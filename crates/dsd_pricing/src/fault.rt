//! Why a delivery has no price, and why a set is not written.

ghost use Rattle.std.specs.Prelude.{◌≡◌, ℤ};
ghost use Rattle.dsd_pricing.specs.declared.fault.WriteFault.TheVariants.{Memory as WantOfMemory};

use dsd_values::Memory;
use thiserror::Error;

/// Why a delivery has no price. Each variant carries the sum over the rows, in cents.
#[derive(Clone, Copy, Debug, PartialEq, Eq, Error)]
pub enum PriceFault {
    /// The sum is below 0.
    #[error("an amount of {0} cents is below 0")]
    Negative(i128),
    /// The sum is above the greatest amount.
    #[error("an amount of {0} cents is too large")]
    TooLarge(i128),
}

/// Why a set is not written: a fault of its price first, then the first segment that is too long.
#[derive(Clone, Copy, Debug, PartialEq, Eq, Error)]
pub enum WriteFault {
    /// A segment is too long: its length in bytes, with CR LF.
    #[error("a segment of {0} bytes is too long")]
    LongSegment(usize),
    /// The set is too long: its length in bytes, with each CR LF.
    #[error("a set of {0} bytes is too long")]
    LongSet(usize),
    /// The rows have no price.
    #[error("{0}")]
    Price(PriceFault),
    /// There was no memory.
    #[error("no memory")]
    Memory,
}

impl From<Memory> for WriteFault {
    ghost from_gives = { λ _ fault. fault ≡ WantOfMemory };

    fn from(_memory: Memory) -> WriteFault {
        WriteFault::Memory
    }
}
