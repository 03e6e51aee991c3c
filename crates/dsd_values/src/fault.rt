//! Why a text is no value, and why a value could not be kept.

ghost use Rattle.std.specs.Prelude.{◌≡◌};
ghost use Rattle.dsd_values.specs.declared.fault.KeptFault.TheVariants.{Memory};

use std::alloc::{AllocError, AllocFailed};
use thiserror::Error;

/// The first fault of a text, tried in the order of the variants.
#[derive(Clone, Copy, Debug, PartialEq, Eq, Error)]
pub enum ValueFault {
    /// The text has no byte.
    #[error("the text is empty")]
    Empty,
    /// The text is longer than its kind allows: its length in bytes.
    #[error("{0} bytes are too long")]
    TooLong(usize),
    /// The place of the first byte that the kind does not allow, and 0 for a cost or a percent
    /// without a digit.
    #[error("the byte at {0} may not stand there")]
    NotDigit(usize),
    /// How many digits stand after the point.
    #[error("{0} decimals are too many")]
    TooManyDecimals(usize),
    /// The number is outside its type, the text is too short, or it is none of a fixed choice.
    #[error("the value is out of range")]
    OutOfRange,
    /// The eight digits are no day of the calendar.
    #[error("there is no such day")]
    NoSuchDay,
}

/// There was no memory.
#[derive(Clone, Copy, Debug, PartialEq, Eq, Error)]
#[error("no memory")]
pub struct Memory;

impl From<AllocError> for Memory {
    fn from(_error: AllocError) -> Memory {
        Memory
    }
}

impl<T: Drop> From<AllocFailed<T>> for Memory {
    fn from(_error: AllocFailed<T>) -> Memory {
        Memory
    }
}

/// Why a text is not kept.
#[derive(Clone, Copy, Debug, PartialEq, Eq, Error)]
pub enum KeptFault {
    /// The text is longer than a kept one may be: its length in bytes.
    #[error("{0} bytes are too long")]
    Long(usize),
    /// There was no memory.
    #[error("no memory")]
    Memory,
}

impl From<AllocError> for KeptFault {
    ghost from_gives = { λ _ fault. fault ≡ Memory };

    fn from(_error: AllocError) -> KeptFault {
        KeptFault::Memory
    }
}
