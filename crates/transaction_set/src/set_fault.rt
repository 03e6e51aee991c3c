//! Why a text is no set.

ghost use Rattle.std.specs.Prelude.{◌≡◌};
ghost use Rattle.transaction_set.specs.Taking.{told_at};
ghost use Rattle.transaction_set.specs.declared.set_fault.SetFault.TheVariants.{Memory as WantOfMemory};

use dsd_values::{Check, DsdNumber, Memory, ValueFault};
use segments::SegmentFault;
use thiserror::Error;

/// Why a set is refused at a segment, in the order in which the reasons are asked.
#[derive(Clone, Copy, Debug, PartialEq, Eq, Error)]
pub enum SetReason {
    /// No segment can be read there.
    #[error("{0}")]
    Segment(SegmentFault),
    /// The segment may not stand there, the text ends before SE, or bytes follow SE.
    #[error("a segment out of order")]
    Order,
    /// One line more than a delivery may have, one allowance more than a line or a record may have, or the segment ends
    /// past the most bytes of a set.
    #[error("more than a set may have")]
    Limit,
    /// The first element that is refused, by its number from 1.
    #[error("element {element}: {fault}")]
    Value { element: usize, fault: ValueFault },
    /// The DSD number of an earlier line again.
    #[error("line {0} twice")]
    Twice(DsdNumber),
    /// A stated total is not that of the lines: the quantity, and where that is right the amount.
    #[error("{said} is stated, and the lines come to {computed}")]
    Totals { said: u64, computed: i128 },
    /// The stated integrity value is not that of the bytes.
    #[error("check {said} is stated, and that of the bytes is {computed}")]
    Check { said: Check, computed: Check },
    /// The stated number of segments is not that of the set.
    #[error("{said} segments are stated, and there are {found}")]
    Count { said: u64, found: u64 },
    /// The trailer does not repeat the control number.
    #[error("another control number")]
    Control,
}

/// Why a text is no set.
#[derive(Clone, Copy, Debug, PartialEq, Eq, Error)]
pub enum SetFault {
    /// The start of the first segment that has a reason against it, or the length of a text that ends too early; and
    /// the first reason there.
    #[error("at {place}: {reason}")]
    Refused { place: usize, reason: SetReason },
    /// Memory is wanting.
    #[error("no memory")]
    Memory,
}

impl SetFault {
    /// The same fault, told at this place.
    #[inline(never)]
    pub fn told_at(&self, place: usize) -> SetFault
        ensures { result ≡ told_at place self.now }
    {
        match self {
            SetFault::Refused { reason, .. } => SetFault::Refused {
                place,
                reason: *reason,
            },
            SetFault::Memory => SetFault::Memory,
        }
    }
}

impl From<Memory> for SetFault {
    ghost from_gives = { λ _ fault. fault ≡ WantOfMemory };

    fn from(_memory: Memory) -> SetFault {
        SetFault::Memory
    }
}
