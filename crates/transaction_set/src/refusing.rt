//! Refusals at a segment.

ghost use Rattle.std.specs.Prelude.{◌≡◌, Err};
ghost use Rattle.transaction_set.specs.Reasons.{at_segment};

use crate::set_fault::{SetFault, SetReason};
use segments::{ItemFault, Segment, SegmentFault};

/// A refusal at this segment.
pub fn refuse<T>(segment: &Segment<'_>, reason: SetReason) -> Result<T, SetFault>
    ensures { result ≡ Err (SetFault.Refused segment.now.start reason) }
{
    Err(SetFault::Refused {
        place: segment.start(),
        reason,
    })
}

/// The answer about the elements of this segment, as one about the set.
pub fn at<T>(segment: &Segment<'_>, answer: Result<T, ItemFault>) -> Result<T, SetFault>
    ensures { result ≡ at_segment segment.now.start answer }
{
    match answer {
        Ok(value) => Ok(value),
        Err(ItemFault::Value { element, fault }) => {
            refuse(segment, SetReason::Value { element, fault })
        }
        Err(ItemFault::Memory) => Err(SetFault::Memory),
    }
}

/// The refusal of a text at the place where no segment can be read.
// The readers of sets match the answer of `next` themselves: a segment is copied with each answer that it is put into.
pub fn unreadable<T>(place: usize, fault: SegmentFault) -> Result<T, SetFault>
    ensures { result ≡ Err (SetFault.Refused place (SetReason.Segment fault)) }
{
    Err(SetFault::Refused {
        place,
        reason: SetReason::Segment(fault),
    })
}
