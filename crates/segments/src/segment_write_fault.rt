//! Why a segment is not written.

ghost use Rattle.std.specs.Prelude.{◌≡◌};
ghost use Rattle.segments.specs.declared.segment_write_fault.SegmentWriteFault.TheVariants.{Memory as WantOfMemory};

use dsd_values::Memory;
use std::alloc::AllocError;
use thiserror::Error;

/// The most bytes of a segment that is written, with CR LF. All of them fit into one block of the line.
pub const SEGMENT_WRITTEN: usize = 245;

/// Why a segment is not written.
#[derive(Clone, Copy, Debug, PartialEq, Eq, Error)]
pub enum SegmentWriteFault {
    /// It is too long: its length in bytes, with CR LF.
    #[error("a segment of {0} bytes is too long")]
    LongSegment(usize),
    /// Memory is wanting.
    #[error("memory is wanting")]
    Memory,
}

impl From<Memory> for SegmentWriteFault {
    ghost from_gives = { λ _ fault. fault ≡ WantOfMemory };

    fn from(_memory: Memory) -> SegmentWriteFault {
        SegmentWriteFault::Memory
    }
}
