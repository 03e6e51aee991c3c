//! Why a text is no transmission.

ghost use Rattle.std.specs.Prelude.{◌≡◌, Err};

use segments::SegmentFault;
use thiserror::Error;

/// Why a text is no transmission. At one segment the reasons are tried in the order `Segment`, `NoHeader`, `Function`,
/// `NoTrailer`, `Control`, `Count`, `Tail`.
#[derive(Clone, Copy, Debug, PartialEq, Eq, Error)]
pub enum EnvelopeReason {
    /// The first segment is no DXS with right elements, or there is none.
    #[error("there is no header")]
    NoHeader,
    /// Neither ST nor a DXE with right elements stands where one must, or the text ends too early.
    #[error("there is no trailer")]
    NoTrailer,
    /// The trailer says another number of sets than was found.
    #[error("{said} sets are said and {found} found")]
    Count { said: u64, found: u64 },
    /// The trailer has another control number than the header.
    #[error("the control numbers differ")]
    Control,
    /// The function is not `DX`, in a header that is right otherwise.
    #[error("another function")]
    Function,
    /// No segment can be read there.
    #[error("{0}")]
    Segment(SegmentFault),
    /// A segment stands behind the trailer.
    #[error("bytes follow the trailer")]
    Tail,
}

/// Where a text is no transmission, and why.
#[derive(Clone, Copy, Debug, PartialEq, Eq, Error)]
#[error("at {place}: {reason}")]
pub struct EnvelopeFault {
    /// The start of the segment at which the reason is found, or the length of the text where it ends too early.
    pub place: usize,
    /// The first reason, in the order of the reasons, against what stands there.
    pub reason: EnvelopeReason,
}

/// A refusal at this place.
pub(crate) fn refuse<T>(place: usize, reason: EnvelopeReason) -> Result<T, EnvelopeFault>
    ensures { result ≡ Err (record { place = place; reason = reason }) }
{
    Err(EnvelopeFault { place, reason })
}
