use thiserror::Error;

/// Why no segment can be read at the front of what is left of a text. The bytes are judged in order, so the first of
/// `NoEnd`, `BadByte` and `TooLong` decides; `BadId` and then `TooManyElements` follow.
#[derive(Clone, Copy, Debug, PartialEq, Eq, Error)]
pub enum SegmentFault {
    /// The text ends inside the segment that starts there.
    #[error("the segment at {0} has no end")]
    NoEnd(usize),
    /// A byte that may not stand in a segment: its place, and the byte. A CR is one where another byte than LF follows.
    #[error("a byte {1:#04X} at {0}")]
    BadByte(usize, u8),
    /// The segment that starts there has no id of 2 or 3 letters and digits with a letter first.
    #[error("the segment at {0} has no id")]
    BadId(usize),
    /// The segment that starts there has more than 512 bytes with its terminator.
    #[error("the segment at {0} is too long")]
    TooLong(usize),
    /// The segment that starts there has more than 30 elements, empty ones at its end too.
    #[error("the segment at {0} has too many elements")]
    TooManyElements(usize),
}
