//! What is said on a line, or heard there.

ghost use Rattle.std.specs.Prelude.{◌≡◌, ◌≤◌, length};
ghost use Rattle.dex_line.specs.FrameShapes.{frame_seen, Block, Header};
ghost use Rattle.dex_line.specs.FrameSpelling.{is_closing, most_text};

use super::bytes::{ETB, ETX};
use arrayvec::ArrayVec;

/// The most bytes of text in a block that is read.
pub const BLOCK_READ: usize = 512;

/// The most bytes of text in a header, read or written.
pub const HEADER_BYTES: usize = 32;

/// A frame of the line.
///
/// The text of a header or block that is said has at least one byte, and printable characters, CR and LF alone.
#[derive(Debug, Drop)]
pub enum Frame {
    /// Asks for the line.
    Enq,
    /// Answers an enquiry and every second frame.
    Ack0,
    /// Answers the first frame of a turn and every second one after it.
    Ack1,
    /// Asks for the frame again.
    Nak,
    /// Ends a turn.
    Eot,
    /// Names the ends of the line.
    Header(ArrayVec<u8, HEADER_BYTES>),
    /// A part of a text, or the last part of it.
    Block {
        last: bool,
        text: ArrayVec<u8, BLOCK_READ>,
    },
    /// A header or block whose check is another one. It is heard, and never said.
    Damaged,
    /// What is no frame. It is heard, and never said.
    Bad,
}

/// What a text stands in.
#[derive(Debug, Clone, Copy)]
pub enum Opened {
    Header,
    Block,
}

impl Opened {
    /// How many bytes its text may have.
    pub fn limit(self) -> usize
        ensures { result ≡ most_text self }
    {
        match self {
            Opened::Header => HEADER_BYTES,
            Opened::Block => BLOCK_READ,
        }
    }

    /// Whether the byte, behind a DLE, closes it.
    pub fn is_closed_by(self, byte: u8) -> bool
        ensures { result ≡ is_closing self byte }
    {
        match self {
            Opened::Header => byte == ETX,
            Opened::Block => byte == ETX || byte == ETB,
        }
    }
}

impl Frame {
    /// A header with this text.
    pub fn header(text: &[u8]) -> Frame
        requires { length text.now ≤ HEADER_BYTES }
        ensures { frame_seen result ≡ Header text.now }
    {
        let mut copy = ArrayVec::new();
        let _ = copy.try_extend_from_slice(text);
        Frame::Header(copy)
    }

    /// A block with this text.
    pub fn block(last: bool, text: &[u8]) -> Frame
        requires { length text.now ≤ BLOCK_READ }
        ensures { frame_seen result ≡ Block last text.now }
    {
        let mut copy = ArrayVec::new();
        let _ = copy.try_extend_from_slice(text);
        Frame::Block { last, text: copy }
    }

    /// The same frame once more, since a frame may have to be said again.
    pub fn copy(&self) -> Frame
        ensures { frame_seen result ≡ frame_seen self.now }
    {
        match self {
            Frame::Enq => Frame::Enq,
            Frame::Ack0 => Frame::Ack0,
            Frame::Ack1 => Frame::Ack1,
            Frame::Nak => Frame::Nak,
            Frame::Eot => Frame::Eot,
            Frame::Header(text) => Frame::header(text.as_slice()),
            Frame::Block { last, text } => Frame::block(*last, text.as_slice()),
            Frame::Damaged => Frame::Damaged,
            Frame::Bad => Frame::Bad,
        }
    }
}
