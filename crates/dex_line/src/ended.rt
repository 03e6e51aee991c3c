//! What the bytes since the last answer have ended as, apart from the text that is kept of them.

ghost use Rattle.std.specs.Prelude.{◌≡◌, List, ℕ};
ghost use Rattle.dex_line.specs.FrameShapes.{answer_seen, frame_seen, shapes_seen};
ghost use Rattle.dex_line.specs.FrameSpelling.{IsTextOf};
ghost use Rattle.dex_line.specs.Judging.{closed};
ghost use Rattle.dex_line.specs.Scanning.{ended_seen, ending_seen, endings_seen, kept, HasEnded, HasText};

use super::bytes::ETX;
use super::frame::{Frame, Opened};

/// A frame without its text, which a scanner tells at each byte. A frame itself is too large for that.
#[derive(Debug, Clone, Copy)]
pub(crate) enum Ended {
    Enq,
    Ack0,
    Ack1,
    Nak,
    Eot,
    /// A header or block with its closing byte, whose check was the right one.
    Closed(Opened, u8),
    /// A header or block whose check is another one.
    Damaged,
    /// What is no frame.
    Bad,
}

/// The answer to what has ended, with this text.
pub(crate) fn answer(ended: Option<Ended>, text: &[u8]) -> Option<Frame>
    requires { HasEnded ended text.now }
    ensures answer { answer_seen result ≡ ending_seen ended text.now }
    ensures shapes { shapes_seen result ≡ endings_seen ended text.now }
    ensures left { (bytes : List ℕ) → kept result bytes ≡ kept ended bytes }
{
    match ended {
        None => None,
        Some(ended) => Some(frame(ended, text)),
    }
}

/// The frame, with this text.
pub(crate) fn frame(ended: Ended, text: &[u8]) -> Frame
    requires { HasText ended text.now }
    ensures { frame_seen result ≡ ended_seen ended text.now }
{
    match ended {
        Ended::Enq => Frame::Enq,
        Ended::Ack0 => Frame::Ack0,
        Ended::Ack1 => Frame::Ack1,
        Ended::Nak => Frame::Nak,
        Ended::Eot => Frame::Eot,
        Ended::Closed(opened, closing) => whole(opened, closing, text),
        Ended::Damaged => Frame::Damaged,
        Ended::Bad => Frame::Bad,
    }
}

/// A header or block whose check was the right one.
fn whole(opened: Opened, closing: u8, text: &[u8]) -> Frame
    requires { IsTextOf opened text.now }
    ensures { frame_seen result ≡ closed opened text.now closing }
{
    match opened {
        Opened::Header => Frame::header(text),
        Opened::Block => Frame::block(closing == ETX, text),
    }
}
