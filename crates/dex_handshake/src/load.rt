//! What an own turn sends, a frame after another: its trait, and the load of a handshake.

ghost use Rattle.std.specs.Prelude.{◌≡◌, ◌+◌, ◌≢◌, ℕ, List, [], false};
ghost use Rattle.dex_line.specs.FrameShapes.{answer_seen, FrameShape, Header as HeaderFrame};
ghost use Rattle.dex_handshake.specs.StateSeen.{behind_first, once as sent_once, present_frame};

use arrayvec::ArrayVec;
use dex_line::{Frame, HEADER_BYTES};
use std::marker::Model;

/// Frames that are sent one after another.
pub trait Load {
    /// The frames from the present one on.
    ghost left: { Self → List FrameShape };

    /// How many frames came before it.
    ghost done: { Self → ℕ };

    /// The present frame.
    fn frame(&self) -> Option<Frame>
        ensures { answer_seen result ≡ present_frame (left self.now) };

    /// The number of the present frame, from 1.
    fn number(&self) -> u32
        ensures { result ≡ done self.now + 1 };

    /// The load behind the present frame.
    fn pass(self) -> Self
        requires { left self ≢ [] }
        ensures left { left result ≡ behind_first (left self) }
        ensures done { done result ≡ done self + 1 };
}

/// A header, which is sent once.
#[derive(Debug, Drop)]
pub struct HeaderLoad {
    text: ArrayVec<u8, HEADER_BYTES>,
    passed: bool,
}

impl Model for HeaderLoad {
    ghost use Rattle.dex_line.specs.FrameShapes.{Header};
    ghost use Rattle.dex_handshake.specs.StateSeen.{once, LoadSeen};

    ghost Value = { LoadSeen };

    ghost view = { λ h. once (Header h.text.items) h.passed };
}

impl HeaderLoad {
    pub(crate) fn new(text: ArrayVec<u8, HEADER_BYTES>) -> HeaderLoad
        ensures { result ≡ sent_once (HeaderFrame text.items) false }
    {
        HeaderLoad {
            text,
            passed: false,
        }
    }
}

impl Load for HeaderLoad {
    ghost left = { λ h. h.left };

    ghost done = { λ h. h.done };

    fn frame(&self) -> Option<Frame> {
        if self.passed {
            return None;
        }
        Some(Frame::header(self.text.as_slice()))
    }

    fn number(&self) -> u32 {
        if self.passed { 2 } else { 1 }
    }

    fn pass(self) -> HeaderLoad {
        HeaderLoad {
            passed: true,
            ..self
        }
    }
}
