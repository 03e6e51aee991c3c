//! Steps, as the state table has them.

ghost use Rattle.std.specs.Prelude.{◌≡◌};
ghost use Rattle.dex_line.specs.FrameShapes.{frame_seen};
ghost use Rattle.dex_handshake.specs.LineTable.{ends as ends_with, says as says_then, says_nothing};
ghost use Rattle.dex_handshake.specs.SessionSeen.{session_seen, step_seen};

use super::super::session_end::SessionEnd;
use super::{Session, Step};
use dex_line::Frame;

impl Step {
    /// It says a frame.
    pub(crate) fn says(frame: Frame, next: Session) -> Step
        ensures { step_seen result ≡ says_then (frame_seen frame) (session_seen next) }
    {
        Step {
            next,
            say: Some(frame),
        }
    }

    /// It says nothing.
    pub(crate) fn nothing(next: Session) -> Step
        ensures { step_seen result ≡ says_nothing (session_seen next) }
    {
        Step { next, say: None }
    }

    /// It ends without a word.
    pub(crate) fn ends(end: SessionEnd) -> Step
        ensures { step_seen result ≡ ends_with end }
    {
        Step::nothing(Session::Ended(end))
    }
}
