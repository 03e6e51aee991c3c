//! A scanner, which finds the frames in bytes that come one at a time.

ghost use Rattle.std.specs.Prelude.{◌≡◌, ◌≤◌, ◌++◌, ◌∷◌, [], length, take, IsSome, IsNone};
ghost use Rattle.dex_line.specs.FrameShapes.{answer_seen, shapes_seen};
ghost use Rattle.dex_line.specs.FrameSpelling.{Answers};
ghost use Rattle.dex_line.specs.Hearing.{hear_all, hearing};
ghost use Rattle.dex_line.specs.Judging.{judge};
ghost use Rattle.dex_line.specs.Scanning.{kept, quieted};

use super::begun::{Begun, Stage};
use super::ended::{answer, frame};
use super::frame::Frame;
use arrayvec::ArrayVec;
use block_check::Running;
use std::marker::Model;

/// Finds the frames in bytes that come one at a time. A contract sees it as the bytes since its last answer.
#[derive(Debug, Drop)]
pub struct Scanner {
    begun: Begun,
}

impl Model for Scanner {
    ghost use Rattle.std.specs.Prelude.{ℕ, List};
    ghost use Rattle.dex_line.specs.Scanning.{held, IsHeld};

    ghost Value = { List ℕ };

    ghost view = { λ scanner. held scanner.begun };

    ghost invariant = { λ scanner. IsHeld scanner.begun };
}

impl Scanner {
    /// A scanner that has heard nothing.
    pub fn new() -> Scanner
        ensures { result ≡ [] }
    {
        Scanner {
            begun: Begun {
                stage: Stage::Idle,
                text: ArrayVec::new(),
                check: Running::new(),
            },
        }
    }

    /// Hears one byte. There is no answer while the bytes since the last one are a proper front of a spelling.
    ///
    /// The byte with which they are none, and spell no frame, goes with them in one `Bad`.
    pub fn push(&mut self, byte: u8) -> Option<Frame>
        // What the answer means: the frame that the bytes spell, Bad where they spell and begin none, or nothing yet.
        ensures meaning { Answers (self.old ++ byte ∷ []) (answer_seen result) }
        // The same as a decision, for callers that compute.
        ensures answer { answer_seen result ≡ judge (self.old ++ byte ∷ []) }
        ensures left { self.new ≡ kept result (self.old ++ byte ∷ []) }
    {
        self.take(byte)
    }

    fn take(&mut self, byte: u8) -> Option<Frame>
        ensures answer { answer_seen result ≡ judge (self.old ++ byte ∷ []) }
        ensures left { self.new ≡ kept result (self.old ++ byte ∷ []) }
    {
        let ended = self.begun.hear_byte(byte);
        answer(ended, self.begun.text.as_slice())
    }

    /// Hears bytes up to the first answer, as one `push` after another would. Tells how many it has taken, and the answer.
    #[inline(always)]
    pub fn hear(&mut self, bytes: &[u8]) -> (usize, Option<Frame>)
        ensures inside { result.0 ≤ length bytes.now }
        ensures heard { hear_all (hearing self.old []) (take result.0 bytes.now)
            ≡ hearing self.new (shapes_seen result.1) }
        // All are taken where there is no answer, and nothing has begun behind one.
        ensures all { IsNone result.1 → result.0 ≡ length bytes.now }
        ensures left { IsSome result.1 → self.new ≡ [] }
    {
        let (taken, ended) = self.begun.hear(bytes);
        match ended {
            None => (taken, None),
            Some(ended) => (taken, Some(frame(ended, self.begun.text.as_slice()))),
        }
    }

    /// Hears a silence. What has begun is dropped, and is `Bad`.
    pub fn quiet(&mut self) -> Option<Frame>
        ensures answer { answer_seen result ≡ quieted self.old }
        ensures left { self.new ≡ [] }
    {
        let ended = self.begun.drop_all();
        answer(ended, self.begun.text.as_slice())
    }
}
