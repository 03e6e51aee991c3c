//! The frames of captured bytes.

ghost use Rattle.std.specs.Prelude.{◌≡◌, ◌≤◌, ◌∷◌, [], length, drop, MatchOption};
ghost use Rattle.dex_line.specs.Captured.{frames_in, left_behind};
ghost use Rattle.dex_line.specs.FrameShapes.{captured_seen};

use super::first::first_frame;
use super::lent::Captured;
use std::marker::Model;

/// Reads captured bytes of one direction, frame by frame. A contract sees it as the frames that are still to come, each
/// with the place of its first byte.
///
/// The first frame that is damaged or bad is the last one, and a frame that has begun at the end of the bytes is bad.
#[derive(Debug, Drop)]
pub struct Frames<'a> {
    rest: &'a [u8],
    place: usize,
}

impl<'a> Model for Frames<'a> {
    ghost use Rattle.std.specs.Prelude.{ℕ, ◌+◌, ◌^◌, ◌<◌, List, length};
    ghost use Rattle.dex_line.specs.Captured.{frames_from};
    ghost use Rattle.dex_line.specs.FrameShapes.{FrameShape};

    ghost Value = { List (ℕ × FrameShape) };

    ghost view = { λ frames. frames_from frames.place frames.rest.now };

    ghost invariant = { λ frames. frames.place + length frames.rest.now < 2 ^ 64 };
}

impl<'a> Frames<'a> {
    /// The frames of these bytes.
    pub fn new(bytes: &'a [u8]) -> Frames<'a>
        ensures { result ≡ frames_in bytes.now }
    {
        Frames {
            rest: bytes,
            place: 0,
        }
    }

    /// The next frame, with the place of its first byte. Its text is lent out of the bytes.
    pub fn next(&mut self) -> Option<(usize, Captured<'a>)>
        ensures { MatchOption result ((self.old ≡ []) × (self.new ≡ []))
            (λ x. self.old ≡ (x.0, captured_seen x.1) ∷ self.new) }
    {
        let Some((frame, size)) = first_frame(self.rest) else {
            return None;
        };
        let place = self.place;
        self.rest = behind(frame, self.rest, size);
        self.place += size;
        Some((place, frame))
    }
}

/// What is to be read behind a frame of so many bytes: nothing where it is refused.
fn behind<'a>(frame: Captured<'_>, bytes: &'a [u8], size: usize) -> &'a [u8]
    requires { size ≤ length bytes.now }
    ensures { result.now ≡ left_behind (captured_seen frame.entry) (drop size bytes.now) }
{
    if frame.is_refused() {
        &[]
    } else {
        &bytes[size..]
    }
}
