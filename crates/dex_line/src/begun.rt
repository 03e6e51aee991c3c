//! The bytes since the last answer, taken apart as they come.

ghost use Rattle.std.specs.Prelude.{◌≡◌, ◌≤◌, ◌-◌, ◌∷◌, ◌++◌, [], length, take, drop, IsSome, IsNone};
ghost use Rattle.dex_line.specs.Bytes.{dle};
ghost use Rattle.dex_line.specs.FrameSpelling.{IsBegun};
ghost use Rattle.dex_line.specs.Hearing.{hear_all, hearing};
ghost use Rattle.dex_line.specs.Judging.{judge};
ghost use Rattle.dex_line.specs.Scanning.{begun, begun_with, ending_seen, endings_seen, held, held_with, judged_at, judged_with, kept, quieted, HasEnded, IsHeld, IsSound};

use super::bytes::{DLE, ENQ, EOT, NAK, SOH, STX, is_text_byte, text_run};
use super::ended::Ended;
use super::frame::{BLOCK_READ, Opened};
use arrayvec::ArrayVec;
use block_check::Running;

/// What the bytes since the last answer are.
#[derive(Debug, Clone, Copy)]
pub(crate) enum Stage {
    /// There are none.
    Idle,
    /// A DLE.
    Marked,
    /// A header or block up to some place of its text.
    Text(Opened),
    /// The same with the DLE behind its text.
    Closing(Opened),
    /// The same with its closing byte.
    Check(Opened, u8),
    /// The same with the closing byte and the low byte of the check.
    Low(Opened, u8, u8),
}

/// The bytes since the last answer: their stage, the text in them, and the check of what it covers.
#[derive(Debug, Drop)]
pub(crate) struct Begun {
    pub(crate) stage: Stage,
    pub(crate) text: ArrayVec<u8, BLOCK_READ>,
    pub(crate) check: Running,
}

impl Begun {
    /// Hears bytes up to the first that ends a frame or makes it bad. Tells how many it has taken, and what has ended.
    pub(crate) fn hear(&mut self, bytes: &[u8]) -> (usize, Option<Ended>)
        requires { IsHeld self.old }
        ensures inside { result.0 ≤ length bytes.now }
        ensures heard { hear_all (hearing (held self.old) []) (take result.0 bytes.now)
            ≡ hearing (held self.new) (endings_seen result.1 self.new.text.items) }
        ensures all { IsNone result.1 → result.0 ≡ length bytes.now }
        ensures left { IsSome result.1 → held self.new ≡ [] }
        ensures sound { IsHeld self.new }
        ensures text { HasEnded result.1 self.new.text.items }
    {
        let mut place = 0;
        loop {
            place = self.pass_text(bytes, place);
            if place == bytes.len() {
                return (place, None);
            }
            let ended = self.hear_byte(bytes[place]);
            place += 1;
            if ended.is_some() {
                return (place, ended);
            }
        }
    }

    /// Hears one byte, and tells what has ended with it.
    #[tactic(auto, using(crate::proofs::Judged::judged, crate::proofs::Judged::grown))]
    pub(crate) fn hear_byte(&mut self, byte: u8) -> Option<Ended>
        requires { IsHeld self.old }
        ensures answer { ending_seen result self.new.text.items ≡ judge (held self.old ++ byte ∷ []) }
        ensures left { held self.new ≡ kept result (held self.old ++ byte ∷ []) }
        ensures sound { IsHeld self.new }
        ensures text { HasEnded result self.new.text.items }
    {
        self.push(byte)
    }

    /// Takes at once the bytes from this place on that go on a text. Tells the place behind them.
    fn pass_text(&mut self, bytes: &[u8], place: usize) -> usize
        requires sound { IsHeld self.old }
        requires place { place ≤ length bytes.now }
        ensures onward { place ≤ result }
        ensures inside { result ≤ length bytes.now }
        ensures left { held self.new ≡ held self.old ++ take (result - place) (drop place bytes.now) }
        ensures begun { IsBegun (held self.new) }
        ensures sound { IsHeld self.new }
    {
        place + self.take_text(&bytes[place..])
    }

    /// Drops what has begun. Tells whether anything had.
    pub(crate) fn drop_all(&mut self) -> Option<Ended>
        ensures answer { ending_seen result self.new.text.items ≡ quieted (held self.old) }
        ensures left { held self.new ≡ [] }
        ensures sound { IsHeld self.new }
        ensures text { HasEnded result self.new.text.items }
    {
        match self.stage {
            Stage::Idle => None,
            _ => self.give(Ended::Bad),
        }
    }

    /// Takes the next byte, by the stage.
    fn push(&mut self, byte: u8) -> Option<Ended>
        requires { IsHeld self.old }
        ensures answer { ending_seen result self.new.text.items ≡ judged_with self.old byte }
        ensures left { held self.new ≡ kept result (held_with self.old byte) }
        ensures sound { IsHeld self.new }
        ensures text { HasEnded result self.new.text.items }
    {
        match self.stage {
            Stage::Idle => self.start(byte),
            Stage::Marked => self.mark(byte),
            Stage::Text(opened) => self.take(opened, byte),
            Stage::Closing(opened) => self.close(opened, byte),
            Stage::Check(opened, closing) => self.take_low(opened, closing, byte),
            Stage::Low(opened, closing, low) => self.take_high(opened, closing, low, byte),
        }
    }

    /// Takes at once the bytes that go on a text, and tells how many they are.
    #[tactic(auto, using(crate::proofs::Judged::grown_none))]
    fn take_text(&mut self, bytes: &[u8]) -> usize
        requires { IsHeld self.old }
        ensures inside { result ≤ length bytes.now }
        ensures left { held self.new ≡ held self.old ++ take result bytes.now }
        ensures sound { IsHeld self.new }
    {
        match self.stage {
            Stage::Text(opened) => self.take_run(opened, bytes),
            _ => 0,
        }
    }

    /// The same behind what has opened the text.
    #[tactic(auto, using(crate::proofs::Judged::text_goes_on))]
    fn take_run(&mut self, opened: Opened, bytes: &[u8]) -> usize
        requires stage { self.old.stage ≡ Stage.Text opened }
        requires sound { IsSound (Stage.Text opened) self.old.text.items self.old.check }
        ensures inside { result ≤ length bytes.now }
        ensures stage { self.new.stage ≡ Stage.Text opened }
        ensures text { self.new.text.items ≡ self.old.text.items ++ take result bytes.now }
        ensures sound { IsSound (Stage.Text opened) self.new.text.items self.new.check }
    {
        let run = text_run(bytes, opened.limit() - self.text.len());
        let _ = self.text.try_extend_from_slice(run);
        self.check.take_all(run);
        run.len()
    }

    /// The first byte of a frame.
    fn start(&mut self, byte: u8) -> Option<Ended>
        ensures answer { ending_seen result self.new.text.items ≡ judged_at Stage.Idle [] byte }
        ensures left { held self.new ≡ kept result (byte ∷ []) }
        ensures sound { IsHeld self.new }
        ensures text { HasEnded result self.new.text.items }
    {
        match byte {
            DLE => self.go(Stage::Marked),
            ENQ => self.give(Ended::Enq),
            NAK => self.give(Ended::Nak),
            EOT => self.give(Ended::Eot),
            _ => self.give(Ended::Bad),
        }
    }

    /// The byte behind a first DLE.
    fn mark(&mut self, byte: u8) -> Option<Ended>
        ensures answer { ending_seen result self.new.text.items ≡ judged_at Stage.Marked [] byte }
        ensures left { held self.new ≡ kept result (dle ∷ byte ∷ []) }
        ensures sound { IsHeld self.new }
        ensures text { HasEnded result self.new.text.items }
    {
        match byte {
            b'0' => self.give(Ended::Ack0),
            b'1' => self.give(Ended::Ack1),
            SOH => self.open(Opened::Header),
            STX => self.open(Opened::Block),
            _ => self.give(Ended::Bad),
        }
    }

    /// A byte of a text, or the DLE behind it.
    #[tactic(auto, using(crate::proofs::Judged::text_grows, crate::proofs::Judged::text_whole, crate::proofs::Judged::not_text))]
    fn take(&mut self, opened: Opened, byte: u8) -> Option<Ended>
        requires { IsSound (Stage.Text opened) self.old.text.items self.old.check }
        ensures answer { ending_seen result self.new.text.items ≡ judged_at (Stage.Text opened) self.old.text.items byte }
        ensures left { held self.new ≡ kept result (begun_with (Stage.Text opened) self.old.text.items byte) }
        ensures sound { IsHeld self.new }
        ensures text { HasEnded result self.new.text.items }
    {
        if is_text_byte(byte) {
            if self.text.len() < opened.limit() {
                self.text.push(byte);
                self.check.take(byte);
                return self.go(Stage::Text(opened));
            }
        } else if byte == DLE && !self.text.is_empty() {
            return self.go(Stage::Closing(opened));
        }
        self.give(Ended::Bad)
    }

    /// The byte that closes a header or block.
    #[tactic(auto, using(crate::proofs::Judged::closes))]
    fn close(&mut self, opened: Opened, byte: u8) -> Option<Ended>
        requires { IsSound (Stage.Closing opened) self.old.text.items self.old.check }
        ensures answer { ending_seen result self.new.text.items ≡ judged_at (Stage.Closing opened) self.old.text.items byte }
        ensures left { held self.new ≡ kept result (begun_with (Stage.Closing opened) self.old.text.items byte) }
        ensures sound { IsHeld self.new }
        ensures text { HasEnded result self.new.text.items }
    {
        if opened.is_closed_by(byte) {
            self.check.take(byte);
            return self.go(Stage::Check(opened, byte));
        }
        self.give(Ended::Bad)
    }

    /// The low byte of a check.
    fn take_low(&mut self, opened: Opened, closing: u8, byte: u8) -> Option<Ended>
        requires { IsSound (Stage.Check opened closing) self.old.text.items self.old.check }
        ensures answer { ending_seen result self.new.text.items ≡ judged_at (Stage.Check opened closing) self.old.text.items byte }
        ensures left { held self.new ≡ kept result (begun_with (Stage.Check opened closing) self.old.text.items byte) }
        ensures sound { IsHeld self.new }
        ensures text { HasEnded result self.new.text.items }
    {
        self.go(Stage::Low(opened, closing, byte))
    }

    /// The high byte of a check, which ends the frame.
    fn take_high(&mut self, opened: Opened, closing: u8, low: u8, byte: u8) -> Option<Ended>
        requires { IsSound (Stage.Low opened closing low) self.old.text.items self.old.check }
        ensures answer { ending_seen result self.new.text.items ≡ judged_at (Stage.Low opened closing low) self.old.text.items byte }
        ensures left { held self.new ≡ kept result (begun_with (Stage.Low opened closing low) self.old.text.items byte) }
        ensures sound { IsHeld self.new }
        ensures text { HasEnded result self.new.text.items }
    {
        let check = self.check.value();
        if low == (check & 0xFF) as u8 && byte == (check >> 8) as u8 {
            return self.give(Ended::Closed(opened, closing));
        }
        self.give(Ended::Damaged)
    }

    /// Opens a header or block.
    fn open(&mut self, opened: Opened) -> Option<Ended>
        ensures answer { ending_seen result self.new.text.items ≡ None }
        ensures left { held self.new ≡ begun (Stage.Text opened) [] }
        ensures sound { IsHeld self.new }
        ensures text { HasEnded result self.new.text.items }
    {
        self.text.clear();
        self.check = Running::new();
        self.go(Stage::Text(opened))
    }

    /// Goes on without an answer.
    fn go(&mut self, stage: Stage) -> Option<Ended>
        ensures answer { result ≡ None }
        ensures new { self.new ≡ record self.old { stage = stage } }
    {
        self.stage = stage;
        None
    }

    /// Answers, and begins anew.
    fn give(&mut self, ended: Ended) -> Option<Ended>
        ensures answer { result ≡ Some ended }
        ensures new { self.new ≡ record self.old { stage = Stage.Idle } }
    {
        self.stage = Stage::Idle;
        Some(ended)
    }
}
