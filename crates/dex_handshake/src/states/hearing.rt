//! What a state says that waits for a turn of the other end or hears one, and the state behind it.

ghost use Rattle.std.specs.Prelude.{◌≡◌, Some};
ghost use Rattle.dex_line.specs.FrameShapes.{frame_seen};
ghost use Rattle.dex_handshake.specs.LineTable.{gives, hears, quiets, turn_of, Ready as ReadyLine, SentAll as SentAllLine};
ghost use Rattle.dex_handshake.specs.SessionSeen.{step_seen};
ghost use Rattle.dex_handshake.specs.StateSeen.{finished_line, in_text_line, load_seen};

use super::super::session::{Session, Step};
use super::super::session_end::SessionEnd;
use super::super::stage::{FirstHand, Texts};
use super::super::taking::HeaderTaking;
use super::super::text_load::TextLoad;
use super::{Finished, InText, Ready, SentAll, Turn};
use dex_line::Frame;
use dxs_envelope::Outgoing;

impl Ready<FirstHand> {
    /// A frame is heard.
    pub fn heard(self, frame: Frame) -> Step
        ensures { step_seen result ≡ hears (ReadyLine self) (frame_seen frame) }
    {
        let Ready { common, stage: _ } = self;
        let common = common.at_frame();
        match frame {
            Frame::Enq => Step::says(
                Frame::Ack0,
                FirstHand::in_text(common, HeaderTaking { heard: false }),
            ),
            _ => Step::nothing(Session::FirstReady(Ready::new(common))),
        }
    }

    /// A Quiet is heard.
    pub fn quiet(self) -> Step
        ensures { step_seen result ≡ quiets (ReadyLine self) }
    {
        let Ready { common, stage: _ } = self;
        let Some(common) = common.at_quiet() else {
            return Step::ends(SessionEnd::Silent);
        };
        Step::nothing(Session::FirstReady(Ready::new(common)))
    }
}

impl<S: Turn> SentAll<S> {
    /// A frame is heard.
    pub fn heard(self, frame: Frame) -> Step
        ensures { step_seen result ≡ hears (SentAllLine self) (frame_seen frame) }
    {
        let SentAll { common, stage: _ } = self;
        let common = common.at_frame();
        match frame {
            Frame::Enq => Step::says(Frame::Ack0, S::next_turn(common)),
            _ => Step::nothing(S::sent_all(common)),
        }
    }

    /// A Quiet is heard.
    pub fn quiet(self) -> Step
        ensures { step_seen result ≡ quiets (SentAllLine self) }
    {
        let SentAll { common, stage: _ } = self;
        let Some(common) = common.at_quiet() else {
            return Step::ends(SessionEnd::Silent);
        };
        if common.quiets() % 3 == 0 {
            return Step::says(Frame::Eot, S::sent_all(common));
        }
        Step::nothing(S::sent_all(common))
    }
}

impl<S: Turn> InText<S> {
    /// A frame is heard.
    pub fn heard(self, frame: Frame) -> Step
        ensures { step_seen result ≡ hears (in_text_line self) (frame_seen frame) }
    {
        let InText { common, taking } = self;
        let common = common.at_frame();
        match frame {
            Frame::Enq => S::reply_again(common, taking),
            Frame::Header(text) => S::hear_header(common, taking, text.as_slice()),
            Frame::Block { last, text } => S::hear_block(common, taking, last, text.as_slice()),
            Frame::Damaged => Step::says(Frame::Nak, S::in_text(common, taking)),
            Frame::Eot => S::hear_eot(common, taking),
            _ => Step::nothing(S::in_text(common, taking)),
        }
    }

    /// A Quiet is heard.
    pub fn quiet(self) -> Step
        ensures { step_seen result ≡ quiets (in_text_line self) }
    {
        let InText { common, taking } = self;
        let Some(common) = common.at_quiet() else {
            return Step::ends(SessionEnd::Silent);
        };
        Step::nothing(S::in_text(common, taking))
    }
}

impl Finished {
    /// A frame is heard, and ignored.
    pub fn heard(self, _frame: Frame) -> Step
        ensures { step_seen result ≡ hears (finished_line self) (frame_seen _frame) }
    {
        let Finished { common, size } = self;
        Step::nothing(Session::TextsFinished(Finished {
            common: common.at_frame(),
            size,
        }))
    }

    /// A Quiet is heard.
    pub fn quiet(self) -> Step
        ensures { step_seen result ≡ quiets (finished_line self) }
    {
        let Finished { common, size } = self;
        let Some(common) = common.at_quiet() else {
            return Step::ends(SessionEnd::Silent);
        };
        Step::nothing(Session::TextsFinished(Finished { common, size }))
    }

    /// The text that was heard.
    pub fn text(&self) -> &[u8]
        ensures { turn_of (finished_line self.now) ≡ Some result.now }
    {
        self.common.text(self.size)
    }

    /// Its own turn, with the blocks of this text or with none.
    pub fn give(self, load: Option<Outgoing>) -> Step
        ensures { step_seen result ≡ gives (finished_line self) (load_seen load) }
    {
        let Finished { common, size: _ } = self;
        Step::says(Frame::Enq, Texts::bidding(common, TextLoad::new(load)))
    }
}
