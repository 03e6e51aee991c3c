//! What a state says that has its own turn, at a frame that it hears and at a Quiet.

ghost use Rattle.std.specs.Prelude.{◌≡◌, ◌≢◌, []};
ghost use Rattle.dex_line.specs.FrameShapes.{frame_seen};
ghost use Rattle.dex_handshake.specs.LineTable.{again as again_step, hears, next_frame, quiets};
ghost use Rattle.dex_handshake.specs.SessionSeen.{step_seen};
ghost use Rattle.dex_handshake.specs.StateSeen.{at_stage as stage_seen, awaiting_line, bidding_line, sending_seen};

use super::super::common::Common;
use super::super::load::Load;
use super::super::session::Step;
use super::super::session_end::{MOST_TRIES, SessionEnd};
use super::{Awaiting, Bidding, Turn};
use dex_line::Frame;

/// The present frame of a load goes out, or the Eot where none is left.
#[tactic(auto, using(crate::proofs::Loads::next_some, crate::proofs::Loads::next_none))]
fn say_next<S: Turn>(common: Common, load: S::Load) -> Step
    ensures { step_seen result ≡ next_frame (stage_seen S.stage common) (S.Load.done load) (S.Load.left load) }
{
    match load.frame() {
        Some(frame) => Step::says(frame, S::awaiting(common, load, 1, false)),
        None => S::say_eot(common, load.number() == 1),
    }
}

/// It goes out once more, or ends the session where it was said too often.
#[tactic(auto, using(crate::proofs::Loads::first_is))]
fn say_again<S: Turn>(common: Common, load: S::Load, tries: u32, asked: bool) -> Step
    requires { S.Load.left load ≢ [] }
    ensures { step_seen result ≡ again_step (stage_seen S.stage common) (sending_seen (S.Load.left load) (S.Load.done load) tries asked) }
{
    if tries >= MOST_TRIES {
        return Step::ends(SessionEnd::TriesSpent(load.number()));
    }
    let Some(frame) = load.frame() else {
        unreachable!()
    };
    Step::says(frame, S::awaiting(common, load, tries + 1, false))
}

impl<S: Turn> Bidding<S> {
    /// A frame is heard.
    pub fn heard(self, frame: Frame) -> Step
        ensures { step_seen result ≡ hears (bidding_line self) (frame_seen frame) }
    {
        let Bidding { common, load } = self;
        let common = common.at_frame();
        match frame {
            Frame::Ack0 => say_next::<S>(common, load),
            Frame::Eot => Step::says(Frame::Enq, S::bidding(common, load)),
            _ => Step::nothing(S::bidding(common, load)),
        }
    }

    /// A Quiet is heard.
    pub fn quiet(self) -> Step
        ensures { step_seen result ≡ quiets (bidding_line self) }
    {
        let Bidding { common, load } = self;
        let Some(common) = common.at_quiet() else {
            return Step::ends(SessionEnd::Silent);
        };
        Step::says(Frame::Enq, S::bidding(common, load))
    }
}

impl<S: Turn> Awaiting<S> {
    /// A frame is heard.
    pub fn heard(self, frame: Frame) -> Step
        ensures { step_seen result ≡ hears (awaiting_line self) (frame_seen frame) }
    {
        let Awaiting {
            common,
            load,
            tries,
            asked,
        } = self;
        let common = common.at_frame();
        let odd = load.number() % 2 == 1;
        match frame {
            Frame::Ack0 if odd => say_again::<S>(common, load, tries, asked),
            Frame::Ack0 => say_next::<S>(common, load.pass()),
            Frame::Ack1 if odd => say_next::<S>(common, load.pass()),
            Frame::Ack1 => say_again::<S>(common, load, tries, asked),
            Frame::Nak if !asked => say_again::<S>(common, load, tries, asked),
            Frame::Nak => Step::says(Frame::Enq, S::awaiting(common, load, tries, asked)),
            _ => Step::nothing(S::awaiting(common, load, tries, asked)),
        }
    }

    /// A Quiet is heard.
    pub fn quiet(self) -> Step
        ensures { step_seen result ≡ quiets (awaiting_line self) }
    {
        let Awaiting {
            common,
            load,
            tries,
            asked: _,
        } = self;
        let Some(common) = common.at_quiet() else {
            return Step::ends(SessionEnd::Silent);
        };
        Step::says(Frame::Enq, S::awaiting(common, load, tries, true))
    }
}
