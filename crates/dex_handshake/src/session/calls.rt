//! What a session does at each thing heard.

ghost use Rattle.std.specs.Prelude.{◌≡◌, Some, None, IfOk, IsSome, MatchOption};
ghost use Rattle.dex_line.specs.FrameShapes.{frame_seen};
ghost use Rattle.dex_handshake.specs.LineRun.{end_of};
ghost use Rattle.dex_handshake.specs.LineTable.{gives, hears, quiets, started, turn_of, unplugs};
ghost use Rattle.dex_handshake.specs.SessionSeen.{session_seen, step_seen};
ghost use Rattle.dex_handshake.specs.StateSeen.{load_seen};

use super::super::common::Common;
use super::super::header::first_header;
use super::super::session_end::SessionEnd;
use super::super::stage::FirstHand;
use super::super::states::{Ready, Turn};
use super::{Session, Step};
use dex_line::Frame;
use dsd_values::{CommId, Memory, Role};
use dxs_envelope::Outgoing;
use std::alloc::Global;

impl Session {
    /// A session that begins: the supplier bids, and the receiver waits. It reserves the room of a text.
    pub fn start(alloc: Global, role: Role, own: CommId, peer: CommId) -> Result<Step, Memory>
        ensures { IfOk result (λ step. step_seen step ≡ started role own peer) }
    {
        let common = Common::new(alloc, role, own, peer)?;
        match role {
            Role::Supplier => Ok(Step::says(
                Frame::Enq,
                FirstHand::bidding(common, first_header(own)),
            )),
            Role::Receiver => Ok(Step::nothing(Session::FirstReady(Ready::new(common)))),
        }
    }

    /// A frame is heard.
    pub fn heard(self, frame: Frame) -> Step
        ensures { step_seen result ≡ hears (session_seen self) (frame_seen frame) }
    {
        match self {
            Session::FirstReady(state) => state.heard(frame),
            Session::FirstBidding(state) => state.heard(frame),
            Session::FirstAwaiting(state) => state.heard(frame),
            Session::FirstSentAll(state) => state.heard(frame),
            Session::FirstInText(state) => state.heard(frame),
            Session::SecondBidding(state) => state.heard(frame),
            Session::SecondAwaiting(state) => state.heard(frame),
            Session::SecondSentAll(state) => state.heard(frame),
            Session::SecondInText(state) => state.heard(frame),
            Session::TextsBidding(state) => state.heard(frame),
            Session::TextsAwaiting(state) => state.heard(frame),
            Session::TextsSentAll(state) => state.heard(frame),
            Session::TextsInText(state) => state.heard(frame),
            Session::TextsFinished(state) => state.heard(frame),
            Session::Ended(end) => Step::ends(end),
        }
    }

    /// A Quiet is heard.
    pub fn quiet(self) -> Step
        ensures { step_seen result ≡ quiets (session_seen self) }
    {
        match self {
            Session::FirstReady(state) => state.quiet(),
            Session::FirstBidding(state) => state.quiet(),
            Session::FirstAwaiting(state) => state.quiet(),
            Session::FirstSentAll(state) => state.quiet(),
            Session::FirstInText(state) => state.quiet(),
            Session::SecondBidding(state) => state.quiet(),
            Session::SecondAwaiting(state) => state.quiet(),
            Session::SecondSentAll(state) => state.quiet(),
            Session::SecondInText(state) => state.quiet(),
            Session::TextsBidding(state) => state.quiet(),
            Session::TextsAwaiting(state) => state.quiet(),
            Session::TextsSentAll(state) => state.quiet(),
            Session::TextsInText(state) => state.quiet(),
            Session::TextsFinished(state) => state.quiet(),
            Session::Ended(end) => Step::ends(end),
        }
    }

    /// The text heard, where the own turn must be given; it is empty where no whole text was heard.
    pub fn turn(&self) -> Option<&[u8]>
        ensures { MatchOption result (turn_of (session_seen self.now) ≡ None) (λ text. turn_of (session_seen self.now) ≡ Some text.now) }
    {
        match self {
            Session::TextsFinished(state) => Some(state.text()),
            Session::FirstReady(_)
            | Session::FirstBidding(_)
            | Session::FirstAwaiting(_)
            | Session::FirstSentAll(_)
            | Session::FirstInText(_)
            | Session::SecondBidding(_)
            | Session::SecondAwaiting(_)
            | Session::SecondSentAll(_)
            | Session::SecondInText(_)
            | Session::TextsBidding(_)
            | Session::TextsAwaiting(_)
            | Session::TextsSentAll(_)
            | Session::TextsInText(_)
            | Session::Ended(_) => None,
        }
    }

    /// The own turn is this text, or has none.
    pub fn give(self, load: Option<Outgoing>) -> Step
        requires { IsSome (turn_of (session_seen self)) }
        ensures { step_seen result ≡ gives (session_seen self) (load_seen load) }
    {
        match self {
            Session::TextsFinished(state) => state.give(load),
            _ => unreachable!(),
        }
    }

    /// The cable is unplugged.
    #[tactic(auto, using(crate::proofs::Loads::over_stays, crate::proofs::Loads::unplugged_ends))]
    pub fn unplugged(self) -> Session
        ensures { session_seen result ≡ unplugs (session_seen self) }
    {
        match self.ended() {
            Some(_) => self,
            None => Session::Ended(SessionEnd::Unplugged),
        }
    }

    /// How the session has ended, where it has.
    pub fn ended(&self) -> Option<SessionEnd>
        ensures { result ≡ end_of (session_seen self.now) }
    {
        match self {
            Session::Ended(end) => Some(*end),
            Session::FirstReady(_)
            | Session::FirstBidding(_)
            | Session::FirstAwaiting(_)
            | Session::FirstSentAll(_)
            | Session::FirstInText(_)
            | Session::SecondBidding(_)
            | Session::SecondAwaiting(_)
            | Session::SecondSentAll(_)
            | Session::SecondInText(_)
            | Session::TextsBidding(_)
            | Session::TextsAwaiting(_)
            | Session::TextsSentAll(_)
            | Session::TextsInText(_)
            | Session::TextsFinished(_) => None,
        }
    }
}
