//! What a state does by its stage.

ghost use Rattle.std.specs.Prelude.{◌≡◌, ◌≢◌, []};
ghost use Rattle.dex_handshake.specs.LineTable.{hears_block, hears_eot, last_reply, next_stage, nothing_taken, read_header, says, says_eot, takes_header, Bidding as BiddingLine, Awaiting as AwaitingLine, SentAll as SentAllLine, InText as InTextLine};
ghost use Rattle.dex_handshake.specs.SessionSeen.{session_seen, step_seen};
ghost use Rattle.dex_handshake.specs.StateSeen.{at_stage as stage_seen, sending_seen};

use super::super::common::Common;
use super::super::header::{read_first_header, read_second_header};
use super::super::load::{HeaderLoad, Load};
use super::super::session::{Session, Step};
use super::super::session_end::SessionEnd;
use super::super::stage::{FirstHand, SecondHand, Stage, Texts};
use super::super::taking::{HeaderTaking, TextTaking, reply_to};
use super::super::text_load::TextLoad;
use super::headers::{bid_second, end_second, header_reply, take_header};
use super::texts::{end_text, take_block};
use super::{Awaiting, Bidding, InText, SentAll};
use dex_line::Frame;

/// A stage whose states are states of a session.
pub trait Turn: Stage {
    fn bidding(common: Common, load: Self::Load) -> Session
        requires { Self.Load.done load ≡ 0 }
        ensures { session_seen result ≡ BiddingLine (stage_seen Self.stage common) (Self.Load.left load) };

    fn awaiting(common: Common, load: Self::Load, tries: u32, asked: bool) -> Session
        requires { Self.Load.left load ≢ [] }
        ensures { session_seen result ≡ AwaitingLine (stage_seen Self.stage common) (sending_seen (Self.Load.left load) (Self.Load.done load) tries asked) };

    fn sent_all(common: Common) -> Session
        ensures { session_seen result ≡ SentAllLine (stage_seen Self.stage common) };

    fn in_text(common: Common, taking: Self::Taking) -> Session
        ensures { session_seen result ≡ InTextLine (stage_seen Self.stage common) (Self.taking taking common.room) };

    /// The turn of the other end behind an own turn of this stage.
    fn next_turn(common: Common) -> Session
        ensures { session_seen result ≡ InTextLine (record (stage_seen Self.stage common) { stage = next_stage Self.stage }) nothing_taken };

    /// The Eot of an own turn is said.
    fn say_eot(common: Common, none: bool) -> Step
        ensures { step_seen result ≡ says_eot Self.stage (stage_seen Self.stage common) none };

    /// The last reply once more.
    fn reply_again(common: Common, taking: Self::Taking) -> Step
        ensures { step_seen result ≡ says (last_reply (Self.taking taking common.room)) (InTextLine (stage_seen Self.stage common) (Self.taking taking common.room)) };

    /// A header is heard.
    fn hear_header(common: Common, taking: Self::Taking, text: &[u8]) -> Step
        ensures { step_seen result ≡ takes_header (stage_seen Self.stage common) (Self.taking taking common.room) (read_header Self.stage text.now) common.seen.partner };

    /// A block is heard.
    fn hear_block(common: Common, taking: Self::Taking, last: bool, text: &[u8]) -> Step
        ensures { step_seen result ≡ hears_block Self.stage (stage_seen Self.stage common) (Self.taking taking common.room) last text.now };

    /// The Eot is heard.
    fn hear_eot(common: Common, taking: Self::Taking) -> Step
        ensures { step_seen result ≡ hears_eot Self.stage (stage_seen Self.stage common) (Self.taking taking common.room) };
}

impl Turn for FirstHand {
    fn bidding(common: Common, load: HeaderLoad) -> Session {
        Session::FirstBidding(Bidding { common, load })
    }

    fn awaiting(common: Common, load: HeaderLoad, tries: u32, asked: bool) -> Session {
        Session::FirstAwaiting(Awaiting {
            common,
            load,
            tries,
            asked,
        })
    }

    fn sent_all(common: Common) -> Session {
        Session::FirstSentAll(SentAll::new(common))
    }

    fn in_text(common: Common, taking: HeaderTaking) -> Session {
        Session::FirstInText(InText { common, taking })
    }

    fn next_turn(common: Common) -> Session {
        SecondHand::in_text(common, HeaderTaking { heard: false })
    }

    fn say_eot(common: Common, _none: bool) -> Step {
        Step::says(Frame::Eot, FirstHand::sent_all(common))
    }

    fn reply_again(common: Common, taking: HeaderTaking) -> Step {
        Step::says(header_reply(taking), FirstHand::in_text(common, taking))
    }

    fn hear_header(common: Common, taking: HeaderTaking, text: &[u8]) -> Step {
        let said = read_first_header(text);
        let (common, taking, say) = take_header::<FirstHand>(common, taking, said);
        Step {
            next: FirstHand::in_text(common, taking),
            say,
        }
    }

    fn hear_block(common: Common, taking: HeaderTaking, _last: bool, _text: &[u8]) -> Step {
        Step::nothing(FirstHand::in_text(common, taking))
    }

    fn hear_eot(common: Common, taking: HeaderTaking) -> Step {
        match common.partner() {
            None => Step::nothing(FirstHand::in_text(common, taking)),
            Some(partner) => bid_second(common, partner),
        }
    }
}

impl Turn for SecondHand {
    fn bidding(common: Common, load: HeaderLoad) -> Session {
        Session::SecondBidding(Bidding { common, load })
    }

    fn awaiting(common: Common, load: HeaderLoad, tries: u32, asked: bool) -> Session {
        Session::SecondAwaiting(Awaiting {
            common,
            load,
            tries,
            asked,
        })
    }

    fn sent_all(common: Common) -> Session {
        Session::SecondSentAll(SentAll::new(common))
    }

    fn in_text(common: Common, taking: HeaderTaking) -> Session {
        Session::SecondInText(InText { common, taking })
    }

    fn next_turn(common: Common) -> Session {
        Texts::in_text(common, TextTaking::nothing())
    }

    fn say_eot(common: Common, _none: bool) -> Step {
        match common.partner() {
            Some(partner) if partner.id != common.peer() => Step::says(
                Frame::Eot,
                Session::Ended(SessionEnd::WrongPartner(partner.id)),
            ),
            _ => Step::says(Frame::Eot, SecondHand::sent_all(common.without_partner())),
        }
    }

    fn reply_again(common: Common, taking: HeaderTaking) -> Step {
        Step::says(header_reply(taking), SecondHand::in_text(common, taking))
    }

    fn hear_header(common: Common, taking: HeaderTaking, text: &[u8]) -> Step {
        let said = read_second_header(text);
        let (common, taking, say) = take_header::<SecondHand>(common, taking, said);
        Step {
            next: SecondHand::in_text(common, taking),
            say,
        }
    }

    fn hear_block(common: Common, taking: HeaderTaking, _last: bool, _text: &[u8]) -> Step {
        Step::nothing(SecondHand::in_text(common, taking))
    }

    fn hear_eot(common: Common, taking: HeaderTaking) -> Step {
        match common.partner() {
            None => Step::nothing(SecondHand::in_text(common, taking)),
            Some(partner) => end_second(common, partner),
        }
    }
}

impl Turn for Texts {
    fn bidding(common: Common, load: TextLoad) -> Session {
        Session::TextsBidding(Bidding { common, load })
    }

    fn awaiting(common: Common, load: TextLoad, tries: u32, asked: bool) -> Session {
        Session::TextsAwaiting(Awaiting {
            common,
            load,
            tries,
            asked,
        })
    }

    fn sent_all(common: Common) -> Session {
        Session::TextsSentAll(SentAll::new(common))
    }

    fn in_text(common: Common, taking: TextTaking) -> Session {
        Session::TextsInText(InText { common, taking })
    }

    fn next_turn(common: Common) -> Session {
        Texts::in_text(common, TextTaking::nothing())
    }

    fn say_eot(common: Common, none: bool) -> Step {
        if none && common.was_empty() {
            return Step::says(Frame::Eot, Session::Ended(SessionEnd::Complete));
        }
        Step::says(Frame::Eot, Texts::sent_all(common.with_empty(none)))
    }

    fn reply_again(common: Common, taking: TextTaking) -> Step {
        let reply = reply_to(taking.taken());
        Step::says(reply, Texts::in_text(common, taking))
    }

    fn hear_header(common: Common, taking: TextTaking, _text: &[u8]) -> Step {
        Step::nothing(Texts::in_text(common, taking))
    }

    fn hear_block(common: Common, taking: TextTaking, last: bool, text: &[u8]) -> Step {
        take_block(common, taking, last, text)
    }

    fn hear_eot(common: Common, taking: TextTaking) -> Step {
        end_text(common, taking)
    }
}
