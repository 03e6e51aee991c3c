//! What is heard in the turn of a header.

ghost use Rattle.std.specs.Prelude.{◌≡◌, ◌∷◌, []};
ghost use Rattle.dex_line.specs.FrameShapes.{answer_seen, frame_seen};
ghost use Rattle.dex_handshake.specs.LineTable.{bids, last_reply, named_over, second_header as second_frame, takes_header, SecondStage, InText as InTextLine};
ghost use Rattle.dex_handshake.specs.SessionSeen.{step_seen};
ghost use Rattle.dex_handshake.specs.StateSeen.{at_stage as stage_seen, header_taking, partner_is, partner_seen};

use super::super::common::Common;
use super::super::header::{Partner, second_header};
use super::super::session::{Session, Step};
use super::super::session_end::SessionEnd;
use super::super::stage::{SecondHand, Stage};
use super::super::taking::{HeaderTaking, reply_to};
use super::{Finished, Turn};
use dex_line::Frame;

/// The last reply of a turn of a header.
pub(crate) fn header_reply(taking: HeaderTaking) -> Frame
    ensures { frame_seen result ≡ last_reply (header_taking taking.heard) }
{
    reply_to(u32::from(taking.heard))
}

/// A header that says so is heard, or one of another form. Tells what is then kept, and what is said.
pub(crate) fn take_header<S: Stage>(
    common: Common,
    taking: HeaderTaking,
    said: Option<Partner>,
) -> (Common, HeaderTaking, Option<Frame>)
    ensures { takes_header (stage_seen S.stage common) (header_taking taking.heard) (partner_seen said) common.seen.partner
        ≡ record { next = InTextLine (stage_seen S.stage result.0) (header_taking result.1.heard); say = answer_seen result.2 } }
{
    match (said, common.partner()) {
        (None, _) => (common, taking, None),
        (Some(partner), None) => (
            common.with_partner(partner),
            HeaderTaking { heard: true },
            Some(Frame::Ack1),
        ),
        (Some(_), Some(_)) => (common, taking, Some(header_reply(taking))),
    }
}

/// The receiver bids its header.
pub(crate) fn bid_second(common: Common, partner: Partner) -> Step
    ensures { step_seen result ≡ bids (stage_seen SecondStage common) (second_frame (stage_seen SecondStage common) (partner_is partner) ∷ []) }
{
    let load = second_header(partner.id == common.peer(), common.own());
    Step::says(Frame::Enq, SecondHand::bidding(common, load))
}

/// The Eot behind the second header is heard.
pub(crate) fn end_second(common: Common, partner: Partner) -> Step
    ensures { step_seen result ≡ named_over (stage_seen SecondStage common) (partner_is partner) }
{
    if partner.code != 0 {
        return Step::ends(SessionEnd::PartnerRefused(partner.code));
    }
    if partner.id != common.peer() {
        return Step::ends(SessionEnd::WrongPartner(partner.id));
    }
    Step::nothing(Session::TextsFinished(Finished {
        common: common.without_partner(),
        size: 0,
    }))
}
