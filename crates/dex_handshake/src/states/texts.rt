//! What is heard in the turn of a text.

ghost use Rattle.std.specs.Prelude.{◌≡◌};
ghost use Rattle.dex_handshake.specs.LineTable.{takes_block, text_over, TextStage};
ghost use Rattle.dex_handshake.specs.SessionSeen.{step_seen};
ghost use Rattle.dex_handshake.specs.StateSeen.{at_stage as stage_seen, text_taking};

use super::super::common::Common;
use super::super::session::{Session, Step};
use super::super::session_end::SessionEnd;
use super::super::stage::Texts;
use super::super::taking::{TextTaking, reply_to};
use super::{Finished, Turn};
use dxs_envelope::TRANSMISSION_BYTES;

/// A block is heard.
pub(crate) fn take_block(common: Common, taking: TextTaking, last: bool, block: &[u8]) -> Step
    ensures { step_seen result ≡ takes_block (stage_seen TextStage common) (text_taking taking common.room) last block.now }
{
    if block.is_empty() {
        return Step::nothing(Texts::in_text(common, taking));
    }
    if taking.is_whole() {
        return Texts::reply_again(common, taking);
    }
    let size = taking.size();
    if block.len() > TRANSMISSION_BYTES - size {
        return Step::ends(SessionEnd::TextLimit);
    }
    let reply = reply_to(taking.taken() + 1);
    let taking = taking.more(block.len(), last);
    Step::says(reply, Texts::in_text(common.put(size, block), taking))
}

/// The Eot of a text turn is heard.
pub(crate) fn end_text(common: Common, taking: TextTaking) -> Step
    ensures { step_seen result ≡ text_over (stage_seen TextStage common) (text_taking taking common.room) }
{
    let none = taking.taken() == 0;
    if none && common.was_empty() {
        return Step::ends(SessionEnd::Complete);
    }
    let size = if taking.is_whole() { taking.size() } else { 0 };
    Step::nothing(Session::TextsFinished(Finished {
        common: common.with_empty(none),
        size,
    }))
}
