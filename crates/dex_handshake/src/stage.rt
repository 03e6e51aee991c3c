//! The stages of a session, as marker types.

ghost use Rattle.std.specs.Prelude.{ℕ, List};
ghost use Rattle.dex_handshake.specs.StateSeen.{header_taking, text_taking};
ghost use Rattle.dex_handshake.specs.LineTable.{Taking as TakingSeen, StageName, FirstStage, SecondStage, TextStage};

use super::load::{HeaderLoad, Load};
use super::taking::{HeaderTaking, TextTaking};
use super::text_load::TextLoad;

/// A stage of a session, with what is sent in its turns.
pub trait Stage {
    /// What an own turn of this stage sends.
    type Load: Load + Drop;

    /// What is taken of a turn of the other end.
    type Taking: Drop;

    /// Which stage it is.
    ghost stage: { StageName };

    /// What was taken, with the room for a text.
    ghost taking: { Self.Taking → List ℕ → TakingSeen };
}

/// The stage of the first header.
#[derive(Debug, Drop)]
pub struct FirstHand;

/// The stage of the second header.
#[derive(Debug, Drop)]
pub struct SecondHand;

/// The stage of the texts.
#[derive(Debug, Drop)]
pub struct Texts;

impl Stage for FirstHand {
    type Load = HeaderLoad;

    type Taking = HeaderTaking;

    ghost stage = { FirstStage };

    ghost taking = { λ t room. header_taking t.heard };
}

impl Stage for SecondHand {
    type Load = HeaderLoad;

    type Taking = HeaderTaking;

    ghost stage = { SecondStage };

    ghost taking = { λ t room. header_taking t.heard };
}

impl Stage for Texts {
    type Load = TextLoad;

    type Taking = TextTaking;

    ghost stage = { TextStage };

    ghost taking = { λ t room. text_taking t room };
}
