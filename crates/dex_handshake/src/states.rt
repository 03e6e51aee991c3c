//! The states of the line, each of a stage.

ghost use Rattle.std.specs.Prelude.{◌≡◌};
ghost use Rattle.dex_handshake.specs.StateSeen.{at_stage as stage_seen};

mod headers;
mod hearing;
mod sending;
mod texts;
mod turn;

use super::common::Common;
use super::load::Load;
use super::stage::Stage;
use std::marker::{Model, PhantomData};
pub use turn::Turn;

/// It asks for the line, to send its load.
#[derive(Drop)]
pub struct Bidding<S: Stage> {
    common: Common,
    load: S::Load,
}

impl<S: Stage> Model for Bidding<S> {
    ghost use Rattle.std.specs.Prelude.{◌≡◌};
    ghost use Rattle.dex_handshake.specs.StateSeen.{at_stage, BiddingSeen};

    ghost Value = { BiddingSeen };

    ghost view = { λ b. record { own = at_stage S.stage b.common; load = S.Load.left b.load } };

    ghost invariant = { λ b. S.Load.done b.load ≡ 0 };
}

/// A frame of its load awaits its reply.
#[derive(Drop)]
pub struct Awaiting<S: Stage> {
    common: Common,
    load: S::Load,
    tries: u32,
    asked: bool,
}

impl<S: Stage> Model for Awaiting<S> {
    ghost use Rattle.std.specs.Prelude.{◌≢◌, []};
    ghost use Rattle.dex_handshake.specs.StateSeen.{at_stage, sending_seen, AwaitingSeen};

    ghost Value = { AwaitingSeen };

    ghost view = { λ a. record { own = at_stage S.stage a.common; sending = sending_seen (S.Load.left a.load) (S.Load.done a.load) a.tries a.asked } };

    ghost invariant = { λ a. S.Load.left a.load ≢ [] };
}

/// Its turn is sent, and the Eot said.
#[derive(Drop)]
pub struct SentAll<S: Stage> {
    common: Common,
    stage: PhantomData<S>,
}

impl<S: Stage> SentAll<S> {
    pub(crate) fn new(common: Common) -> SentAll<S>
        ensures { result ≡ stage_seen S.stage common }
    {
        SentAll {
            common,
            stage: PhantomData,
        }
    }
}

impl<S: Stage> Model for SentAll<S> {
    ghost use Rattle.dex_handshake.specs.LineTable.{Common as CommonSeen};
    ghost use Rattle.dex_handshake.specs.StateSeen.{at_stage};

    ghost Value = { CommonSeen };

    ghost view = { λ s. at_stage S.stage s.common };
}

/// It waits for the first header.
#[derive(Drop)]
pub struct Ready<S: Stage> {
    common: Common,
    stage: PhantomData<S>,
}

impl<S: Stage> Model for Ready<S> {
    ghost use Rattle.dex_handshake.specs.LineTable.{Common as CommonSeen};
    ghost use Rattle.dex_handshake.specs.StateSeen.{at_stage};

    ghost Value = { CommonSeen };

    ghost view = { λ r. at_stage S.stage r.common };
}

impl<S: Stage> Ready<S> {
    pub(crate) fn new(common: Common) -> Ready<S>
        ensures { result ≡ stage_seen S.stage common }
    {
        Ready {
            common,
            stage: PhantomData,
        }
    }
}

/// It hears a turn of the other end.
#[derive(Drop)]
pub struct InText<S: Stage> {
    common: Common,
    taking: S::Taking,
}

impl<S: Stage> Model for InText<S> {
    ghost use Rattle.dex_handshake.specs.StateSeen.{at_stage, InTextSeen};

    ghost Value = { InTextSeen };

    ghost view = { λ t. record { own = at_stage S.stage t.common; taking = S.taking t.taking t.common.room } };
}

/// It has heard a turn, and must give its own.
#[derive(Drop)]
pub struct Finished {
    common: Common,
    size: usize,
}

impl Model for Finished {
    ghost use Rattle.std.specs.Prelude.{◌≤◌, take};
    ghost use Rattle.dex_handshake.specs.LineTable.{TextStage};
    ghost use Rattle.dxs_envelope.specs.declared.outgoing.TheConstants.{TRANSMISSION_BYTES};
    ghost use Rattle.dex_handshake.specs.StateSeen.{at_stage, FinishedSeen};

    ghost Value = { FinishedSeen };

    ghost view = { λ f. record { own = at_stage TextStage f.common; text = take f.size f.common.room } };

    ghost invariant = { λ f. f.size ≤ TRANSMISSION_BYTES };
}
