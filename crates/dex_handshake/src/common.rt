//! What all states of a session keep.

ghost use Rattle.std.specs.Prelude.{◌≡◌, ◌+◌, ◌<◌, ◌≤◌, ◌++◌, None, Some, true, false, nat_lt, length, take, IfOk, MatchOption};
ghost use Rattle.dex_handshake.specs.StateSeen.{partner_seen as partner_read};
ghost use Rattle.dex_handshake.specs.LineTable.{beginning, no_quiets as without_quiets, one_quiet as with_one_quiet};

use super::header::Partner;
use super::session_end::MOST_QUIETS;
use dsd_values::{CommId, Memory, Role};
use dxs_envelope::TRANSMISSION_BYTES;
use std::alloc::Global;
use std::marker::Model;

/// The ids, the header that was heard, whether the text turn before had no block, and the Quiets in a row.
#[derive(Debug, Drop)]
pub struct Common {
    role: Role,
    own: CommId,
    peer: CommId,
    partner: Option<Partner>,
    empty: bool,
    quiets: u32,
    room: Vec<u8>,
}

impl Model for Common {
    ghost use Rattle.std.specs.Prelude.{◌≡◌, ◌<◌, length};
    ghost use Rattle.dex_handshake.specs.LineTable.{FirstStage};
    ghost use Rattle.dex_handshake.specs.StateSeen.{partner_seen, CommonKept};
    ghost use Rattle.dex_handshake.specs.declared.session_end.TheConstants.{MOST_QUIETS};
    ghost use Rattle.dxs_envelope.specs.declared.outgoing.TheConstants.{TRANSMISSION_BYTES};

    ghost Value = { CommonKept };

    // A state of some stage sees it at that stage.
    ghost view = { λ c. record {
      seen = record {
        role = c.role;
        own = c.own;
        peer = c.peer;
        stage = FirstStage;
        partner = partner_seen c.partner;
        empty = c.empty;
        quiets = c.quiets;
      };
      room = c.room.items;
    } };

    ghost invariant = { λ c. (c.quiets < MOST_QUIETS) × (length c.room.items ≡ TRANSMISSION_BYTES) };
}

impl Common {
    /// At the start of a session. It takes the memory of the room.
    pub(crate) fn new(
        alloc: Global,
        role: Role,
        own: CommId,
        peer: CommId,
    ) -> Result<Common, Memory>
        ensures { IfOk result (λ c. c.seen ≡ beginning role own peer) }
    {
        let room = vec![in alloc; 0u8; TRANSMISSION_BYTES]?;
        Ok(Common {
            role,
            own,
            peer,
            partner: None,
            empty: false,
            quiets: 0,
            room,
        })
    }

    /// A frame was heard.
    pub(crate) fn at_frame(self) -> Common
        ensures { result ≡ record self { seen = without_quiets self.seen } }
    {
        Common { quiets: 0, ..self }
    }

    /// A Quiet was heard; none where it is the thirtieth in a row.
    pub(crate) fn at_quiet(self) -> Option<Common>
        ensures { MatchOption result (nat_lt (self.seen.quiets + 1) MOST_QUIETS ≡ false)
            (λ c. (nat_lt (self.seen.quiets + 1) MOST_QUIETS ≡ true) × (c ≡ record self { seen = with_one_quiet self.seen })) }
    {
        let quiets = self.quiets + 1;
        if quiets < MOST_QUIETS {
            Some(Common { quiets, ..self })
        } else {
            None
        }
    }

    pub(crate) fn partner(&self) -> Option<Partner>
        ensures { partner_read result ≡ self.now.seen.partner }
    {
        self.partner
    }

    pub(crate) fn peer(&self) -> CommId
        ensures { result ≡ self.now.seen.peer }
    {
        self.peer
    }

    pub(crate) fn was_empty(&self) -> bool
        ensures { result ≡ self.now.seen.empty }
    {
        self.empty
    }

    pub(crate) fn without_partner(self) -> Common
        ensures { result ≡ record self { seen = record self.seen { partner = None } } }
    {
        Common {
            partner: None,
            ..self
        }
    }

    pub(crate) fn with_empty(self, empty: bool) -> Common
        ensures { result ≡ record self { seen = record self.seen { empty = empty } } }
    {
        Common { empty, ..self }
    }

    pub(crate) fn quiets(&self) -> u32
        ensures { result ≡ self.now.seen.quiets }
    {
        self.quiets
    }

    pub(crate) fn own(&self) -> CommId
        ensures { result ≡ self.now.seen.own }
    {
        self.own
    }

    pub(crate) fn with_partner(self, partner: Partner) -> Common
        ensures { result ≡ record self { seen = record self.seen { partner = partner_read (Some partner) } } }
    {
        Common {
            partner: Some(partner),
            ..self
        }
    }

    /// The bytes of a text so far.
    pub(crate) fn text(&self, size: usize) -> &[u8]
        requires { size ≤ TRANSMISSION_BYTES }
        ensures { result.now ≡ take size self.now.room }
    {
        &self.room[..size]
    }

    /// Puts a block behind a text of this size.
    #[tactic(auto, using(crate::proofs::Loads::put_behind))]
    pub(crate) fn put(self, size: usize, block: &[u8]) -> Common
        requires { size + length block.now ≤ TRANSMISSION_BYTES }
        ensures seen { result.seen ≡ self.seen }
        ensures text { take (size + length block.now) result.room ≡ take size self.room ++ block.now }
    {
        let mut common = self;
        common.room[size..size + block.len()].copy_from_slice(block);
        common
    }
}
