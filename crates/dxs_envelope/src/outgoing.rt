//! A transmission that goes out.

ghost use Rattle.std.specs.Prelude.{◌≡◌, true};
ghost use Rattle.std.specs.List.{list_all};
ghost use Rattle.dex_line.specs.Bytes.{is_text};
ghost use Rattle.dex_line.specs.TextUnits.{UnitsFit};
ghost use Rattle.dxs_envelope.specs.Sending.{IsOutgoing as IsOutgoingText};
ghost use Rattle.dxs_envelope.specs.declared.outgoing.EnvelopeWriteFault.TheVariants.{Memory as NoMemory};

use dsd_values::Memory;
use std::alloc::{AllocError, AllocFailed};
use std::marker::Model;
use thiserror::Error;

/// The most bytes of a transmission that is written.
pub const TRANSMISSION_BYTES: usize = 270_000;

/// Why a transmission is not written.
#[derive(Clone, Copy, Debug, PartialEq, Eq, Error)]
pub enum EnvelopeWriteFault {
    /// The text would have so many bytes, which are too many.
    #[error("a transmission of {0} bytes")]
    LongText(usize),
    /// There was no memory.
    #[error("no memory")]
    Memory,
}

impl From<Memory> for EnvelopeWriteFault {
    ghost from_gives = { λ _ fault. fault ≡ NoMemory };

    fn from(_error: Memory) -> EnvelopeWriteFault {
        EnvelopeWriteFault::Memory
    }
}

/// The text of a transmission, as it is written. A contract sees it as that text.
#[derive(Debug, Drop)]
pub struct Outgoing {
    text: Vec<u8>,
}

impl Model for Outgoing {
    ghost use Rattle.std.specs.Prelude.{ℕ, List};
    ghost use Rattle.dxs_envelope.specs.Sending.{IsOutgoing};

    ghost Value = { List ℕ };

    ghost view = { λ o. o.text.items };

    ghost invariant = { λ o. IsOutgoing o.text.items };
}

impl Outgoing {
    /// The transmission of this text.
    pub(crate) fn new(text: Vec<u8>) -> Outgoing
        requires { IsOutgoingText text.items }
        ensures { result ≡ text.items }
    {
        Outgoing { text }
    }

    /// The text: CR LF ends each of its segments, and it has at most `TRANSMISSION_BYTES` bytes.
    pub fn as_slice(&self) -> &[u8]
        ensures value { result.now ≡ self.now }
        // It is the transmission of some sets, of which there is one list.
        ensures sent { IsOutgoingText result.now }
        // So a cutter can be made of it, and each of its blocks can be said.
        ensures fits { UnitsFit result.now }
        ensures text { list_all is_text result.now ≡ true }
    {
        self.text.as_slice()
    }
}
