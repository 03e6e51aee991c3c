//! Why rules refuse.

ghost use Rattle.std.specs.Prelude.{◌≡◌};
ghost use Rattle.delivery_book.specs.declared.fault.AdmitFault.TheVariants as admitting;
ghost use Rattle.delivery_book.specs.declared.fault.RuleFault.TheVariants as rules;

use dsd_pricing::WriteFault;
use dsd_record::ApplyFault;
use dsd_values::{Check, Level, Memory};
use thiserror::Error;
use transaction_set::SetFault;

/// Why an entry is not one of these rules. Nothing has changed.
#[derive(Clone, Copy, Debug, PartialEq, Eq, Error)]
pub enum AdmitFault {
    /// With it the entries would not be legal.
    #[error("the signing rules do not allow the entry")]
    Illegal,
    /// There was no memory.
    #[error("no memory")]
    Memory,
}

/// Why a set is neither signed nor taken. Nothing has changed.
#[derive(Clone, Copy, Debug, PartialEq, Eq, Error)]
pub enum RuleFault {
    /// The highest proposal, of this level, is this end's own; or a receiver was to propose a delivery, and the level is 0.
    #[error("it is not this end's turn at level {0}")]
    NotOurTurn(Level),
    /// The delivery is known; the level is that of its highest proposal.
    #[error("the delivery is known, up to level {0}")]
    AlreadySigned(Level),
    /// The answer names no proposal of this end; the check is the one that it names.
    #[error("no set of this end has check {0}")]
    UnknownSet(Check),
    /// The proposal with this check was accepted.
    #[error("the set with check {0} is accepted")]
    AlreadyFinal(Check),
    /// No level is above that of the highest proposal.
    #[error("no level is left")]
    LevelLimit,
    /// The set was taken before, byte for byte.
    #[error("the set was taken before")]
    Known,
    /// A base record of a known delivery, or an answer to a proposal that is not the highest; the level is the highest.
    #[error("the highest level is {0}")]
    Stale(Level),
    /// The version does not accept the answer, or has too many lines with it.
    #[error("{0}")]
    Apply(ApplyFault),
    /// The delivery is not known.
    #[error("the delivery is not known")]
    NoDelivery,
    /// The text is no set.
    #[error("{0}")]
    Set(SetFault),
    /// The set cannot be written or priced.
    #[error("{0}")]
    Write(WriteFault),
    /// The set is one that this end signs, or its level is one of the wrong end.
    #[error("the set is one of the wrong end")]
    WrongSide,
    /// There was no memory, or 999,999,999 sets were signed before.
    #[error("no memory")]
    Memory,
}

impl From<Memory> for AdmitFault {
    ghost from_gives = { λ _ fault. fault ≡ admitting.Memory };

    fn from(_memory: Memory) -> AdmitFault {
        AdmitFault::Memory
    }
}

impl From<Memory> for RuleFault {
    ghost from_gives = { λ _ fault. fault ≡ rules.Memory };

    fn from(_memory: Memory) -> RuleFault {
        RuleFault::Memory
    }
}
