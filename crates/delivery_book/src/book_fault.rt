//! Why a book refuses.

ghost use Rattle.std.specs.Prelude.{◌≡◌, Some};
ghost use Rattle.delivery_book.specs.Books.{rule_of};

use crate::fault::RuleFault;
use dsd_pricing::WriteFault;
use dsd_record::ApplyFault;
use dsd_values::{Check, Level};
use thiserror::Error;
use transaction_set::SetFault;

/// Why a set is neither signed nor taken. But for `Station` nothing has changed.
#[derive(Clone, Copy, Debug, PartialEq, Eq, Error)]
pub enum BookFault {
    /// The highest proposal, of this level, is this end's own; or a receiver was to propose a delivery, and the level is 0.
    #[error("it is not this end's turn at level {0}")]
    NotOurTurn(Level),
    /// The delivery is known; the level is that of its highest proposal.
    #[error("the delivery is known, up to level {0}")]
    AlreadySigned(Level),
    /// The answer names no proposal of this end; the check is the one that it names.
    #[error("no set of this end has check {0}")]
    UnknownSet(Check),
    /// The proposal with this check was accepted.
    #[error("the set with check {0} is accepted")]
    AlreadyFinal(Check),
    /// No level is above that of the highest proposal.
    #[error("no level is left")]
    LevelLimit,
    /// The set was taken before, byte for byte.
    #[error("the set was taken before")]
    Known,
    /// A base record of a known delivery, or an answer to a proposal that is not the highest; the level is the highest.
    #[error("the highest level is {0}")]
    Stale(Level),
    /// The version does not accept the answer, or has too many lines with it.
    #[error("{0}")]
    Apply(ApplyFault),
    /// The delivery is not known.
    #[error("the delivery is not known")]
    NoDelivery,
    /// The text is no set.
    #[error("{0}")]
    Set(SetFault),
    /// The set cannot be written or priced.
    #[error("{0}")]
    Write(WriteFault),
    /// The set is one that this end signs, or its level is one of the wrong end.
    #[error("the set is one of the wrong end")]
    WrongSide,
    /// There is no room for the set: with all that is staged and this one the journal would have this many bytes, which is more than 67,108,864.
    #[error("a journal of {0} bytes is too long")]
    Full(u64),
    /// A call of the station failed. The book has to be opened again.
    #[error("the station failed")]
    Station,
    /// There was no memory.
    #[error("no memory")]
    Memory,
}

impl From<RuleFault> for BookFault {
    ghost from_gives = { λ fault book. rule_of book ≡ Some fault };

    fn from(fault: RuleFault) -> BookFault {
        match fault {
            RuleFault::NotOurTurn(level) => BookFault::NotOurTurn(level),
            RuleFault::AlreadySigned(level) => BookFault::AlreadySigned(level),
            RuleFault::UnknownSet(check) => BookFault::UnknownSet(check),
            RuleFault::AlreadyFinal(check) => BookFault::AlreadyFinal(check),
            RuleFault::LevelLimit => BookFault::LevelLimit,
            RuleFault::Known => BookFault::Known,
            RuleFault::Stale(level) => BookFault::Stale(level),
            RuleFault::Apply(fault) => BookFault::Apply(fault),
            RuleFault::NoDelivery => BookFault::NoDelivery,
            RuleFault::Set(fault) => BookFault::Set(fault),
            RuleFault::Write(fault) => BookFault::Write(fault),
            RuleFault::WrongSide => BookFault::WrongSide,
            RuleFault::Memory => BookFault::Memory,
        }
    }
}
