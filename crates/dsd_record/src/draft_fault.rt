//! Why a text of drafts, of counts or of a script is refused.

ghost use Rattle.std.specs.Prelude.{◌≡◌};
ghost use Rattle.dsd_record.specs.declared.draft_fault.DraftFault.TheVariants.{Memory as WantOfMemory};

use dsd_values::{Memory, ValueFault};
use thiserror::Error;

/// Why a line is refused. The reasons are asked in the order `Line`, `Words`, `Limit`, `Value`, `Twice`, `Price`.
#[derive(Clone, Copy, Debug, PartialEq, Eq, Error)]
pub enum DraftReason {
    /// The first word may not stand there, or the text ends inside a part.
    #[error("the line may not stand there")]
    Line,
    /// It has another number of words, or the last line does not end.
    #[error("another number of words")]
    Words,
    /// The first word that is refused, by its number behind the leading word, from 1.
    #[error("word {word}: {fault}")]
    Value { word: usize, fault: ValueFault },
    /// A delivery number again, or a DSD number again within one part.
    #[error("a number again")]
    Twice,
    /// One part or line more than there may be.
    #[error("one more than there may be")]
    Limit,
    /// The items and the allowances of a draft have no price.
    #[error("no price")]
    Price,
}

/// Why a text is refused.
#[derive(Clone, Copy, Debug, PartialEq, Eq, Error)]
pub enum DraftFault {
    /// The start of the first line with a reason against it, or the length of a text that ends inside a part; and the first
    /// reason there.
    #[error("at {place}: {reason}")]
    Refused { place: usize, reason: DraftReason },
    /// There was no memory.
    #[error("no memory")]
    Memory,
}

impl From<Memory> for DraftFault {
    ghost from_gives = { λ _ fault. fault ≡ WantOfMemory };

    fn from(_memory: Memory) -> DraftFault {
        DraftFault::Memory
    }
}
