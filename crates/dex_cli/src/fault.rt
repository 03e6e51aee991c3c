//! Why words are no job.

ghost use Rattle.std.specs.Prelude.{◌≡◌};
ghost use Rattle.dex_cli.specs.declared.fault.WordsFault.TheVariants.{Memory};

use std::alloc::AllocError;
use thiserror::Error;

/// Why words are no job.
#[derive(Clone, Copy, Debug, PartialEq, Eq, Drop, Error)]
pub enum WordsFault {
    /// They are the words of no job.
    #[error("these are the words of no job")]
    Refused,
    /// Memory is wanting.
    #[error("memory is wanting")]
    Memory,
}

impl From<AllocError> for WordsFault {
    ghost from_gives = { λ _ fault. fault ≡ Memory };

    fn from(_: AllocError) -> WordsFault {
        WordsFault::Memory
    }
}
