//! Why a turn goes no further.

use thiserror::Error;

/// Why an own turn goes no further.
#[derive(Clone, Copy, Debug, PartialEq, Eq, Error)]
pub enum TurnFault {
    /// There is no room for the entry that it adds next: with it the journal would have this many bytes, which is more than 67,108,864. All before it
    /// stands in the journal.
    #[error("a journal of {0} bytes is too long")]
    Full(u64),
    /// A call of the station failed. The desk has to be opened again.
    #[error("the station failed")]
    Station,
    /// There was no memory, or 999,999,999 own turns had blocks before.
    #[error("no memory")]
    Memory,
}
