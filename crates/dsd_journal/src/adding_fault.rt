//! Why entries were not added.

use thiserror::Error;

/// Why an entry was not added.
#[derive(Clone, Copy, Debug, PartialEq, Eq, Error)]
pub enum AppendFault {
    /// There is no room for the entry: with it the journal would have this many bytes, which is more than 67,108,864.
    /// Nothing has changed.
    #[error("a journal of {0} bytes is too long")]
    Full(u64),
    /// A call of the station failed. The journal has to be opened again.
    #[error("the station failed")]
    Station,
}

/// Why an entry was not staged. Nothing has changed.
#[derive(Clone, Copy, Debug, PartialEq, Eq, Error)]
pub enum StageFault {
    /// There is no room for the entry: with all that is staged and this one the journal would have this many bytes,
    /// which is more than 67,108,864.
    #[error("a journal of {0} bytes is too long")]
    Full(u64),
    /// There was no memory.
    #[error("no memory")]
    Memory,
}

/// Why what was staged was not added.
#[derive(Clone, Copy, Debug, PartialEq, Eq, Error)]
pub enum FlushFault {
    /// A call of the station failed. The journal has to be opened again.
    #[error("the station failed")]
    Station,
}
