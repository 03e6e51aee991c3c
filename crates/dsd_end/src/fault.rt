//! Why a call of an end goes no further.

ghost use Rattle.std.specs.Prelude.{◌≡◌};
ghost use Rattle.dsd_end.specs.EndFaults.{fault_of};

use own_turn::TurnFault;
use thiserror::Error;

/// From so many bytes on that were heard without the session's end, what is heard is noise.
pub const NOISE_BYTES: u64 = 2_000_000;

/// Why a call of an end goes no further.
#[derive(Clone, Copy, Debug, PartialEq, Eq, Error)]
pub enum EndFault {
    /// A call of the station failed.
    #[error("the station failed")]
    Station,
    /// There is no room for the entry that the own turn adds next: with it the journal would have this many bytes, which is more than 67,108,864.
    #[error("a journal of {0} bytes is too long")]
    Full(u64),
    /// So many bytes were heard without the session's end: 2,000,000 or more.
    #[error("{0} bytes were heard without an end")]
    Noise(u64),
    /// An earlier call of this end has answered a fault.
    #[error("an earlier call has failed")]
    Failed,
    /// There was no memory.
    #[error("no memory")]
    Memory,
}

impl EndFault {
    /// The fault of a poll whose own turn went no further.
    pub(crate) fn of_turn(fault: TurnFault) -> EndFault
        ensures { result ≡ fault_of fault }
    {
        match fault {
            TurnFault::Station => EndFault::Station,
            TurnFault::Full(length) => EndFault::Full(length),
            TurnFault::Memory => EndFault::Memory,
        }
    }
}
