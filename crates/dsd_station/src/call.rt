use crate::Failed;
use crate::handed::Handed;

/// What a stop leaves of each range that was written and not synced, and of the bytes of a stopped `speak`.
#[derive(Clone, Copy, Debug, PartialEq, Eq)]
pub enum Pick {
    /// All of it.
    Keep,
    /// Nothing of it.
    Drop,
    /// Its first half, rounded down.
    Half,
}

/// How a call went that may stop.
#[derive(Clone, Copy, Debug, PartialEq, Eq)]
pub enum Outcome {
    Done,
    Failing,
    /// The station stopped within it.
    Stopped(Pick),
}

/// What one `listen` answered.
#[derive(Drop)]
pub enum Reception {
    Piece(Handed),
    Silence,
    Cut,
}

/// A call of a station with what it was handed and what it answered, or a restart.
#[derive(Drop)]
pub enum Call {
    Attach {
        journal: Handed,
        port: Handed,
        answer: Result<(), Failed>,
    },
    Size {
        answer: Result<u64, Failed>,
    },
    /// The bytes that were read follow from the journal, so their number alone is kept.
    Read {
        at: u64,
        room: usize,
        answer: Result<usize, Failed>,
    },
    Write {
        at: u64,
        bytes: Handed,
        outcome: Outcome,
    },
    Sync {
        outcome: Outcome,
    },
    Listen {
        answer: Result<Reception, Failed>,
    },
    Speak {
        bytes: Handed,
        outcome: Outcome,
    },
    Restart,
}
