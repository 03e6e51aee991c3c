//! The statuses with which the program ends.

/// The job was done.
pub const DONE: u8 = 0;

/// The session of an end is complete, or a script or a route was played, and a delivery of a journal or a draft is not final.
pub const OPEN: u8 = 1;

/// The words are none of a job.
pub const WORDS_REFUSED: u8 = 2;

/// The input is refused, with place and reason.
pub const INPUT_REFUSED: u8 = 3;

/// The source failed.
pub const SOURCE_FAILED: u8 = 4;

/// The sink failed: a first part of the text is written.
pub const SINK_FAILED: u8 = 5;

/// A call of the station failed.
pub const STATION_FAILED: u8 = 6;

/// The journal is refused: one that was to be made is not empty, or one that was to be shown is none.
pub const JOURNAL_REFUSED: u8 = 7;

/// The session of an end was unplugged, heard nothing for too long, or had a block repeated too often.
pub const SESSION_LOST: u8 = 8;

/// An end heard more than a session or a text may have.
pub const TOO_MUCH_HEARD: u8 = 9;

/// The partner refused the session, or is not the peer of the journal.
pub const PARTNER_REFUSED: u8 = 10;

/// Memory is wanting.
pub const NO_MEMORY: u8 = 11;

/// The journal has no room for the next entry.
pub const JOURNAL_FULL: u8 = 12;
