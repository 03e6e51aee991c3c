//! How a session ends, and the limits that end it.

use dsd_values::CommId;

/// How often a frame is said before the session ends.
pub const MOST_TRIES: u32 = 10;

/// How many Quiets in a row end a session.
pub const MOST_QUIETS: u32 = 30;

/// How a session has ended.
#[derive(Clone, Copy, Debug, PartialEq, Eq)]
pub enum SessionEnd {
    /// Two turns in succession had no block, one of each end.
    Complete,
    /// Thirty Quiets came in a row.
    Silent,
    /// The frame of this number was said ten times, and would have to be said again.
    TriesSpent(u32),
    /// The partner's header refused this end with this code, of two digits.
    PartnerRefused(u8),
    /// The header that was heard names this id, which is not the peer.
    WrongPartner(CommId),
    /// A block would make the text too long.
    TextLimit,
    /// The cable was unplugged.
    Unplugged,
}
