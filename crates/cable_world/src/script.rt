//! A script.

use crate::events::Events;
use dsd_journal::Header;
use handheld_core::Drafts;
use receiver_core::Counts;

/// Whose the journals of the two ends are.
#[derive(Clone, Copy, Debug, PartialEq, Eq)]
pub struct Ends {
    pub handheld: Header,
    pub receiver: Header,
}

/// What a script says: the two ends, what the handheld proposes, what the receiver counted, and what happens.
#[derive(Debug, Drop)]
pub struct Script {
    pub ends: Ends,
    pub drafts: Drafts,
    pub counts: Counts,
    pub events: Events,
}
