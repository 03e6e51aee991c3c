//! What two ends bring along.

use crate::script::Ends;
use handheld_core::Drafts;
use receiver_core::Counts;

/// Whose the journals of two ends are, and what each end chooses by.
#[derive(Debug, Drop)]
pub(crate) struct Setting {
    pub ends: Ends,
    pub drafts: Drafts,
    pub counts: Counts,
}
