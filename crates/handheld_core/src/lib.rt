//! The supplier's end of a delivery: its drafts, read from a text, and what it does on a proposal.
#![tactic(auto)]

mod allowance;
mod choosing;
mod counters;
mod draft;
mod draft_list;
mod drafts;
mod from_text;
mod item;
mod laws;
mod reading;
mod rows;

pub use draft::Draft;
pub use drafts::{Drafts, MOST_DRAFTS};
pub use laws::{drafts_are_what_a_text_says, worked_refusals_of_drafts, worked_tolerance};
pub use reading::DraftsSoFar;
