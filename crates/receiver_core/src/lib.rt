//! The receiver's end of a delivery: its counts, read from a text, and what it does on a proposal.
#![tactic(auto)]

mod changes;
mod choosing;
mod count;
mod count_list;
mod counts;
mod from_text;
mod laws;
mod reading;

pub use count::Count;
pub use counts::{Counts, MOST_COUNTS};
pub use laws::{
    choices_by_level, counts_are_what_a_text_says, lines_that_differ, worked_refusals_of_counts,
};
pub use reading::CountsSoFar;
