//! A delivery as both partners see it: its sets, its version after each of them, and the choices on it.
#![tactic(auto)]

mod changes;
mod choice;
mod decider;
mod draft_fault;
mod fault;
mod from_text;
mod laws;
mod price_after;
mod record;
mod set_reader;
mod set_view;
mod version_laws;

pub use choice::Choice;
pub use decider::Decider;
pub use draft_fault::{DraftFault, DraftReason};
pub use fault::ApplyFault;
pub use from_text::set_of;
pub use laws::{
    one_set, set_begins_as_it_is, set_in_is_the_set, set_or_refusal, text_that_begins_no_set,
};
pub use price_after::ChangeFault;
pub use record::DsdRecord;
pub use set_reader::SetReader;
pub use set_view::SetView;
pub use version_laws::{
    answers_at_their_price_apply, answers_without_fault_apply, chosen_lines_can_be_stated,
    levels_of_a_chain,
};
