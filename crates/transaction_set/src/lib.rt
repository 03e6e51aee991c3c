//! The machine that both sets are read by, one segment after another, and written by, row after row.
#![tactic(auto)]

mod allowance;
mod closing;
mod course;
mod extras;
mod giving;
mod item;
mod kind;
mod laws;
mod numbered_lines;
mod phase;
mod refusing;
mod seal;
mod set_fault;
mod set_writer;
mod sound_laws;
mod stated;
mod texts;

pub use allowance::read_allowance;
pub use course::Course;
pub use item::read_item;
pub use kind::{Form, Kind, head_id, is_start_of};
pub use laws::order_is_the_grammar;
pub use phase::Phase;
pub use refusing::{at, refuse, unreadable};
pub use seal::Seal;
pub use set_fault::{SetFault, SetReason};
pub use set_writer::SetWriter;
pub use sound_laws::{sound_extras, sound_lines};
pub use stated::{Closed, StatedTotals};
pub use texts::flag_letter;
