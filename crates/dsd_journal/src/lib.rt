//! The journal of an end: entries behind gates, which a stop leaves whole.
#![tactic(auto)]

mod adding_fault;
mod batch;
mod entries;
mod entry;
mod formatting;
mod front;
mod header;
mod journal;
mod laws;
mod limits;
mod opening;
mod pieces;
mod reading;
mod steps;
mod taking;

pub use adding_fault::{AppendFault, FlushFault, StageFault};
pub use entry::{Entry, EntryKind};
pub use formatting::{FormatFault, format};
pub use header::Header;
pub use journal::Journal;
pub use laws::{an_image_holds_one_list, an_image_is_held_or_refused};
pub use limits::{FORMATTED_BYTES, HEADER_BYTES, JOURNAL_BYTES, MOST_ENTRIES};
pub use opening::{OpenFault, open_journal};
