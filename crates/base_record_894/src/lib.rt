//! Set 894, the base record of a delivery: read with place and reason, and written.
#![tactic(auto)]

mod base;
mod from_text;
mod head;
pub mod laws;
mod notes;
mod parts;
mod reader;
mod rows;
mod taking;
mod writing;
mod writing_laws;

pub use base::Base;
pub use from_text::read_894;
pub use head::BaseHead;
pub use notes::Notes;
pub use taking::Reader894;
pub use writing::{write_894, write_sealed_894};
pub use writing_laws::written_is_read;
