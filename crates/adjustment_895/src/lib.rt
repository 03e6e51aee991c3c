//! Set 895, the acknowledgement or adjustment of a delivery: read with place and reason, and written.
#![tactic(auto)]

mod answer;
mod from_text;
mod head;
pub mod laws;
mod parts;
mod reader;
mod taking;
mod writing;
mod writing_laws;

pub use answer::Answer895;
pub use from_text::read_895;
pub use head::AnswerHead;
pub use taking::Reader895;
pub use writing::{write_895, write_sealed_895};
pub use writing_laws::written_is_read;
