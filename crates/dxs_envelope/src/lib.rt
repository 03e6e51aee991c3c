//! The envelope round the sets of a transmission: its sets, read one after another, and the text of a transmission.
#![tactic(auto)]

mod fault;
mod laws;
mod outgoing;
mod sets;
mod slice;
mod stage;
mod table;
mod text_course;
mod text_laws;
mod text_stream;
mod writing;

pub use fault::{EnvelopeFault, EnvelopeReason};
pub use laws::{
    faults_stand_in_their_text, sets_are_told, sets_stand_in_their_text, units_are_blocks,
    written_sets_are_read,
};
pub use outgoing::{EnvelopeWriteFault, Outgoing, TRANSMISSION_BYTES};
pub use sets::Sets;
pub use slice::SetSlice;
pub use text_course::{PartKind, TextCourse};
pub use text_laws::{a_text_stream_reads_its_text, parts_tell_the_sets};
pub use text_stream::{Part, TextStream};
pub use writing::write_transmission;
