//! Segments of a text: where they end, what stands in them, and how they are written.
#![tactic(auto)]

mod elements;
mod item_fault;
mod laws;
mod segment;
mod segment_body;
mod segment_fault;
mod segment_reader;
mod segment_stream;
mod segment_write_fault;
mod segment_writer;
mod stream_laws;
mod writing_laws;

pub use elements::{
    cents_at, check_at, cost_at, dsd_at, end_of_elements, filled_text_at, filled_word_at,
    in_element, kept_at, number_at, optional_cents_at, quantity_at, tail_at, total_quantity_at,
    word_at, word_between_at, word_text_at,
};
pub use item_fault::ItemFault;
pub use laws::{segments_are_those_spelled, segments_stand_in_their_text};
pub use segment::{SEGMENT_BYTES, SEGMENT_ELEMENTS, Segment, between, has_id};
pub use segment_fault::SegmentFault;
pub use segment_reader::SegmentReader;
pub use segment_stream::SegmentStream;
pub use segment_write_fault::{SEGMENT_WRITTEN, SegmentWriteFault};
pub use segment_writer::{MOST_CONTROL_NUMBER, SegmentWriter};
pub use stream_laws::{a_stream_reads_its_text, pieces_are_their_bytes};
pub use writing_laws::written_segments_are_read;
