//! The outside as the program sees it: sources and sinks of bytes, and the station with its journal, its port and
//! what a stop may leave of them. Each counts its faults.
#![tactic(auto)]

mod arming;
mod call;
mod failed;
mod feeding;
mod file_station;
mod handed;
mod memory_calls;
mod memory_sink;
mod memory_source;
mod memory_station;
mod opening;
mod output;
mod port;
mod ranges;
mod reading;
mod sink;
mod source;
mod standard;
mod station;
mod taker;
mod tape;
mod through;
mod writing;

pub use arming::{ArmedFail, ArmedStop};
pub use call::{Call, Outcome, Pick, Reception};
pub use failed::Failed;
pub use feeding::{Fed, Given};
pub use file_station::FileStation;
pub use handed::Handed;
pub use memory_sink::MemorySink;
pub use memory_source::MemorySource;
pub use memory_station::MemoryStation;
pub use output::standard_output;
pub use reading::{ReadFault, read_through, read_up_to};
pub use sink::Sink;
pub use source::Source;
pub use standard::{StdSink, StdSource};
pub use station::{Heard, Station};
pub use taker::Taker;
pub use through::write_through;
pub use writing::write_all;
