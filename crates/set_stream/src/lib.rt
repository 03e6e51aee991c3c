//! A set of either form, from a text in pieces: one segment is held, and what the set says.
#![tactic(auto)]

mod feeding;
mod set_stream;

pub use set_stream::SetStream;
