//! Texts that a person writes line by line: their lines and words, why a line is refused, and the counted lines that such texts
//! have.
#![tactic(auto)]

mod counted;
mod counted_lines;
mod line;
mod lines;
mod pieces;
mod refusing;
mod words;

pub use counted::{Counted, read_counted};
pub use counted_lines::CountedLines;
pub use line::PlainLine;
pub use lines::PlainLines;
pub use refusing::{misplaced, read_signature, refuse, value};
