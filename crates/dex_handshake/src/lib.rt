//! A session on the line: the states of its table as types, both handshakes, and turns.
#![tactic(auto)]

mod common;
mod header;
pub mod laws;
mod load;
mod session;
mod session_end;
mod stage;
mod states;
mod taking;
mod text_load;

pub use session::{Session, Step};
pub use session_end::{MOST_QUIETS, MOST_TRIES, SessionEnd};
pub use stage::{FirstHand, SecondHand, Stage, Texts};
pub use states::{Awaiting, Bidding, Finished, InText, Ready, SentAll, Turn};
