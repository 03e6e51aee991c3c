//! The frames of a line: how each is spelled, a scanner of bytes, and a cutter of texts into blocks.
#![tactic(auto)]

mod begun;
mod bytes;
mod cutter;
mod ended;
mod first;
mod frame;
mod frames;
pub mod laws;
mod lent;
mod scanner;
mod spelling;
mod units;

pub use cutter::{BLOCK_WRITTEN, Cutter};
pub use frame::{BLOCK_READ, Frame, HEADER_BYTES};
pub use frames::Frames;
pub use lent::Captured;
pub use scanner::Scanner;
pub use spelling::{FRAME_BYTES, spell};
