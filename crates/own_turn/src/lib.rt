//! One own turn of an end: it takes what it heard, answers, proposes, makes sure of all that, and gathers what is due.
#![tactic(auto)]

mod asked;
mod desk;
mod gathered;
mod refusal;
mod turn_fault;

pub use desk::{Desk, open_desk};
pub use turn_fault::TurnFault;
