//! What the crates below must come to: worked values, computed from the definitions, and the number of each limit and
//! status, as laws.
#![tactic(auto)]

pub mod laws;
pub mod limits;
