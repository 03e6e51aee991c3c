//! The CRC-16 that guards the blocks of a cable and the sets of a delivery.
#![tactic(auto)]

mod check;
mod running;
mod tables;

pub use check::check_of;
pub use running::Running;
