//! What an end does on a proposal.

use dsd_values::Lines;

/// What an end does on a proposal of its partner.
#[derive(Debug, Drop)]
pub enum Choice {
    /// Accepts it.
    Accept,
    /// Adjusts it by these lines, each of them stated whole.
    Adjust(Lines),
    /// Says nothing of it now.
    Wait,
}
