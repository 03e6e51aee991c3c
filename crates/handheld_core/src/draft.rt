//! One delivery that a supplier proposes.

use base_record_894::Base;
use dsd_values::Cents;
use plain_lines::CountedLines;

/// What is proposed of a delivery, and how proposals of the receiver are answered.
#[derive(Debug, Drop)]
pub struct Draft {
    pub base: Base,
    /// A proposal whose amount differs by at most this is accepted.
    pub tolerance: Cents,
    /// What other proposals are countered with.
    pub counters: CountedLines,
}
