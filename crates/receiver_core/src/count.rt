//! What was counted of one delivery.

use dsd_values::{DeliveryNumber, Signature};
use plain_lines::CountedLines;

/// What was counted of a delivery, and how its proposals are answered.
#[derive(Debug, Drop)]
pub struct Count {
    pub number: DeliveryNumber,
    /// What the answers are signed with.
    pub signature: Signature,
    /// Whether a counter proposal is accepted though lines differ.
    pub counters: bool,
    pub lines: CountedLines,
}
