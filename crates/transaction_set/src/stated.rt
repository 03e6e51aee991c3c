//! What the segments of a set stated.

use dsd_values::{Cents, Check, Extras, Kept, Lines, Signature, Word};

/// The totals that a set states, right or not.
#[derive(Clone, Copy, Debug)]
pub struct StatedTotals {
    /// The sum of the quantities, at most 999,999,999.
    pub quantity: u32,
    pub amount: Cents,
    pub deposit: Option<Cents>,
}

/// What both sets have besides their head.
#[derive(Drop)]
pub struct Closed {
    /// The control number, as it stands.
    pub control: Word,
    /// The references behind the head, each as it is kept.
    pub references: Vec<Kept>,
    pub lines: Lines,
    /// What stands at record level.
    pub extras: Extras,
    pub totals: StatedTotals,
    pub signature: Signature,
    /// The integrity value.
    pub check: Check,
}
