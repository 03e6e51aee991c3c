//! What ties a set to its text.

use dsd_values::{Check, Word};

/// The control number and the integrity value of a set.
#[derive(Debug, Drop)]
pub struct Seal {
    /// ST02, as it stands.
    pub control: Word,
    /// G8501: the CRC-16 of the bytes before it.
    pub check: Check,
}
