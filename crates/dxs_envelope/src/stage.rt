//! Where a reading stands between two sets.

use super::fault::EnvelopeFault;

/// Where a reading stands between two sets.
#[derive(Debug, Clone, Copy)]
pub enum Stage<'a> {
    /// At this place, behind so many sets of the transmission with this control number.
    Between {
        control: &'a [u8],
        found: u64,
        place: usize,
    },
    /// At the end: nothing more is told but this fault, where there is one.
    Ended(Option<EnvelopeFault>),
}
