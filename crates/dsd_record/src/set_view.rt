//! A set that was read.

use adjustment_895::Answer895;
use base_record_894::Base;
use transaction_set::Seal;

/// One of the two sets, with what ties it to its text.
#[derive(Debug, Drop)]
pub enum SetView {
    /// Set 894.
    Base(Base, Seal),
    /// Set 895.
    Answer(Answer895, Seal),
}
