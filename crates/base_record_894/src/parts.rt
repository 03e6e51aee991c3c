//! What was read of a base record.

use crate::head::Head;
use transaction_set::Closed;

/// The head, and what both sets have.
#[derive(Drop)]
pub struct Parts {
    pub head: Head,
    pub closed: Closed,
}
