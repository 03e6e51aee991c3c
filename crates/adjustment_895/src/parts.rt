//! What was read of an answer.

use crate::head::AnswerHead;
use transaction_set::Closed;

/// The head, and what both sets have.
#[derive(Drop)]
pub struct Parts {
    pub head: AnswerHead,
    pub closed: Closed,
}
