//! A session on the line.

mod calls;
mod steps;

use super::session_end::SessionEnd;
use super::stage::{FirstHand, SecondHand, Texts};
use super::states::{Awaiting, Bidding, Finished, InText, Ready, SentAll};
use dex_line::Frame;

/// A session in one of its states.
#[derive(Drop)]
pub enum Session {
    FirstReady(Ready<FirstHand>),
    FirstBidding(Bidding<FirstHand>),
    FirstAwaiting(Awaiting<FirstHand>),
    FirstSentAll(SentAll<FirstHand>),
    FirstInText(InText<FirstHand>),
    SecondBidding(Bidding<SecondHand>),
    SecondAwaiting(Awaiting<SecondHand>),
    SecondSentAll(SentAll<SecondHand>),
    SecondInText(InText<SecondHand>),
    TextsBidding(Bidding<Texts>),
    TextsAwaiting(Awaiting<Texts>),
    TextsSentAll(SentAll<Texts>),
    TextsInText(InText<Texts>),
    TextsFinished(Finished),
    Ended(SessionEnd),
}

/// What a session says at one thing heard, and its next state.
#[derive(Drop)]
pub struct Step {
    pub next: Session,
    pub say: Option<Frame>,
}
