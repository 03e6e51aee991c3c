//! The book of deliveries of an end: who signed what, and which deliveries are final at which version.
#![tactic(auto)]

mod admitting;
mod book;
mod book_fault;
mod change;
mod delivery;
mod fault;
mod history;
mod judging;
mod laws;
mod looking;
mod opening;
mod rules;
mod sides;
mod signing;
mod taking;
mod versions;

pub use book::Book;
pub use book_fault::BookFault;
pub use fault::{AdmitFault, RuleFault};
pub use laws::{a_book_is_refused_at_one_place, finals_stay, static_agreement};
pub use opening::open_book;
pub use rules::Rules;
