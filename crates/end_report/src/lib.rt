//! What is printed of an end: its deliveries, the drafts that are not proposed yet, and how its session ended.
#![tactic(auto)]

mod ending;
mod lines;
mod report;
mod settled;

pub use ending::{Ending, LastRun, put_last_run};
pub use lines::{put, put_bytes, put_count, put_named, put_number, put_pair, put_signed};
pub use report::{
    are_settled, are_settled_at_both, put_deliveries, put_refused, put_report, put_unproposed,
};
pub use settled::flag;
