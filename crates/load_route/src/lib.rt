//! The route of a number of deliveries, as the text of a script: a large clean exchange, the same at each run.
#![tactic(auto)]

mod deliveries;
mod writing;

pub use deliveries::MOST_DELIVERIES;
pub use writing::route_text;
