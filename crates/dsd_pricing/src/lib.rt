//! What a delivery costs, in whole cents: extensions, allowances, and the sum over the rows.
#![tactic(auto)]

mod amounts;
mod effects;
mod extensions;
mod fault;

pub use amounts::{Totals, amount_of, quantities, sum_of};
pub use effects::effect_of;
pub use extensions::extension;
pub use fault::{PriceFault, WriteFault};
