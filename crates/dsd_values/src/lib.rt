//! The values of a delivery: numbers, days and short texts, how their texts are read and written,
//! and the lines that they stand in.
#![tactic(auto)]

mod allowance;
mod cents;
mod check;
mod comm_id;
mod cost;
mod day;
mod decimal;
mod delivery_number;
mod details;
mod dsd_number;
mod extra;
mod fault;
mod flag;
mod kept;
mod level;
mod limits;
mod line;
mod method;
mod number;
mod percent;
mod quantity;
mod role;
mod set_text;
mod signature;
mod tail;
mod word;
mod writers;

pub use allowance::{Allowance, HeldAllowance};
pub use cents::{Cents, read_cents};
pub use check::{Check, read_check};
pub use comm_id::{COMM_ID_BYTES, CommId, read_comm_id};
pub use cost::{COST_DECIMALS, Cost, read_cost};
pub use day::{Day, read_day};
pub use delivery_number::{DELIVERY_NUMBER_BYTES, DeliveryNumber, read_delivery_number};
pub use details::{DetailTexts, Details, ItemDetails};
pub use dsd_number::{DsdNumber, read_dsd};
pub use extra::{Extra, Extras};
pub use fault::{KeptFault, Memory, ValueFault};
pub use flag::{Flag, read_flag};
pub use kept::Kept;
pub use level::{Level, read_level};
pub use limits::{
    HIGHEST_LEVEL, KEPT_BYTES, MARK_BYTES, MOST_ALLOWANCES, MOST_LINES, SET_BYTES, WORD_BYTES,
};
pub use line::{Line, Lines};
pub use method::Method;
pub use number::read_number;
pub use percent::{PERCENT_DECIMALS, Percent, read_percent};
pub use quantity::{MOST_TOTAL_QUANTITY, Quantity, read_quantity, read_total_quantity};
pub use role::{Role, read_role};
pub use set_text::SetText;
pub use signature::Signature;
pub use tail::Tail;
pub use word::{Word, read_filled_word, read_word, read_word_between};
pub use writers::{
    write_cents, write_check, write_cost, write_day, write_dsd, write_level, write_percent,
    write_plain_number, write_quantity, write_total_quantity,
};
