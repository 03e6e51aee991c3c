//! Costs of a unit.

ghost use Rattle.std.specs.Prelude.{◌≡◌, ◌↔◌, ◌≤◌, ℕ, Ok};
ghost use Rattle.dsd_values.specs.Reading.{cost_of};
ghost use Rattle.dsd_values.specs.Spelling.{SpellsCost};

use crate::decimal::decimal_within;
use crate::fault::ValueFault;
use std::marker::Model;

/// The cost of a unit, in ten-thousandths of a unit of money.
#[derive(Clone, Copy, Debug, PartialEq, Eq, PartialOrd, Ord)]
pub struct Cost {
    value: u64,
}

impl Model for Cost {
    ghost use Rattle.std.specs.Prelude.{ℕ, ◌≤◌};
    ghost use Rattle.dsd_values.specs.declared.cost.TheConstants.Cost.{MAX};

    ghost Value = { ℕ };

    ghost view = { λ cost. cost.value };

    ghost invariant = { λ cost. cost.value ≤ MAX };

    ghost inverse = { λ n. record { value = n } };
}

impl Cost {
    /// The greatest cost.
    pub const MAX: u64 = 999_999_999;

    pub fn new(value: u64) -> Cost
        requires { value ≤ Self.MAX }
        ensures { result ≡ value }
    {
        Cost { value }
    }

    pub fn get(self) -> u64
        ensures value { result ≡ self }
        ensures within { result ≤ Self.MAX }
    {
        self.value
    }
}

/// How many digits may stand after the point of a cost.
pub const COST_DECIMALS: u32 = 4;

/// The cost that digits write, with a point and up to four decimals where it has some.
pub fn read_cost(text: &[u8]) -> Result<Cost, ValueFault>
    ensures exact { result ≡ cost_of text.now }
    ensures spelled { (cost : ℕ) → (result ≡ Ok cost ↔ SpellsCost cost text.now) }
{
    let number = decimal_within(text, COST_DECIMALS, Cost::MAX)?;
    Ok(Cost::new(number))
}
