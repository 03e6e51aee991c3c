//! Quantities, of a line and of a whole delivery.

ghost use Rattle.std.specs.Prelude.{◌≡◌, ◌↔◌, ◌≤◌, ℕ, Ok};
ghost use Rattle.dsd_values.specs.Reading.{quantity_of, total_quantity_of};
ghost use Rattle.dsd_values.specs.Spelling.{SpellsQuantity, SpellsTotalQuantity};

use crate::fault::ValueFault;
use crate::number::number_within;
use std::marker::Model;

/// How many units a line has.
#[derive(Clone, Copy, Debug, PartialEq, Eq, PartialOrd, Ord)]
pub struct Quantity {
    value: u32,
}

impl Model for Quantity {
    ghost use Rattle.std.specs.Prelude.{ℕ, ◌≤◌};
    ghost use Rattle.dsd_values.specs.declared.quantity.TheConstants.Quantity.{MAX};

    ghost Value = { ℕ };

    ghost view = { λ quantity. quantity.value };

    ghost invariant = { λ quantity. quantity.value ≤ MAX };

    ghost inverse = { λ n. record { value = n } };
}

impl Quantity {
    /// The greatest quantity of a line.
    pub const MAX: u32 = 99_999;

    pub fn new(value: u32) -> Quantity
        requires { value ≤ Self.MAX }
        ensures { result ≡ value }
    {
        Quantity { value }
    }

    pub fn get(self) -> u32
        ensures value { result ≡ self }
        ensures within { result ≤ Self.MAX }
    {
        self.value
    }
}

/// The quantity that 1 to 15 digits write.
pub fn read_quantity(text: &[u8]) -> Result<Quantity, ValueFault>
    ensures exact { result ≡ quantity_of text.now }
    ensures spelled { (quantity : ℕ) → (result ≡ Ok quantity ↔ SpellsQuantity quantity text.now) }
{
    let number = number_within(text, 0, u64::from(Quantity::MAX))?;
    Ok(Quantity::new(number as u32))
}

/// The greatest sum of quantities that a set states.
pub const MOST_TOTAL_QUANTITY: u32 = 999_999_999;

/// The sum of quantities that 1 to 15 digits write.
pub fn read_total_quantity(text: &[u8]) -> Result<u32, ValueFault>
    ensures exact { result ≡ total_quantity_of text.now }
    ensures spelled { (quantity : ℕ) → (result ≡ Ok quantity ↔ SpellsTotalQuantity quantity text.now) }
{
    let number = number_within(text, 0, u64::from(MOST_TOTAL_QUANTITY))?;
    Ok(number as u32)
}
