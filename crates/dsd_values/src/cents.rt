//! Amounts of money.

ghost use Rattle.std.specs.Prelude.{◌≡◌, ◌↔◌, ◌≤◌, ℕ, Ok};
ghost use Rattle.dsd_values.specs.Reading.{cents_of};
ghost use Rattle.dsd_values.specs.Spelling.{SpellsCents};

use crate::fault::ValueFault;
use crate::number::number_within;
use std::marker::Model;

/// An amount of money in cents.
#[derive(Clone, Copy, Debug, PartialEq, Eq, PartialOrd, Ord)]
pub struct Cents {
    value: u64,
}

impl Model for Cents {
    ghost use Rattle.std.specs.Prelude.{ℕ, ◌≤◌};
    ghost use Rattle.dsd_values.specs.declared.cents.TheConstants.Cents.{MAX};

    ghost Value = { ℕ };

    ghost view = { λ cents. cents.value };

    ghost invariant = { λ cents. cents.value ≤ MAX };

    ghost inverse = { λ n. record { value = n } };
}

impl Cents {
    /// The greatest amount.
    pub const MAX: u64 = 99_999_999_999;

    pub fn new(value: u64) -> Cents
        requires { value ≤ Self.MAX }
        ensures { result ≡ value }
    {
        Cents { value }
    }

    pub fn get(self) -> u64
        ensures value { result ≡ self }
        ensures within { result ≤ Self.MAX }
    {
        self.value
    }
}

/// The cents that 1 to 15 digits write.
pub fn read_cents(text: &[u8]) -> Result<Cents, ValueFault>
    ensures exact { result ≡ cents_of text.now }
    ensures spelled { (cents : ℕ) → (result ≡ Ok cents ↔ SpellsCents cents text.now) }
{
    let number = number_within(text, 0, Cents::MAX)?;
    Ok(Cents::new(number))
}
