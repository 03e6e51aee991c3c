//! Numbers of lines.

ghost use Rattle.std.specs.Prelude.{◌≡◌, ◌↔◌, ◌≤◌, ℕ, Ok};
ghost use Rattle.dsd_values.specs.Reading.{dsd_of};
ghost use Rattle.dsd_values.specs.Spelling.{SpellsDsd};

use crate::fault::ValueFault;
use crate::number::number_within;
use std::fmt;
use std::marker::Model;

/// The number by which both ends name a line of a delivery.
#[derive(Clone, Copy, Debug, PartialEq, Eq, PartialOrd, Ord, Hash)]
pub struct DsdNumber {
    value: u16,
}

impl Model for DsdNumber {
    ghost use Rattle.std.specs.Prelude.{ℕ, ◌≤◌};
    ghost use Rattle.dsd_values.specs.declared.dsd_number.TheConstants.DsdNumber.{MAX, MIN};

    ghost Value = { ℕ };

    ghost view = { λ dsd. dsd.value };

    ghost invariant = { λ dsd. (MIN ≤ dsd.value) × (dsd.value ≤ MAX) };

    ghost inverse = { λ n. record { value = n } };
}

impl DsdNumber {
    /// The least number of a line.
    pub const MIN: u16 = 1;

    /// The greatest number of a line.
    pub const MAX: u16 = 9_999;

    pub fn new(value: u16) -> DsdNumber
        requires low { Self.MIN ≤ value }
        requires high { value ≤ Self.MAX }
        ensures { result ≡ value }
    {
        DsdNumber { value }
    }

    pub fn get(self) -> u16
        ensures value { result ≡ self }
        ensures low { Self.MIN ≤ result }
        ensures high { result ≤ Self.MAX }
    {
        self.value
    }
}

impl fmt::Display for DsdNumber {
    fn fmt<W: fmt::Write>(&self, f: &mut fmt::Formatter<W>) -> fmt::Result {
        write!(f, "{}", self.value)
    }
}

/// The line's number that 1 to 15 digits write.
pub fn read_dsd(text: &[u8]) -> Result<DsdNumber, ValueFault>
    ensures exact { result ≡ dsd_of text.now }
    ensures spelled { (dsd : ℕ) → (result ≡ Ok dsd ↔ SpellsDsd dsd text.now) }
{
    let number = number_within(text, u64::from(DsdNumber::MIN), u64::from(DsdNumber::MAX))?;
    Ok(DsdNumber::new(number as u16))
}
