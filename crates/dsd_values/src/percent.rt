//! Percents.

ghost use Rattle.std.specs.Prelude.{◌≡◌, ◌↔◌, ◌≤◌, ℕ, Ok};
ghost use Rattle.dsd_values.specs.Reading.{percent_of};
ghost use Rattle.dsd_values.specs.Spelling.{SpellsPercent};

use crate::decimal::decimal_within;
use crate::fault::ValueFault;
use std::marker::Model;

/// Hundredths of a percent.
#[derive(Clone, Copy, Debug, PartialEq, Eq, PartialOrd, Ord)]
pub struct Percent {
    value: u32,
}

impl Model for Percent {
    ghost use Rattle.std.specs.Prelude.{ℕ, ◌≤◌};
    ghost use Rattle.dsd_values.specs.declared.percent.TheConstants.Percent.{MAX};

    ghost Value = { ℕ };

    ghost view = { λ percent. percent.value };

    ghost invariant = { λ percent. percent.value ≤ MAX };

    ghost inverse = { λ n. record { value = n } };
}

impl Percent {
    /// The greatest percent.
    pub const MAX: u32 = 99_999;

    pub fn new(value: u32) -> Percent
        requires { value ≤ Self.MAX }
        ensures { result ≡ value }
    {
        Percent { value }
    }

    pub fn get(self) -> u32
        ensures value { result ≡ self }
        ensures within { result ≤ Self.MAX }
    {
        self.value
    }
}

/// How many digits may stand after the point of a percent.
pub const PERCENT_DECIMALS: u32 = 2;

/// The percent that digits write, with a point and up to two decimals where it has some.
pub fn read_percent(text: &[u8]) -> Result<Percent, ValueFault>
    ensures exact { result ≡ percent_of text.now }
    ensures spelled { (percent : ℕ) → (result ≡ Ok percent ↔ SpellsPercent percent text.now) }
{
    let number = decimal_within(text, PERCENT_DECIMALS, u64::from(Percent::MAX))?;
    Ok(Percent::new(number as u32))
}
