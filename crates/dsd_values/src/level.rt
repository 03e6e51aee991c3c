//! Levels of proposals.

ghost use Rattle.std.specs.Prelude.{◌≡◌, ◌↔◌, ◌≤◌, ℕ, Ok};
ghost use Rattle.dsd_values.specs.Reading.{level_of};
ghost use Rattle.dsd_values.specs.Spelling.{SpellsLevel};

use crate::fault::ValueFault;
use crate::limits::HIGHEST_LEVEL;
use crate::number::number_within;
use std::fmt;
use std::marker::Model;

/// The level of a proposal. The base record has level 0, and each adjustment the next one.
#[derive(Clone, Copy, Debug, PartialEq, Eq, PartialOrd, Ord)]
pub struct Level {
    value: u8,
}

impl Model for Level {
    ghost use Rattle.std.specs.Prelude.{ℕ, ◌≤◌};
    ghost use Rattle.dsd_values.specs.declared.level.TheConstants.Level.{MAX};

    ghost Value = { ℕ };

    ghost view = { λ level. level.value };

    ghost invariant = { λ level. level.value ≤ MAX };

    ghost inverse = { λ n. record { value = n } };
}

impl Level {
    /// The greatest level.
    pub const MAX: u8 = HIGHEST_LEVEL;

    pub fn new(value: u8) -> Level
        requires { value ≤ Self.MAX }
        ensures { result ≡ value }
    {
        Level { value }
    }

    pub fn get(self) -> u8
        ensures value { result ≡ self }
        ensures within { result ≤ Self.MAX }
    {
        self.value
    }
}

impl fmt::Display for Level {
    fn fmt<W: fmt::Write>(&self, f: &mut fmt::Formatter<W>) -> fmt::Result {
        write!(f, "{}", self.value)
    }
}

/// The level that 1 to 15 digits write.
pub fn read_level(text: &[u8]) -> Result<Level, ValueFault>
    ensures exact { result ≡ level_of text.now }
    ensures spelled { (level : ℕ) → (result ≡ Ok level ↔ SpellsLevel level text.now) }
{
    let number = number_within(text, 0, u64::from(Level::MAX))?;
    Ok(Level::new(number as u8))
}
