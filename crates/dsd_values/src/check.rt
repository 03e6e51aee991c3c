//! Integrity values, written as four hexadecimal digits.

ghost use Rattle.std.specs.Prelude.{◌≡◌, ◌↔◌, ℕ, length, not, position, None, Ok};
ghost use Rattle.std.specs.Str.Parse.{digits_value};
ghost use Rattle.dsd_values.specs.Reading.{check_of, is_no_check_byte};
ghost use Rattle.dsd_values.specs.Spelling.{SpellsCheck};

use crate::fault::ValueFault;
use std::fmt;
use std::marker::Model;

/// How many digits a check has.
const CHECK_BYTES: usize = 4;

/// The integrity value of a set.
#[derive(Clone, Copy, Debug, PartialEq, Eq, PartialOrd, Ord)]
pub struct Check {
    value: u16,
}

impl Model for Check {
    ghost use Rattle.std.specs.Prelude.{ℕ, ◌<◌, ◌^◌};

    ghost Value = { ℕ };

    ghost view = { λ check. check.value };

    ghost invariant = { λ check. check.value < 2 ^ 16 };

    ghost inverse = { λ n. record { value = n } };
}

impl Check {
    pub fn new(value: u16) -> Check
        ensures { result ≡ value }
    {
        Check { value }
    }

    pub fn get(self) -> u16
        ensures { result ≡ self }
    {
        self.value
    }
}

impl fmt::Display for Check {
    fn fmt<W: fmt::Write>(&self, f: &mut fmt::Formatter<W>) -> fmt::Result {
        write!(f, "{:04X}", self.value)
    }
}

/// The check that four digits write, `0` to `9` and `A` to `F` alone.
pub fn read_check(text: &[u8]) -> Result<Check, ValueFault>
    ensures exact { result ≡ check_of text.now }
    ensures spelled { (check : ℕ) → (result ≡ Ok check ↔ SpellsCheck check text.now) }
{
    if text.is_empty() {
        return Err(ValueFault::Empty);
    }
    if text.len() > CHECK_BYTES {
        return Err(ValueFault::TooLong(text.len()));
    }
    if let Some(place) = first_outside(text) {
        return Err(ValueFault::NotDigit(place));
    }
    if text.len() < CHECK_BYTES {
        return Err(ValueFault::OutOfRange);
    }
    Ok(Check::new(hexadecimal(text)))
}

fn first_outside(text: &[u8]) -> Option<usize>
    ensures { result ≡ position is_no_check_byte text.now }
{
    text.iter().position(|byte| !is_check_byte(*byte))
}

fn is_check_byte(byte: u8) -> bool
    ensures { result ≡ not (is_no_check_byte byte) }
{
    byte.is_ascii_digit() || (b'A'..=b'F').contains(&byte)
}

fn hexadecimal(text: &[u8]) -> u16
    requires digits { position is_no_check_byte text.now ≡ None }
    requires long { length text.now ≡ 4 }
    ensures { result ≡ digits_value 16 text.now }
{
    let mut bytes = [0u8; 2];
    let _ = hex::decode_to_slice(text, &mut bytes);
    u16::from_be_bytes(bytes)
}
