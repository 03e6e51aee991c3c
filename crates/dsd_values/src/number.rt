//! Whole numbers, read from their digits.

ghost use Rattle.std.specs.Prelude.{◌≡◌, ◌↔◌, ◌<◌, ◌≤◌, ◌^◌, ℕ, Ok, IfOk, length};
ghost use Rattle.dsd_values.specs.Reading.{digits_or_place, number_of, plain_number_of};
ghost use Rattle.dsd_values.specs.Spelling.{SpellsNumber, SpellsPlainNumber};

use crate::fault::ValueFault;

/// The most bytes of a number's text.
pub(crate) const NUMBER_BYTES: usize = 15;

/// The number that 1 to 15 digits write. Leading zeros are read.
pub fn read_number(text: &[u8]) -> Result<u64, ValueFault>
    ensures exact { result ≡ plain_number_of text.now }
    ensures spelled { (number : ℕ) → (result ≡ Ok number ↔ SpellsPlainNumber number text.now) }
    ensures small { IfOk result (λ number. number < 10 ^ 15) }
{
    if text.is_empty() {
        return Err(ValueFault::Empty);
    }
    if text.len() > NUMBER_BYTES {
        return Err(ValueFault::TooLong(text.len()));
    }
    match digits(text) {
        Ok(number) => Ok(number),
        Err(place) => Err(ValueFault::NotDigit(place)),
    }
}

/// The number from low to high that 1 to 15 digits write.
pub(crate) fn number_within(text: &[u8], low: u64, high: u64) -> Result<u64, ValueFault>
    ensures exact { result ≡ number_of low high text.now }
    ensures spelled { (number : ℕ) → (result ≡ Ok number ↔ SpellsNumber low high number text.now) }
{
    let number = read_number(text)?;
    if number < low || number > high {
        return Err(ValueFault::OutOfRange);
    }
    Ok(number)
}

/// The number that the digits write, 0 for none, or the place of the first byte that is no digit.
pub(crate) fn digits(text: &[u8]) -> Result<u64, usize>
    requires { length text.now ≤ NUMBER_BYTES }
    ensures value { result ≡ digits_or_place text.now }
    ensures under { IfOk result (λ number. number < 10 ^ length text.now) }
    ensures small { IfOk result (λ number. number < 10 ^ 15) }
{
    let mut number = 0;
    for (place, byte) in text.iter().enumerate() {
        if !byte.is_ascii_digit() {
            return Err(place);
        }
        number = number * 10 + u64::from(*byte - b'0');
    }
    Ok(number)
}
