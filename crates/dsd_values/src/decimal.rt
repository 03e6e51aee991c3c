//! Numbers with a point, read in units of the last decimal that they may have.

ghost use Rattle.std.specs.Prelude.{◌≡◌, ◌↔◌, ℕ, Ok, ◌+◌, ◌-◌, ◌*◌, ◌<◌, ◌≤◌, ◌^◌, IfOk, length, position};
ghost use Rattle.std.specs.Char.{is_ascii_digit};
ghost use Rattle.std.specs.List.{list_any};
ghost use Rattle.std.specs.Str.Parse.{digits_value};
ghost use Rattle.dsd_values.specs.Spelling.{SpellsDecimal};
ghost use Rattle.dsd_values.specs.Reading.{decimal_of, decimal_part, is_point, outside_parts, place_or, plain_decimal_of, whole_part};

use crate::fault::ValueFault;
use crate::number::{NUMBER_BYTES, digits};

/// The number of units at so many places after the point, not judged against a range.
#[tactic(auto, unfolding(crate::specs::Reading::decimal_value))]
pub(crate) fn read_decimal(text: &[u8], places: u32) -> Result<u64, ValueFault>
    requires { places ≤ 4 }
    ensures { result ≡ plain_decimal_of places text.now }
{
    if text.is_empty() {
        return Err(ValueFault::Empty);
    }
    if text.len() > NUMBER_BYTES {
        return Err(ValueFault::TooLong(text.len()));
    }
    if !has_digit(text) {
        return Err(ValueFault::NotDigit(0));
    }
    let (whole, decimals) = at_point(text);
    match both_parts(whole, decimals) {
        Err(place) => Err(ValueFault::NotDigit(place)),
        Ok(_) if decimals.len() > places as usize => {
            Err(ValueFault::TooManyDecimals(decimals.len()))
        }
        Ok((units, rest)) => Ok(scaled(units, rest, decimals.len() as u32, places)),
    }
}

/// The number of at most so many units.
pub(crate) fn decimal_within(text: &[u8], places: u32, high: u64) -> Result<u64, ValueFault>
    requires { places ≤ 4 }
    ensures exact { result ≡ decimal_of places high text.now }
    ensures spelled { (units : ℕ) → (result ≡ Ok units ↔ SpellsDecimal places high units text.now) }
{
    let units = read_decimal(text, places)?;
    if units > high {
        return Err(ValueFault::OutOfRange);
    }
    Ok(units)
}

fn has_digit(text: &[u8]) -> bool
    ensures { result ≡ list_any is_ascii_digit text.now }
{
    text.iter().any(|byte| byte.is_ascii_digit())
}

/// What stands before the first point, and after it.
fn at_point(text: &[u8]) -> (&[u8], &[u8])
    ensures whole { result.0.now ≡ whole_part text.now }
    ensures decimals { result.1.now ≡ decimal_part text.now }
{
    match first_point(text) {
        Some(place) => (&text[..place], &text[place + 1..]),
        None => (text, &[]),
    }
}

fn first_point(text: &[u8]) -> Option<usize>
    ensures { result ≡ position is_point text.now }
{
    text.iter().position(|byte| *byte == b'.')
}

/// The numbers before and after the point, or the place of the first byte that is no digit.
fn both_parts(whole: &[u8], decimals: &[u8]) -> Result<(u64, u64), usize>
    requires whole { length whole.now ≤ NUMBER_BYTES }
    requires decimals { length decimals.now ≤ NUMBER_BYTES }
    ensures value { result ≡ place_or (outside_parts whole.now decimals.now) (digits_value 10 whole.now, digits_value 10 decimals.now) }
    ensures whole_under { IfOk result (λ parts. parts.0 < 10 ^ 15) }
    ensures decimals_under { IfOk result (λ parts. parts.1 < 10 ^ length decimals.now) }
{
    match (digits(whole), digits(decimals)) {
        (Err(place), _) => Err(place),
        (Ok(_), Err(place)) => Err(whole.len() + 1 + place),
        (Ok(units), Ok(rest)) => Ok((units, rest)),
    }
}

fn scaled(units: u64, rest: u64, decimals: u32, places: u32) -> u64
    requires units { units < 10 ^ 15 }
    requires rest { rest < 10 ^ decimals }
    requires few { decimals ≤ places }
    requires places { places ≤ 4 }
    ensures { result ≡ units * 10 ^ places + rest * 10 ^ (places - decimals) }
{
    units * power_of_ten(places) + rest * power_of_ten(places - decimals)
}

/// From a table: `pow` takes a loop where the exponent is not known before.
fn power_of_ten(exponent: u32) -> u64
    requires { exponent ≤ 4 }
    ensures { result ≡ 10 ^ exponent }
{
    match exponent {
        0 => 1,
        1 => 10,
        2 => 100,
        3 => 1_000,
        _ => 10_000,
    }
}
