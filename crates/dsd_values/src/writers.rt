//! The texts of values.

ghost use Rattle.std.specs.Prelude.{◌≡◌, ◌+◌, ◌<◌, ◌≤◌, ◌^◌, ◌++◌, ℕ, Ok, length};
ghost use Rattle.std.specs.Fmt.{decimal};
ghost use Rattle.std.specs.Int.{to_be_bytes, w16};
ghost use Rattle.arrayvec.specs.ArrayVec.{array_vec_len};
ghost use Rattle.hex.specs.Hex.{encode_lower};
ghost use Rattle.dsd_values.specs.Calendar.{day_of};
ghost use Rattle.dsd_values.specs.Reading.{IsElementText, cents_of, check_of, cost_of, dsd_of, level_of, number_of, percent_of, plain_number_of, quantity_of, total_quantity_of};
ghost use Rattle.dsd_values.specs.Writing.{check_text, cost_text, day_text, decimal_text, decimals_text, number_text, percent_text, two_digits};

use crate::cents::Cents;
use crate::check::Check;
use crate::cost::{COST_DECIMALS, Cost};
use crate::day::Day;
use crate::dsd_number::DsdNumber;
use crate::level::Level;
use crate::percent::{PERCENT_DECIMALS, Percent};
use crate::quantity::{MOST_TOTAL_QUANTITY, Quantity};
use arrayvec::ArrayVec;

/// The cents in digits.
pub fn write_cents(value: Cents) -> ArrayVec<u8, 24>
    ensures text { result.items ≡ number_text value }
    ensures read_back { cents_of result.items ≡ Ok value }
    ensures element { IsElementText result.items }
{
    write_number(value.get())
}

/// The quantity of a line in digits.
pub fn write_quantity(value: Quantity) -> ArrayVec<u8, 24>
    ensures text { result.items ≡ number_text value }
    ensures read_back { quantity_of result.items ≡ Ok value }
    ensures element { IsElementText result.items }
{
    write_number(u64::from(value.get()))
}

/// The quantity of a whole delivery in digits.
pub fn write_total_quantity(value: u32) -> ArrayVec<u8, 24>
    requires { value ≤ MOST_TOTAL_QUANTITY }
    ensures text { result.items ≡ number_text value }
    ensures read_back { total_quantity_of result.items ≡ Ok value }
    ensures element { IsElementText result.items }
{
    write_number(u64::from(value))
}

/// Any number in digits.
#[tactic(auto, using(crate::proofs::Again::twenty_digits, crate::proofs::Again::plain_read_back, crate::proofs::Again::decimal_text_element))]
pub fn write_plain_number(value: u64) -> ArrayVec<u8, 24>
    ensures text { result.items ≡ number_text value }
    ensures read_back { value < 10 ^ 15 → plain_number_of result.items ≡ Ok value }
    ensures element { IsElementText result.items }
{
    let mut text = ArrayVec::new();
    push_number(&mut text, value);
    text
}

/// The cost in units of money, with up to four decimals.
pub fn write_cost(value: Cost) -> ArrayVec<u8, 24>
    ensures text { result.items ≡ cost_text value }
    ensures read_back { cost_of result.items ≡ Ok value }
    ensures element { IsElementText result.items }
{
    write_decimal(value.get(), COST_DECIMALS)
}

/// The percent, with up to two decimals.
pub fn write_percent(value: Percent) -> ArrayVec<u8, 24>
    ensures text { result.items ≡ percent_text value }
    ensures read_back { percent_of result.items ≡ Ok value }
    ensures element { IsElementText result.items }
{
    write_decimal(u64::from(value.get()), PERCENT_DECIMALS)
}

/// The level in digits.
pub fn write_level(value: Level) -> ArrayVec<u8, 24>
    ensures text { result.items ≡ number_text value }
    ensures read_back { level_of result.items ≡ Ok value }
    ensures element { IsElementText result.items }
{
    write_number(u64::from(value.get()))
}

/// The line's number in digits.
pub fn write_dsd(value: DsdNumber) -> ArrayVec<u8, 24>
    ensures text { result.items ≡ number_text value }
    ensures read_back { dsd_of result.items ≡ Ok value }
    ensures element { IsElementText result.items }
{
    write_number(u64::from(value.get()))
}

/// Four digits, with upper-case letters.
pub fn write_check(value: Check) -> ArrayVec<u8, 24>
    ensures text { result.items ≡ check_text value }
    ensures read_back { check_of result.items ≡ Ok value }
    ensures element { IsElementText result.items }
{
    let digits = lower_case(value.get());
    let mut text = ArrayVec::new();
    for digit in digits {
        text.push(digit.to_ascii_uppercase());
    }
    text
}

/// Eight digits: the year, the month and the day.
pub fn write_day(value: Day) -> ArrayVec<u8, 24>
    ensures text { result.items ≡ day_text value }
    ensures read_back { day_of result.items ≡ Ok value }
    ensures element { IsElementText result.items }
{
    let mut text = ArrayVec::new();
    push_two(&mut text, value.year() / 100);
    push_two(&mut text, value.year() % 100);
    push_two(&mut text, u16::from(value.month()));
    push_two(&mut text, u16::from(value.day()));
    text
}

/// The four digits of a check, with lower-case letters.
fn lower_case(check: u16) -> [u8; 4]
    ensures { result ≡ encode_lower (to_be_bytes w16 check) }
{
    let mut digits = [0u8; 4];
    let _ = hex::encode_to_slice(check.to_be_bytes().as_slice(), &mut digits);
    digits
}

/// The digits of a number. Any bounds that hold it read it back.
#[tactic(auto, using(crate::proofs::Decimals::short_decimal))]
fn write_number(number: u64) -> ArrayVec<u8, 24>
    requires { number < 10 ^ 15 }
    ensures text { result.items ≡ number_text number }
    ensures read_back { (low high : ℕ) → low ≤ number → number ≤ high → number_of low high result.items ≡ Ok number }
    ensures element { IsElementText result.items }
{
    let mut text = ArrayVec::new();
    push_number(&mut text, number);
    text
}

/// A number of units of the last of so many places.
#[tactic(auto, using(crate::proofs::Decimals::ten_pos, crate::proofs::Decimals::short_quotient))]
fn write_decimal(units: u64, places: u32) -> ArrayVec<u8, 24>
    requires units { units ≤ 999_999_999 }
    requires places { places ≤ 4 }
    ensures { result.items ≡ decimal_text places units }
{
    let unit = 10u64.pow(places);
    let whole = units / unit;
    let rest = units % unit;
    let mut text = ArrayVec::new();
    if whole > 0 || rest == 0 {
        push_number(&mut text, whole);
    }
    if rest > 0 {
        text.push(b'.');
        push_decimals(&mut text, places, rest);
    }
    text
}

#[tactic(auto, using(std::proofs::lemmas::Fmt::decimal_step, std::proofs::lemmas::Fmt::decimal_digit, std::proofs::lemmas::Grind::common_steps))]
fn push_number(text: &mut ArrayVec<u8, 24>, number: u64)
    requires { array_vec_len text.old + length (decimal number) ≤ 24 }
    ensures { text.new.items ≡ text.old.items ++ decimal number }
{
    if number >= 10 {
        push_number(text, number / 10);
    }
    text.push(b'0' + (number % 10) as u8);
}

/// The digits of what is behind the point, up to the last that is not 0.
#[tactic(auto, using(crate::proofs::Decimals::ten_pos, crate::proofs::Decimals::decimals_none, crate::proofs::Decimals::decimals_more, crate::proofs::Decimals::digit_below, crate::proofs::Decimals::rest_below, std::proofs::lemmas::Grind::common_steps))]
fn push_decimals(text: &mut ArrayVec<u8, 24>, places: u32, rest: u64)
    requires places { places ≤ 4 }
    requires rest { rest < 10 ^ places }
    requires room { array_vec_len text.old + places ≤ 24 }
    ensures { text.new.items ≡ text.old.items ++ decimals_text places rest }
{
    if rest == 0 {
        return;
    }
    let unit = 10u64.pow(places - 1);
    text.push(b'0' + (rest / unit) as u8);
    push_decimals(text, places - 1, rest % unit);
}

fn push_two(text: &mut ArrayVec<u8, 24>, number: u16)
    requires number { number < 100 }
    requires room { array_vec_len text.old + 2 ≤ 24 }
    ensures { text.new.items ≡ text.old.items ++ two_digits number }
{
    text.push(b'0' + (number / 10) as u8);
    text.push(b'0' + (number % 10) as u8);
}
