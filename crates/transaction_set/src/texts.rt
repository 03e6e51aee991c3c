//! Texts of elements: control numbers, flags, and values that may be left out.

ghost use Rattle.std.specs.Prelude.{◌≡◌, [], ◌∷◌};
ghost use Rattle.dsd_values.specs.Reading.{IsElementText};
ghost use Rattle.dsd_values.specs.Spelling.{flag_text};
ghost use Rattle.dsd_values.specs.Writing.{cost_text, number_text, percent_text};
ghost use Rattle.transaction_set.specs.SetWriting.{control_text, optional_text};

use arrayvec::ArrayVec;
use dsd_values::{
    Cents, Cost, Flag, Percent, Quantity, write_cents, write_cost, write_percent,
    write_plain_number, write_quantity,
};

/// A control number in digits, at least four of them.
pub fn control_digits(control: u32) -> ArrayVec<u8, 24>
    ensures text { result.items ≡ control_text control }
    ensures element { IsElementText result.items }
{
    let digits = write_plain_number(u64::from(control));
    let mut text = ArrayVec::new();
    for _ in 0..4usize.saturating_sub(digits.len()) {
        text.push(b'0');
    }
    let _ = text.try_extend_from_slice(digits.as_slice());
    text
}

/// The one letter of a flag.
pub fn flag_letter(flag: Flag) -> u8
    ensures { result ∷ [] ≡ flag_text flag }
{
    match flag {
        Flag::Debit => b'D',
        Flag::Credit => b'C',
    }
}

pub fn optional_cost(value: Option<Cost>) -> ArrayVec<u8, 24>
    ensures { result.items ≡ optional_text cost_text value }
{
    match value {
        Some(value) => write_cost(value),
        None => ArrayVec::new(),
    }
}

pub fn optional_quantity(value: Option<Quantity>) -> ArrayVec<u8, 24>
    ensures { result.items ≡ optional_text number_text value }
{
    match value {
        Some(value) => write_quantity(value),
        None => ArrayVec::new(),
    }
}

pub fn optional_cents(value: Option<Cents>) -> ArrayVec<u8, 24>
    ensures { result.items ≡ optional_text number_text value }
{
    match value {
        Some(value) => write_cents(value),
        None => ArrayVec::new(),
    }
}

pub fn optional_percent(value: Option<Percent>) -> ArrayVec<u8, 24>
    ensures { result.items ≡ optional_text percent_text value }
{
    match value {
        Some(value) => write_percent(value),
        None => ArrayVec::new(),
    }
}
