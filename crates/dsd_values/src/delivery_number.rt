//! Delivery numbers.

ghost use Rattle.std.specs.Prelude.{◌≡◌, ◌↔◌, ◌<◌, ◌≤◌, ℕ, List, Ok, length, position};
ghost use Rattle.dsd_values.specs.Reading.{IsElementText, IsNumberText, delivery_number_of, is_no_number_byte};
ghost use Rattle.dsd_values.specs.Spelling.{SpellsDeliveryNumber};

use crate::fault::ValueFault;
use arrayvec::ArrayVec;
use std::marker::Model;

/// The most bytes of a delivery number.
pub const DELIVERY_NUMBER_BYTES: usize = 22;

/// The text that names a delivery: 1 to 22 element characters without a space.
#[derive(Debug, Drop, PartialEq, Eq, Hash)]
pub struct DeliveryNumber {
    text: ArrayVec<u8, DELIVERY_NUMBER_BYTES>,
}

impl Model for DeliveryNumber {
    ghost use Rattle.std.specs.Prelude.{◌<◌, ◌≤◌, ℕ, List, length};
    ghost use Rattle.dsd_values.specs.Reading.{IsNumberText};
    ghost use Rattle.dsd_values.specs.declared.delivery_number.TheConstants.{DELIVERY_NUMBER_BYTES};

    ghost Value = { List ℕ };

    ghost view = { λ n. n.text.items };

    ghost invariant = { λ n. IsNumberText n.text.items × (0 < length n.text.items) × (length n.text.items ≤ DELIVERY_NUMBER_BYTES) };

    ghost inverse = { λ n. record { text = record { items = n } } };
}

impl DeliveryNumber {
    #[tactic(auto, using(crate::proofs::Elements::delivery_element))]
    pub fn as_slice(&self) -> &[u8]
        ensures value { result.now ≡ self.now }
        ensures characters { IsNumberText result.now }
        ensures element { IsElementText result.now }
        ensures filled { 0 < length result.now }
        ensures short { length result.now ≤ DELIVERY_NUMBER_BYTES }
    {
        self.text.as_slice()
    }

    /// An equal number.
    pub fn copy(&self) -> DeliveryNumber
        ensures { result ≡ self.now }
    {
        let mut text = ArrayVec::new();
        let _ = text.try_extend_from_slice(self.text.as_slice());
        DeliveryNumber { text }
    }
}

/// The delivery number that is the text.
pub fn read_delivery_number(text: &[u8]) -> Result<DeliveryNumber, ValueFault>
    ensures exact { result ≡ delivery_number_of text.now }
    ensures spelled { (number : List ℕ) → (result ≡ Ok number ↔ SpellsDeliveryNumber number text.now) }
{
    if text.is_empty() {
        return Err(ValueFault::Empty);
    }
    if text.len() > DELIVERY_NUMBER_BYTES {
        return Err(ValueFault::TooLong(text.len()));
    }
    if let Some(place) = first_outside(text) {
        return Err(ValueFault::NotDigit(place));
    }
    let mut number = ArrayVec::new();
    let _ = number.try_extend_from_slice(text);
    Ok(DeliveryNumber { text: number })
}

fn first_outside(text: &[u8]) -> Option<usize>
    ensures { result ≡ position is_no_number_byte text.now }
{
    text.iter()
        .position(|byte| !(0x21..=0x7E).contains(byte) || *byte == b'*')
}
