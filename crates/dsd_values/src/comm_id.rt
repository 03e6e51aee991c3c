//! Communication ids.

ghost use Rattle.std.specs.Prelude.{◌≡◌, ◌↔◌, ℕ, List, Ok, position};
ghost use Rattle.dsd_values.specs.Reading.{IsElementText, IsIdText, comm_id_of, is_no_id_byte};
ghost use Rattle.dsd_values.specs.Spelling.{SpellsCommId};

use crate::fault::ValueFault;
use std::marker::Model;

/// How many characters a communication id has.
pub const COMM_ID_BYTES: usize = 10;

/// The id of one end of the line: ten letters `A` to `Z` and digits.
#[derive(Clone, Copy, Debug, PartialEq, Eq)]
pub struct CommId {
    id: [u8; 10],
}

impl Model for CommId {
    ghost use Rattle.std.specs.Prelude.{ℕ, List};
    ghost use Rattle.dsd_values.specs.Reading.{IsIdText};

    ghost Value = { List ℕ };

    ghost view = { λ c. c.id };

    ghost invariant = { λ c. IsIdText c.id };

    ghost inverse = { λ id. record { id = id } };
}

impl CommId {
    pub fn new(value: [u8; 10]) -> CommId
        requires { IsIdText value }
        ensures { result ≡ value }
    {
        CommId { id: value }
    }

    #[tactic(auto, using(crate::proofs::Elements::id_element))]
    pub fn get(self) -> [u8; 10]
        ensures value { result ≡ self }
        ensures characters { IsIdText result }
        ensures element { IsElementText result }
    {
        self.id
    }
}

/// The communication id that ten characters write.
pub fn read_comm_id(text: &[u8]) -> Result<CommId, ValueFault>
    ensures exact { result ≡ comm_id_of text.now }
    ensures spelled { (id : List ℕ) → (result ≡ Ok id ↔ SpellsCommId id text.now) }
{
    if text.is_empty() {
        return Err(ValueFault::Empty);
    }
    if text.len() > COMM_ID_BYTES {
        return Err(ValueFault::TooLong(text.len()));
    }
    if let Some(place) = first_outside(text) {
        return Err(ValueFault::NotDigit(place));
    }
    if text.len() < COMM_ID_BYTES {
        return Err(ValueFault::OutOfRange);
    }
    let mut id = [0; 10];
    id.copy_from_slice(text);
    Ok(CommId::new(id))
}

fn first_outside(text: &[u8]) -> Option<usize>
    ensures { result ≡ position is_no_id_byte text.now }
{
    text.iter().position(|byte| !byte.is_ascii_uppercase() && !byte.is_ascii_digit())
}
