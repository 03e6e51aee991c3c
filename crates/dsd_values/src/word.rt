//! Words: the texts of elements that have no further form.

ghost use Rattle.std.specs.Prelude.{◌≡◌, ◌↔◌, ◌≤◌, ℕ, List, Ok, [], length, position};
ghost use Rattle.dsd_values.specs.Reading.{IsElementText, filled_word_of, is_no_element_byte, word_between, word_of};
ghost use Rattle.dsd_values.specs.Spelling.{SpellsFilledWord, SpellsWord, SpellsWordBetween};

use crate::fault::ValueFault;
use crate::limits::WORD_BYTES;
use arrayvec::ArrayVec;
use std::marker::Model;

/// A text of at most 35 element characters: 20 to 7E hexadecimal other than `*`.
#[derive(Debug, Drop)]
pub struct Word {
    text: ArrayVec<u8, WORD_BYTES>,
}

impl Model for Word {
    ghost use Rattle.std.specs.Prelude.{◌≤◌, ℕ, List, length};
    ghost use Rattle.dsd_values.specs.Reading.{IsElementText};
    ghost use Rattle.dsd_values.specs.declared.limits.TheConstants.{WORD_BYTES};

    ghost Value = { List ℕ };

    ghost view = { λ word. word.text.items };

    ghost invariant = { λ word. IsElementText word.text.items × (length word.text.items ≤ WORD_BYTES) };
}

impl Word {
    /// The word of these characters, which are not judged again.
    pub fn new(text: &[u8]) -> Word
        requires characters { IsElementText text.now }
        requires short { length text.now ≤ WORD_BYTES }
        ensures { result ≡ text.now }
    {
        let mut copy = ArrayVec::new();
        let _ = copy.try_extend_from_slice(text);
        Word { text: copy }
    }

    /// The word of no characters.
    pub fn empty() -> Word
        ensures { result ≡ [] }
    {
        Word {
            text: ArrayVec::new(),
        }
    }

    pub fn as_slice(&self) -> &[u8]
        ensures value { result.now ≡ self.now }
        ensures characters { IsElementText result.now }
        ensures short { length result.now ≤ WORD_BYTES }
    {
        self.text.as_slice()
    }

    /// An equal word.
    pub fn copy(&self) -> Word
        ensures { result ≡ self.now }
    {
        Word::new(self.text.as_slice())
    }
}

/// The word that is the text. The empty text is the empty word.
pub fn read_word(text: &[u8]) -> Result<Word, ValueFault>
    ensures exact { result ≡ word_of text.now }
    ensures spelled { (word : List ℕ) → (result ≡ Ok word ↔ SpellsWord word text.now) }
{
    if text.len() > WORD_BYTES {
        return Err(ValueFault::TooLong(text.len()));
    }
    match first_outside(text) {
        Some(place) => Err(ValueFault::NotDigit(place)),
        None => Ok(Word::new(text)),
    }
}

/// The word that is the text, which may not be empty.
pub fn read_filled_word(text: &[u8]) -> Result<Word, ValueFault>
    ensures exact { result ≡ filled_word_of text.now }
    ensures spelled { (word : List ℕ) → (result ≡ Ok word ↔ SpellsFilledWord word text.now) }
{
    if text.is_empty() {
        return Err(ValueFault::Empty);
    }
    read_word(text)
}

/// The word that is the text, which has a least and a most length of its own, in bytes.
pub fn read_word_between(text: &[u8], least: usize, most: usize) -> Result<Word, ValueFault>
    requires { most ≤ WORD_BYTES }
    ensures exact { result ≡ word_between least most text.now }
    ensures spelled { (word : List ℕ) → (result ≡ Ok word ↔ SpellsWordBetween least most word text.now) }
{
    if text.is_empty() {
        return Err(ValueFault::Empty);
    }
    if text.len() > most {
        return Err(ValueFault::TooLong(text.len()));
    }
    match first_outside(text) {
        Some(place) => Err(ValueFault::NotDigit(place)),
        None if text.len() < least => Err(ValueFault::OutOfRange),
        None => Ok(Word::new(text)),
    }
}

fn first_outside(text: &[u8]) -> Option<usize>
    ensures { result ≡ position is_no_element_byte text.now }
{
    text.iter()
        .position(|byte| !(0x20..=0x7E).contains(byte) || *byte == b'*')
}
