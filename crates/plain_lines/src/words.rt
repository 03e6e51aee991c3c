//! The words of a line, by where they end.

ghost use Rattle.std.specs.Prelude.{◌≡◌, ◌≤◌, ◌-◌, [], drop, length, not, take};
ghost use Rattle.std.specs.List.{list_any, slice_index_or};
ghost use Rattle.plain_lines.specs.PlainText.{are_so_many as has_count, ends_from, is_nothing, words_of};

use crate::pieces::{are_words, piece};
use arrayvec::ArrayVec;
use std::marker::Model;

/// How many ends are kept. A line with as many words or more is cut anew at each call.
const ENDS_KEPT: usize = 16;

/// A text of words with one space between them, and where its first words end. A contract sees the words.
#[derive(Debug, Drop)]
pub(crate) struct Words<'a> {
    text: &'a [u8],
    ends: ArrayVec<usize, ENDS_KEPT>,
}

impl<'a> Model for Words<'a> {
    ghost use Rattle.std.specs.Prelude.{◌≡◌, ℕ, List, take};
    ghost use Rattle.plain_lines.specs.PlainText.{ends_from, words_of};
    ghost use Rattle.plain_lines.specs.declared.words.TheConstants.{ENDS_KEPT};

    ghost Value = { List (List ℕ) };

    ghost view = { λ words. words_of words.text.now };

    ghost invariant = { λ words. words.ends.items ≡ take ENDS_KEPT (ends_from 0 (words_of words.text.now)) };
}

impl<'a> Words<'a> {
    pub(crate) fn new(text: &'a [u8]) -> Words<'a>
        ensures { result ≡ words_of text.now }
    {
        Words {
            text,
            ends: ends_in(text),
        }
    }

    /// The word with this number, the first one having 0; a word that is not there is empty.
    pub(crate) fn word(&self, number: usize) -> &'a [u8]
        ensures { result.now ≡ slice_index_or self.now number [] }
    {
        if self.ends.is_full() {
            piece(self.text, number)
        } else {
            word_at(self.text, self.ends.as_slice(), number)
        }
    }

    /// Whether they are so many, none of them empty.
    pub(crate) fn are_so_many(&self, count: usize) -> bool
        ensures { result ≡ has_count count self.now }
    {
        if self.ends.is_full() {
            are_words(self.text, count)
        } else {
            have_count(self.text, self.ends.as_slice(), count)
        }
    }
}

/// Where the words of a text end, as many of them as are kept.
fn ends_in(text: &[u8]) -> ArrayVec<usize, ENDS_KEPT>
    ensures { result.items ≡ take ENDS_KEPT (ends_from 0 (words_of text.now)) }
{
    let mut ends = ArrayVec::new();
    let mut place = 0;
    while place < text.len() {
        if text[place] == b' ' {
            if ends.is_full() {
                return ends;
            }
            ends.push(place);
        }
        place += 1;
    }
    if !ends.is_full() {
        ends.push(place);
    }
    ends
}

/// The word with this number of a text whose words end there.
#[tactic(auto, using(crate::proofs::Ends::word_past, crate::proofs::Ends::word_first, crate::proofs::Ends::word_behind, crate::proofs::Ends::end_inside, crate::proofs::Ends::end_onward))]
fn word_at<'a>(text: &'a [u8], ends: &[usize], number: usize) -> &'a [u8]
    requires { ends.now ≡ ends_from 0 (words_of text.now) }
    ensures { result.now ≡ slice_index_or (words_of text.now) number [] }
{
    if number >= ends.len() {
        &[]
    } else if number == 0 {
        between(text, 0, ends[0])
    } else {
        between(text, ends[number - 1] + 1, ends[number])
    }
}

fn between(text: &[u8], start: usize, end: usize) -> &[u8]
    requires onward { start ≤ end }
    requires inside { end ≤ length text.now }
    ensures { result.now ≡ take (end - start) (drop start text.now) }
{
    &text[start..end]
}

/// Whether the words of a text that end there are so many, none of them empty.
#[tactic(auto, using(crate::proofs::Ends::so_many, crate::proofs::Ends::other_many))]
fn have_count(text: &[u8], ends: &[usize], count: usize) -> bool
    requires { ends.now ≡ ends_from 0 (words_of text.now) }
    ensures { result ≡ has_count count (words_of text.now) }
{
    ends.len() == count && are_filled(text, ends)
}

/// Whether none of the words that end there is empty.
fn are_filled(text: &[u8], ends: &[usize]) -> bool
    requires { ends.now ≡ ends_from 0 (words_of text.now) }
    ensures { result ≡ not (list_any is_nothing (words_of text.now)) }
{
    let mut number = 0;
    while number < ends.len() {
        if word_at(text, ends, number).is_empty() {
            return false;
        }
        number += 1;
    }
    true
}
