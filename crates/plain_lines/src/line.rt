//! Lines of a text.

ghost use Rattle.std.specs.Prelude.{◌≡◌, bytes_eq, codes, false};
ghost use Rattle.std.specs.Str.Lines.{strip_carriage_return};
ghost use Rattle.plain_lines.specs.PlainText.{ended_line, has_words as has_count, leads as leads_with, word_of_line, words_of};

use crate::words::Words;
use std::marker::Model;

/// A line, without what ends it. A contract sees its words.
#[derive(Debug, Drop)]
pub struct PlainLine<'a> {
    place: usize,
    words: Words<'a>,
    ended: bool,
}

impl<'a> Model for PlainLine<'a> {
    ghost use Rattle.plain_lines.specs.PlainText.{LineSeen};

    ghost Value = { LineSeen };

    ghost view = { λ line. record { place = line.place; words = line.words; ended = line.ended } };
}

impl<'a> PlainLine<'a> {
    /// A line that ends with an LF, in front of which a CR may stand.
    pub(crate) fn ended(place: usize, text: &'a [u8]) -> PlainLine<'a>
        ensures { result ≡ ended_line place text.now }
    {
        PlainLine {
            place,
            words: Words::new(without_return(text)),
            ended: true,
        }
    }

    /// A line at which the text ends.
    pub(crate) fn unended(place: usize, text: &'a [u8]) -> PlainLine<'a>
        ensures { result ≡ record { place = place; words = words_of text.now; ended = false } }
    {
        PlainLine {
            place,
            words: Words::new(text),
            ended: false,
        }
    }

    /// Where it starts.
    pub fn place(&self) -> usize
        ensures { result ≡ self.now.place }
    {
        self.place
    }

    /// Whether its leading word is this one.
    pub fn leads(&self, word: &[u8]) -> bool
        ensures { result ≡ leads_with self.now word.now }
    {
        self.words.word(0) == word
    }

    /// Whether it ends, and has so many words.
    pub fn has_words(&self, count: usize) -> bool
        ensures { result ≡ has_count self.now count }
    {
        self.ended && self.words.are_so_many(count)
    }

    /// The word with this number, the leading one having 0. `-` is the empty word, and so is one that is not there.
    pub fn word(&self, number: usize) -> &'a [u8]
        ensures { result.now ≡ word_of_line self.now number }
    {
        let word = self.words.word(number);
        if is_dash(word) { &[] } else { word }
    }
}

fn is_dash(word: &[u8]) -> bool
    ensures { result ≡ bytes_eq word.now (codes "-") }
{
    matches!(word, [b'-'])
}

/// A text without the CR at its end.
fn without_return(text: &[u8]) -> &[u8]
    ensures { result.now ≡ strip_carriage_return text.now }
{
    let count = text.len();
    if count > 0 && text[count - 1] == b'\r' {
        &text[..count - 1]
    } else {
        text
    }
}
