//! A text as its lines.

ghost use Rattle.std.specs.Prelude.{◌≡◌, ◌<◌, ◌≤◌, ◌+◌, [], ◌∷◌, length, drop, MatchOption};
ghost use Rattle.std.specs.List.{position_or_len};
ghost use Rattle.plain_lines.specs.PlainText.{is_line_feed, lines_at, lines_in};

use crate::line::PlainLine;
use memchr::memchr;
use std::marker::Model;

/// Reads a text line by line. A contract sees it as the lines that are still to come.
#[derive(Debug, Drop)]
pub struct PlainLines<'a> {
    rest: &'a [u8],
    place: usize,
}

impl<'a> Model for PlainLines<'a> {
    ghost use Rattle.std.specs.Prelude.{◌+◌, ◌<◌, ◌^◌, length};
    ghost use Rattle.plain_lines.specs.PlainText.{LinesLeft, lines_at};

    ghost Value = { LinesLeft };

    ghost view = { λ lines. lines_at lines.place lines.rest.now };

    ghost invariant = { λ lines. lines.place + length lines.rest.now < 2 ^ 64 };
}

impl<'a> PlainLines<'a> {
    pub fn new(text: &'a [u8]) -> PlainLines<'a>
        ensures { result ≡ lines_in text.now }
    {
        PlainLines {
            rest: text,
            place: 0,
        }
    }

    /// Where the text ends.
    pub fn end(&self) -> usize
        ensures { result ≡ self.now.end }
    {
        self.place + self.rest.len()
    }

    /// The next line.
    pub fn next(&mut self) -> Option<PlainLine<'a>>
        ensures line { MatchOption result ((self.old.lines ≡ []) × (self.new.lines ≡ [])) (λ line. self.old.lines ≡ line ∷ self.new.lines) }
        ensures end { self.new.end ≡ self.old.end }
    {
        if self.rest.is_empty() {
            return None;
        }
        let (line, size) = first_line(self.place, self.rest);
        self.rest = behind(self.rest, size);
        self.place += size;
        Some(line)
    }
}

/// The first line of a text that starts at this place, and how many bytes it has with what ends it.
#[tactic(auto, using(crate::proofs::Cutting::ended_first, crate::proofs::Cutting::unended_first))]
fn first_line<'a>(place: usize, text: &'a [u8]) -> (PlainLine<'a>, usize)
    requires { 0 < length text.now }
    ensures inside { result.1 ≤ length text.now }
    ensures line { (lines_at place text.now).lines ≡ result.0 ∷ (lines_at (place + result.1) (drop result.1 text.now)).lines }
{
    let size = first_size(text);
    if size == text.len() {
        (PlainLine::unended(place, text), size)
    } else {
        (PlainLine::ended(place, &text[..size]), size + 1)
    }
}

/// How many bytes stand in front of the first LF.
#[tactic(auto, using(crate::proofs::LineFeeds::feed_is, crate::proofs::Cutting::size_within))]
fn first_size(text: &[u8]) -> usize
    ensures first { result ≡ position_or_len is_line_feed text.now }
    ensures within { result ≤ length text.now }
{
    memchr(b'\n', text).unwrap_or(text.len())
}

/// What stands behind so many bytes.
fn behind(text: &[u8], size: usize) -> &[u8]
    requires { size ≤ length text.now }
    ensures { result.now ≡ drop size text.now }
{
    &text[size..]
}
