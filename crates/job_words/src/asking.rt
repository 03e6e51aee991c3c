//! Asking `clap`.

ghost use Rattle.std.specs.Prelude.{◌≡◌, false, true, IfErr, IfOk, map, string_bytes};
ghost use Rattle.std.specs.List.{list_all};
ghost use Rattle.clap.specs.Words.{kind_of, takes};
ghost use Rattle.job_words.specs.Command.{dex};
ghost use Rattle.job_words.specs.Shapes.{AreShaped, is_plain};

use crate::command::commands;
use clap::error::ErrorKind;
use clap::{ArgMatches, Error};
use std::alloc::{AllocError, Global};

/// Whether the words, those after the program's name, are taken. One that is empty or begins with `-` is refused before `clap` is asked.
pub fn are_taken(alloc: Global, words: &[String]) -> Result<bool, AllocError>
    // No words of the shape of a job are refused.
    ensures { IfOk result (λ taken. taken ≡ false → AreShaped (map string_bytes words.now) → ⊥) }
{
    if !are_plain(words) {
        return Ok(false);
    }
    match ask(alloc, words) {
        Ok(_) => Ok(true),
        Err(error) => refused(&error),
    }
}

fn are_plain(words: &[String]) -> bool
    ensures { result ≡ list_all is_plain (map string_bytes words.now) }
{
    for word in words {
        if !is_plain_word(word.as_str()) {
            return false;
        }
    }
    true
}

fn is_plain_word(word: &str) -> bool
    ensures { result ≡ is_plain word.now }
{
    match word.as_bytes() {
        [] => false,
        [first, ..] => *first != b'-',
    }
}

/// What `clap` finds in the words.
fn ask<'a>(alloc: Global, words: &'a [String]) -> Result<ArgMatches<'a>, Error>
    ensures { takes dex (map string_bytes words.entry.now) ≡ true → IfErr result (λ error. kind_of error ≡ ErrorKind.OutOfMemory) }
{
    commands(alloc)?.try_get_matches_from(words)
}

/// That words are refused, unless memory is wanting.
fn refused(error: &Error) -> Result<bool, AllocError>
    ensures wanting { kind_of error.now ≡ ErrorKind.OutOfMemory → IfOk result (λ taken. ⊥) }
    ensures answer { IfOk result (λ taken. taken ≡ false) }
{
    match error.kind() {
        ErrorKind::OutOfMemory => Err(AllocError),
        _ => Ok(false),
    }
}
