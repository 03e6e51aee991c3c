//! The words of the command line.

ghost use Rattle.std.specs.Prelude.{◌≡◌, ◌↔◌, IfOk, IsTrue, IsErrOf, map, string_bytes, [], ◌∷◌};
ghost use Rattle.dex_cli.specs.Words.{AsksEnd, AsksJournal, IsOfNoJob, Spells};

use crate::end_words::{EndNames, read_end};
use crate::fault::WordsFault;
use crate::format_words::{NewJournal, read_format};
use crate::load_words::read_load;
use crate::name::Name;
use crate::show_words::read_show;
use job_words::are_taken;
use std::alloc::Global;

/// What is checked.
#[derive(Clone, Copy, Debug, PartialEq, Eq)]
pub enum CheckKind {
    /// One set.
    Set,
    /// A transmission of sets.
    Text,
    /// The bytes captured from one direction of the line.
    Line,
}

/// What the program is to do.
#[derive(Debug, Drop)]
pub enum Job {
    /// `check set`, `check text`, `check line`: reads the source and prints what stands in it.
    Check(CheckKind),
    /// `format ROLE OWN PEER JOURNAL`: makes a journal.
    Format(NewJournal),
    /// `show JOURNAL`: prints the entries of a journal.
    Show(Name),
    /// `handheld JOURNAL PORT`: runs the supplier's end, with the drafts of the source.
    Handheld(EndNames),
    /// `receiver JOURNAL PORT`: runs the receiver's end, with the counts of the source.
    Receiver(EndNames),
    /// `replay`: plays the script of the source, with both ends in memory.
    Replay,
    /// `load N`: plays the route of so many deliveries, with both ends in memory.
    Load(u32),
}

/// The job that the words, those after the program's name, spell. Only a journal's name takes memory that may be wanting.
pub fn read_words(alloc: Global, words: &[String]) -> Result<Job, WordsFault>
    ensures found { IfOk result (λ job. Spells job (map string_bytes words.now)) }
    ensures refused { IsErrOf result WordsFault.Refused → IsOfNoJob (map string_bytes words.now) }
    ensures memory { IsErrOf result WordsFault.Memory → AsksJournal (map string_bytes words.now) }
{
    match are_taken(alloc, words) {
        Ok(false) => Err(WordsFault::Refused),
        Ok(true) => read_taken(alloc, words),
        // Without memory to ask `clap` the words are looked at alone.
        Err(_) => read_taken(alloc, words),
    }
}

/// The same of words that were not refused for their shape.
fn read_taken(alloc: Global, words: &[String]) -> Result<Job, WordsFault>
    ensures found { IfOk result (λ job. Spells job (map string_bytes words.now)) }
    ensures refused { IsErrOf result WordsFault.Refused → IsOfNoJob (map string_bytes words.now) }
    ensures memory { IsErrOf result WordsFault.Memory → AsksJournal (map string_bytes words.now) }
{
    if are(words, "check", "set") {
        return Ok(Job::Check(CheckKind::Set));
    }
    if are(words, "check", "text") {
        return Ok(Job::Check(CheckKind::Text));
    }
    if are(words, "check", "line") {
        return Ok(Job::Check(CheckKind::Line));
    }
    if is_only(words, "replay") {
        return Ok(Job::Replay);
    }
    if let Some(count) = read_load(words) {
        return Ok(Job::Load(count));
    }
    read_journal_job(alloc, words)
}

/// The job on a journal that the words spell.
fn read_journal_job(alloc: Global, words: &[String]) -> Result<Job, WordsFault>
    ensures found { IfOk result (λ job. Spells job (map string_bytes words.now)) }
    ensures refused { IsErrOf result WordsFault.Refused → AsksJournal (map string_bytes words.now) → ⊥ }
    ensures memory { IsErrOf result WordsFault.Memory → AsksJournal (map string_bytes words.now) }
{
    match read_show(alloc, words) {
        Ok(journal) => Ok(Job::Show(journal)),
        Err(WordsFault::Refused) => match read_format(alloc, words) {
            Ok(new) => Ok(Job::Format(new)),
            Err(WordsFault::Refused) => read_end_job(alloc, words),
            Err(WordsFault::Memory) => Err(WordsFault::Memory),
        },
        Err(WordsFault::Memory) => Err(WordsFault::Memory),
    }
}

/// The job of an end that the words spell.
fn read_end_job(alloc: Global, words: &[String]) -> Result<Job, WordsFault>
    ensures found { IfOk result (λ job. Spells job (map string_bytes words.now)) }
    ensures refused { IsErrOf result WordsFault.Refused → AsksEnd (map string_bytes words.now) → ⊥ }
    ensures memory { IsErrOf result WordsFault.Memory → AsksEnd (map string_bytes words.now) }
{
    match read_end(alloc, words, "handheld") {
        Ok(names) => Ok(Job::Handheld(names)),
        Err(WordsFault::Refused) => match read_end(alloc, words, "receiver") {
            Ok(names) => Ok(Job::Receiver(names)),
            Err(fault) => Err(fault),
        },
        Err(WordsFault::Memory) => Err(WordsFault::Memory),
    }
}

/// Whether there is one word, which is this.
fn is_only(words: &[String], wanted: &str) -> bool
    ensures { IsTrue result ↔ (map string_bytes words.now ≡ wanted.now ∷ []) }
{
    match words {
        [one] => one.as_str() == wanted,
        _ => false,
    }
}

/// Whether the words are these two.
fn are(words: &[String], first: &str, second: &str) -> bool
    ensures { IsTrue result ↔ (map string_bytes words.now ≡ first.now ∷ second.now ∷ []) }
{
    match words {
        [one, two] => one.as_str() == first && two.as_str() == second,
        _ => false,
    }
}
