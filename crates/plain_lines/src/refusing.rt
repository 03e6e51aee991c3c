//! Why a line is refused.

ghost use Rattle.std.specs.Prelude.{◌≡◌, Err};
ghost use Rattle.dsd_record.specs.declared.draft_fault.DraftFault.TheVariants.{Refused};
ghost use Rattle.plain_lines.specs.Refusing.{misplaced as why_misplaced, signature_in, value_at};

use crate::line::PlainLine;
use dsd_record::{DraftFault, DraftReason};
use dsd_values::{MARK_BYTES, Signature, ValueFault, Word, read_word_between};

/// Refuses a line.
pub fn refuse(line: &PlainLine<'_>, reason: DraftReason) -> DraftFault
    ensures { result ≡ Refused line.now.place reason }
{
    DraftFault::Refused {
        place: line.place(),
        reason,
    }
}

/// Why a line may not stand where one with this leading word and so many words has to.
pub fn misplaced(line: &PlainLine<'_>, word: &[u8], count: usize) -> Option<DraftReason>
    ensures { result ≡ why_misplaced line.now word.now count }
{
    if !line.leads(word) {
        Some(DraftReason::Line)
    } else if !line.has_words(count) {
        Some(DraftReason::Words)
    } else {
        None
    }
}

/// What the word of a line with this number was read as, or why the line is refused for it.
pub fn value<V>(
    line: &PlainLine<'_>,
    word: usize,
    read: Result<V, ValueFault>,
) -> Result<V, DraftFault>
    ensures { result ≡ value_at line.now word read }
{
    match read {
        Ok(value) => Ok(value),
        Err(fault) => Err(refuse(line, DraftReason::Value { word, fault })),
    }
}

/// What a line that signs says: a mark of 1 to 12 characters, and no name.
pub fn read_signature(line: &PlainLine<'_>) -> Result<Signature, DraftFault>
    ensures { result ≡ signature_in line.now }
{
    let mark = value(line, 1, read_word_between(line.word(1), 1, MARK_BYTES))?;
    Ok(Signature::new(mark, Word::empty()))
}
