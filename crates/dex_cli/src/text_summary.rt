//! What is printed of a text of sets.

ghost use Rattle.std.specs.Prelude.{◌≡◌, ◌++◌, OnOk, IfOk, length};
ghost use Rattle.dex_cli.specs.Verdicts.{status_at};
ghost use Rattle.dex_cli.specs.Texts.{ending_text, sets_text};

use crate::refusal::{Refusal, put_refusal};
use crate::status::{DONE, INPUT_REFUSED};
use crate::summary::{SetSummary, put_set};
use end_report::{put, put_count};
use std::alloc::{AllocError, Global};

/// What is printed of a text of sets.
#[derive(Debug, Drop)]
pub struct TextSummary {
    /// The sets up to the first that is refused.
    pub sets: Vec<SetSummary>,
    pub ending: TextEnding,
}

/// How a text ends behind these sets.
#[derive(Debug, Drop)]
pub enum TextEnding {
    /// It is a transmission of these sets alone.
    Whole,
    /// It is no transmission, or the next set is none.
    Refused(Refusal),
}

/// Prints the sets of a text and how it ends, and answers the status.
pub fn put_text(alloc: Global, out: &mut Vec<u8>, text: &TextSummary) -> Result<u8, AllocError>
    ensures text { OnOk result (out.new.items ≡ out.old.items ++ sets_text text.now.sets.items ++ ending_text (length text.now.sets.items) text.now.ending) }
    ensures status { IfOk result (λ status. status ≡ status_at text.now.ending) }
{
    put_sets(alloc, out, &text.sets)?;
    put_ending(alloc, out, text.sets.len(), &text.ending)
}

fn put_sets(alloc: Global, out: &mut Vec<u8>, sets: &[SetSummary]) -> Result<(), AllocError>
    ensures { OnOk result (out.new.items ≡ out.old.items ++ sets_text sets.now) }
{
    for set in sets {
        put_set(alloc, out, set)?;
    }
    Ok(())
}

/// Prints how a text of so many sets ends, and answers the status.
fn put_ending(
    alloc: Global,
    out: &mut Vec<u8>,
    count: usize,
    ending: &TextEnding,
) -> Result<u8, AllocError>
    ensures text { OnOk result (out.new.items ≡ out.old.items ++ ending_text count ending.now) }
    ensures status { IfOk result (λ status. status ≡ status_at ending.now) }
{
    match ending {
        TextEnding::Whole => {
            put_count(alloc, out, "SETS", count as u64)?;
            put(out, "OK\n")?;
            Ok(DONE)
        }
        TextEnding::Refused(refusal) => {
            put_refusal(alloc, out, refusal)?;
            Ok(INPUT_REFUSED)
        }
    }
}
