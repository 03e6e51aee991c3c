//! Reading an answer from its text.

ghost use Rattle.std.specs.Prelude.{◌≡◌, length, IfOk, None};
ghost use Rattle.transaction_set.specs.Refusal.{Answers, IsWithin};
ghost use Rattle.transaction_set.specs.declared.seal.Seal.{Seal as SealValue};
ghost use Rattle.adjustment_895.specs.AnswerRecord.{AnswerRecord};
ghost use Rattle.adjustment_895.specs.AnswerText.{Is895};
ghost use Rattle.adjustment_895.specs.FirstRefusal.{refusal_of};

use crate::answer::Answer895;
use crate::taking::Reader895;
use segments::SegmentReader;
use std::alloc::Global;
use transaction_set::{Seal, SetFault};

/// Reads an answer: its value and its seal.
pub fn read_895(alloc: Global, text: &[u8]) -> Result<(Answer895, Seal), SetFault>
    // What is read is spelled so.
    ensures found { IfOk result (λ x. Is895 x.0 x.1 text.now) }

    // What is spelled so is read, unless memory runs out.
    ensures only { (answer : AnswerRecord) (seal : SealValue) → Is895 answer seal text.now → Answers result None (λ x. (x.0 ≡ answer) × (x.1 ≡ seal)) }

    // It is refused at the first segment that has a reason against it, for its first one.
    ensures exact { Answers result (refusal_of text.now) (λ _. Unit {0}) }
    ensures within { IsWithin result (length text.now) }
{
    let mut reader = Reader895::new(alloc)?;
    let mut segments = SegmentReader::new(text);
    loop {
        match segments.next() {
            Ok(Some(segment)) => {
                reader.take(&segment)?;
            }
            Ok(None) => return reader.finish(),
            Err(fault) => return Err(reader.broken(fault)),
        }
    }
}
