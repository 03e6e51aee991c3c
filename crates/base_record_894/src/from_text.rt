//! Reading a base record from its text.

ghost use Rattle.std.specs.Prelude.{◌≡◌, length, IfOk, None};
ghost use Rattle.transaction_set.specs.Refusal.{Answers, IsWithin};
ghost use Rattle.transaction_set.specs.declared.seal.Seal.{Seal as SealValue};
ghost use Rattle.base_record_894.specs.BaseRecord.{BaseRecord};
ghost use Rattle.base_record_894.specs.RecordText.{Is894};
ghost use Rattle.base_record_894.specs.FirstRefusal.{refusal_of};

use crate::base::Base;
use crate::taking::Reader894;
use segments::SegmentReader;
use std::alloc::Global;
use transaction_set::{Seal, SetFault};

/// Reads a base record: its value and its seal.
pub fn read_894(alloc: Global, text: &[u8]) -> Result<(Base, Seal), SetFault>
    // What is read is spelled so.
    ensures found { IfOk result (λ x. Is894 x.0 x.1 text.now) }

    // What is spelled so is read, unless memory runs out.
    ensures only { (base : BaseRecord) (seal : SealValue) → Is894 base seal text.now → Answers result None (λ x. (x.0 ≡ base) × (x.1 ≡ seal)) }

    // It is refused at the first segment that has a reason against it, for its first one.
    ensures exact { Answers result (refusal_of text.now) (λ _. Unit {0}) }
    ensures within { IsWithin result (length text.now) }
{
    let mut reader = Reader894::new(alloc)?;
    let mut segments = SegmentReader::new(text);
    loop {
        match segments.next() {
            Ok(Some(segment)) => {
                reader.take(&segment)?;
            }
            Ok(None) => return reader.finish(),
            Err(fault) => return Err(reader.broken(fault)),
        }
    }
}
