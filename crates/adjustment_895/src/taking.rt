//! Reading an answer whose segments come one after another.

ghost use Rattle.std.specs.Prelude.{◌≡◌, ◌++◌, ℕ, List, [], length, Err, IfOk, None};
ghost use Rattle.segments.specs.SegmentCut.{cut_of, next_of};
ghost use Rattle.transaction_set.specs.Refusal.{Answers, IsWithin, said_by};
ghost use Rattle.transaction_set.specs.Taking.{IsFaultOf, IsTaken, Takes, broken_by, none_taken};
ghost use Rattle.transaction_set.specs.declared.seal.Seal.{Seal as SealValue};
ghost use Rattle.adjustment_895.specs.AnswerRecord.{AnswerRecord};
ghost use Rattle.adjustment_895.specs.AnswerText.{Is895, IsAnswer};
ghost use Rattle.adjustment_895.specs.Said.{nothing};
ghost use Rattle.adjustment_895.specs.FirstRefusal.{judged, refusal_of};
ghost use Rattle.adjustment_895.specs.ReadParts.{IsReadFrom, answer_of};

use crate::answer::{Answer895, seal_up};
use crate::parts::Parts;
use crate::reader::Reader;
use dsd_values::Memory;
use segments::{Segment, SegmentFault};
use std::alloc::Global;
use std::marker::Model;
use transaction_set::{Seal, SetFault, SetReason};

/// An answer so far. It counts places from the start of its first segment, wherever that stands.
#[derive(Drop)]
pub struct Reader895 {
    reader: Reader,
    size: usize,
    fault: Option<SetFault>,
}

impl Model for Reader895 {
    ghost use Rattle.std.specs.Prelude.{◌≤◌, ℕ, List};
    ghost use Rattle.dsd_values.specs.declared.limits.TheConstants.{SET_BYTES};
    ghost use Rattle.transaction_set.specs.Taking.{HasCounted, IsTaken, Taken};
    ghost use Rattle.adjustment_895.specs.FirstRefusal.{judged};
    ghost use Rattle.adjustment_895.specs.Said.{Said, nothing};

    ghost Value = { Taken Said };

    ghost view = { λ r. record { said = r.reader; size = r.size; fault = r.fault } };

    ghost invariant = { λ r. HasCounted r.fault r.reader.course.count r.size × (r.size ≤ SET_BYTES) × ((text : List ℕ) × IsTaken judged nothing text (record { said = r.reader; size = r.size; fault = r.fault })) };
}

impl Reader895 {
    /// No segment has come.
    pub fn new(alloc: Global) -> Result<Reader895, Memory>
        ensures none { IfOk result (λ reader. reader ≡ none_taken nothing) }
        ensures empty { IfOk result (λ reader. IsTaken judged nothing [] reader) }
    {
        Ok(Reader895 {
            reader: Reader::new(alloc)?,
            size: 0,
            fault: None,
        })
    }

    /// Takes one more segment, and tells whether the set is then whole.
    #[inline(always)]
    pub fn take(&mut self, segment: &Segment<'_>) -> Result<bool, SetFault>
        ensures exact { Takes judged self.old segment.now result self.new }

        // The bytes of the segment stand behind all that was taken.
        ensures taken { (text : List ℕ) → IsTaken judged nothing text self.old → IsTaken judged nothing (text ++ segment.now.bytes) self.new }
    {
        let size = segment.bytes().len();
        if let Some(fault) = self.fault {
            return Err(fault);
        }
        match self.reader.step(self.size, segment) {
            Ok(()) => {
                self.size += size;
                Ok(self.reader.is_whole())
            }
            Err(fault) => {
                self.fault = Some(fault.told_at(self.size));
                Err(fault.told_at(self.size))
            }
        }
    }

    /// What was read of the segments taken, which are a whole set or none.
    pub fn finish(self) -> Result<(Answer895, Seal), SetFault>
        // What is read is spelled so.
        ensures found { (text : List ℕ) → IsTaken judged nothing text self → IfOk result (λ x. Is895 x.0 x.1 text) }

        // What is spelled so is read, unless memory runs out.
        ensures only { (text : List ℕ) → IsTaken judged nothing text self → (answer : AnswerRecord) (seal : SealValue) → Is895 answer seal text → Answers result None (λ x. (x.0 ≡ answer) × (x.1 ≡ seal)) }

        // It is refused at the first segment that has a reason against it, for its first one.
        ensures exact { (text : List ℕ) → IsTaken judged nothing text self → Answers result (refusal_of text) (λ _. Unit {0}) }
        ensures within { (text : List ℕ) → IsTaken judged nothing text self → IsWithin result (length text) }
    {
        let parts = self.parts()?;
        Ok(seal_up(parts))
    }

    /// The parts of what was read.
    fn parts(self) -> Result<Parts, SetFault>
        ensures exact { (text : List ℕ) → IsTaken judged nothing text self → Answers result (refusal_of text) (IsReadFrom (said_by judged nothing (cut_of text).segments)) }
        ensures within { (text : List ℕ) → IsTaken judged nothing text self → IsWithin result (length text) }
        ensures right { IfOk result (λ parts. IsAnswer (answer_of parts)) }
    {
        let Reader895 {
            reader,
            size,
            fault,
        } = self;
        match fault {
            Some(fault) => Err(fault),
            None => reader.finish(size),
        }
    }

    /// Why there is no set where no segment can be read behind those taken.
    pub fn broken(&self, fault: SegmentFault) -> SetFault
        ensures value { result ≡ broken_by self.now fault self.now.fault }

        // It is the first refusal of the text taken with whatever stands behind it, of which no segment can be read.
        ensures exact { (text rest : List ℕ) → IsTaken judged nothing text self.now → next_of (record { rest = rest; place = length text }) ≡ Err fault
            → IsFaultOf result (refusal_of (text ++ rest)) }
    {
        match self.fault {
            Some(stopped) => stopped,
            None => SetFault::Refused {
                place: self.size,
                reason: SetReason::Segment(fault),
            },
        }
    }
}
