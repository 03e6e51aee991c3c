//! Reading a set of either form whose segments come one after another.

ghost use Rattle.std.specs.Prelude.{◌≡◌, ◌++◌, ◌<◌, ◌≤◌, ℕ, List, [], length, Err, IfOk, None, OnOk, Some, false, true};
ghost use Rattle.dsd_values.specs.declared.limits.TheConstants.{SET_BYTES};
ghost use Rattle.segments.specs.SegmentCut.{next_of};
ghost use Rattle.transaction_set.specs.Refusal.{Answers, IsWithin};
ghost use Rattle.transaction_set.specs.Taking.{IsFaultOf, IsTaken};
ghost use Rattle.transaction_set.specs.Kinds.{is_start_of};
ghost use Rattle.transaction_set.specs.declared.kind.Form.TheVariants as forms;
ghost use Rattle.base_record_894.specs.FirstRefusal.{judged as base_judged, refusal_of as base_refusal};
ghost use Rattle.base_record_894.specs.Said.{nothing as no_base};
ghost use Rattle.adjustment_895.specs.FirstRefusal.{judged as answer_judged, refusal_of as answer_refusal};
ghost use Rattle.adjustment_895.specs.Said.{nothing as no_answer};
ghost use Rattle.dsd_record.specs.ReadSets.{set_in};
ghost use Rattle.dsd_record.specs.SetTexts.{IsSet, set_refusal};
ghost use Rattle.dsd_record.specs.TakenSets.{Begins, HasTaken, TakesNext, set_broken_by};
ghost use Rattle.dsd_record.specs.declared.set_view.SetView.{SetView as Set};

use crate::set_view::SetView;
use adjustment_895::Reader895;
use base_record_894::Reader894;
use segments::{Segment, SegmentFault};
use std::alloc::Global;
use std::marker::Model;
use transaction_set::{Form, SetFault, SetReason, is_start_of};

/// Which set was begun.
#[derive(Drop)]
pub enum Begun {
    /// No segment has come.
    Nothing,
    /// Set 894.
    Base(Reader894),
    /// Set 895.
    Answer(Reader895),
    /// There was no memory to begin.
    Lost,
}

/// A set so far: an answer where its first segment is the ST of one, else a base record. It counts places from the start
/// of that segment.
#[derive(Drop)]
pub struct SetReader {
    alloc: Global,
    begun: Begun,
}

impl Model for SetReader {
    ghost use Rattle.dsd_record.specs.declared.set_reader.Begun.{Begun};

    ghost Value = { Begun };

    ghost view = { λ r. r.begun };
}

impl SetReader {
    /// No segment has come.
    pub fn new(alloc: Global) -> SetReader
        ensures { HasTaken [] result }
    {
        SetReader {
            alloc,
            begun: Begun::Nothing,
        }
    }

    /// Takes one more segment, and tells whether the set is then whole.
    #[inline(always)]
    pub fn take(&mut self, segment: &Segment<'_>) -> Result<bool, SetFault>
        ensures exact { TakesNext self.old segment.now result self.new }

        // The bytes of the segment stand behind all that was taken.
        ensures taken { (text : List ℕ) → HasTaken text self.old → HasTaken (text ++ segment.now.bytes) self.new }
    {
        match &mut self.begun {
            Begun::Base(reader) => reader.take(segment),
            Begun::Answer(reader) => reader.take(segment),
            Begun::Nothing => self.begin(segment),
            Begun::Lost => Err(SetFault::Memory),
        }
    }

    /// Takes the first segment.
    #[inline(never)]
    fn begin(&mut self, segment: &Segment<'_>) -> Result<bool, SetFault>
        ensures exact { Begins (is_start_of forms.Answer segment.now) segment.now result self.new }
        ensures taken { HasTaken segment.now.bytes self.new }
    {
        let (begun, answer) = begun_by(self.alloc, segment);
        self.begun = begun;
        answer
    }

    /// What was read of the segments taken, which are a whole set or none.
    pub fn finish(self) -> Result<SetView, SetFault>
        // What is read is spelled so.
        ensures found { (text : List ℕ) → HasTaken text self → IfOk result (λ set. IsSet set text) }
        ensures read { (text : List ℕ) → HasTaken text self → IfOk result (λ set. set_in text ≡ Some set) }
        ensures sized { (text : List ℕ) → HasTaken text self → OnOk result ((0 < length text) × (length text ≤ SET_BYTES)) }

        // What is spelled so is read, unless memory runs out.
        ensures only { (text : List ℕ) → HasTaken text self → (set : Set) → IsSet set text → Answers result None (λ x. x ≡ set) }

        // It is refused as the set that it begins as.
        ensures exact { (text : List ℕ) → HasTaken text self → Answers result (set_refusal text) (λ _. Unit {0}) }
        ensures within { (text : List ℕ) → HasTaken text self → IsWithin result (length text) }
    {
        self.read()
    }

    fn read(self) -> Result<SetView, SetFault>
        ensures found { (text : List ℕ) → HasTaken text self → IfOk result (λ set. IsSet set text) }
        ensures exact { (text : List ℕ) → HasTaken text self → Answers result (set_refusal text) (λ _. Unit {0}) }
        ensures within { (text : List ℕ) → HasTaken text self → IsWithin result (length text) }
    {
        match self.begun {
            Begun::Base(reader) => read_base(reader),
            Begun::Answer(reader) => read_answer(reader),
            Begun::Nothing => Err(SetFault::Refused {
                place: 0,
                reason: SetReason::Order,
            }),
            Begun::Lost => Err(SetFault::Memory),
        }
    }

    /// Why there is no set where no segment can be read behind those taken.
    pub fn broken(&self, fault: SegmentFault) -> SetFault
        ensures value { result ≡ set_broken_by self.now fault }

        // It is the first refusal of the text taken with whatever stands behind it, of which no segment can be read.
        ensures exact { (text rest : List ℕ) → HasTaken text self.now → next_of (record { rest = rest; place = length text }) ≡ Err fault
            → IsFaultOf result (set_refusal (text ++ rest)) }
    {
        match &self.begun {
            Begun::Nothing => SetFault::Refused {
                place: 0,
                reason: SetReason::Segment(fault),
            },
            Begun::Base(reader) => reader.broken(fault),
            Begun::Answer(reader) => reader.broken(fault),
            Begun::Lost => SetFault::Memory,
        }
    }
}

fn read_base(reader: Reader894) -> Result<SetView, SetFault>
    ensures found { (text : List ℕ) → IsTaken base_judged no_base text reader → IfOk result (λ set. IsSet set text) }
    ensures exact { (text : List ℕ) → IsTaken base_judged no_base text reader → Answers result (base_refusal text) (λ _. Unit {0}) }
    ensures within { (text : List ℕ) → IsTaken base_judged no_base text reader → IsWithin result (length text) }
{
    let (base, seal) = reader.finish()?;
    Ok(SetView::Base(base, seal))
}

fn read_answer(reader: Reader895) -> Result<SetView, SetFault>
    ensures found { (text : List ℕ) → IsTaken answer_judged no_answer text reader → IfOk result (λ set. IsSet set text) }
    ensures exact { (text : List ℕ) → IsTaken answer_judged no_answer text reader → Answers result (answer_refusal text) (λ _. Unit {0}) }
    ensures within { (text : List ℕ) → IsTaken answer_judged no_answer text reader → IsWithin result (length text) }
{
    let (answer, seal) = reader.finish()?;
    Ok(SetView::Answer(answer, seal))
}

/// The set that begins with this segment, and the answer to it.
fn begun_by(alloc: Global, segment: &Segment<'_>) -> (Begun, Result<bool, SetFault>)
    ensures exact { Begins (is_start_of forms.Answer segment.now) segment.now result.1 result.0 }
    ensures taken { HasTaken segment.now.bytes result.0 }
{
    if is_start_of(Form::Answer, segment) {
        answer_by(alloc, segment)
    } else {
        base_by(alloc, segment)
    }
}

/// The base record that begins with this segment.
fn base_by(alloc: Global, segment: &Segment<'_>) -> (Begun, Result<bool, SetFault>)
    requires { is_start_of forms.Answer segment.now ≡ false }
    ensures exact { Begins false segment.now result.1 result.0 }
    ensures taken { HasTaken segment.now.bytes result.0 }
{
    let _ = segment.bytes();
    match Reader894::new(alloc) {
        Ok(mut reader) => {
            let answer = reader.take(segment);
            (Begun::Base(reader), answer)
        }
        Err(_) => (Begun::Lost, Err(SetFault::Memory)),
    }
}

/// The answer that begins with this segment.
fn answer_by(alloc: Global, segment: &Segment<'_>) -> (Begun, Result<bool, SetFault>)
    requires { is_start_of forms.Answer segment.now ≡ true }
    ensures exact { Begins true segment.now result.1 result.0 }
    ensures taken { HasTaken segment.now.bytes result.0 }
{
    let _ = segment.bytes();
    match Reader895::new(alloc) {
        Ok(mut reader) => {
            let answer = reader.take(segment);
            (Begun::Answer(reader), answer)
        }
        Err(_) => (Begun::Lost, Err(SetFault::Memory)),
    }
}
