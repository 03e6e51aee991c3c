//! The reader of an answer, pushed one segment at a time.

ghost use Rattle.std.specs.Prelude.{◌≡◌, ◌+◌, ◌≤◌, length, IfOk, OnOk, None, Some};
ghost use Rattle.segments.specs.Elements.{◌or_else◌};
ghost use Rattle.transaction_set.specs.Kinds.{next_phase};
ghost use Rattle.transaction_set.specs.Reasons.{Says, admission};
ghost use Rattle.transaction_set.specs.Refusal.{Answers, ended_at};
ghost use Rattle.transaction_set.specs.Taking.{in_set};
ghost use Rattle.adjustment_895.specs.HeadTable.{head_in};
ghost use Rattle.adjustment_895.specs.Said.{nothing, head_reason, level_in, level_reason, own_reason, reason_of, kept_by, after, is_whole};
ghost use Rattle.adjustment_895.specs.ReadParts.{IsReadFrom};
ghost use Rattle.transaction_set.specs.declared.kind.Form.TheVariants as forms;
ghost use Rattle.transaction_set.specs.declared.kind.Kind.TheVariants as kinds;

use crate::head::{AnswerHead, is_past_levels, read_head};
use crate::parts::Parts;
use dsd_values::{Memory, SET_BYTES};
use segments::Segment;
use std::alloc::Global;
use std::marker::Model;
use transaction_set::{Course, Form, Kind, Phase, SetFault, SetReason, at, refuse};

/// An answer so far.
#[derive(Drop)]
pub struct Reader {
    course: Course,
    head: Option<AnswerHead>,
}

impl Model for Reader {
    ghost use Rattle.adjustment_895.specs.Said.{Said};

    ghost Value = { Said };

    ghost view = { λ r. record { course = r.course; head = r.head } };
}

impl Reader {
    /// Nothing has been read.
    pub fn new(alloc: Global) -> Result<Reader, Memory>
        ensures { IfOk result (λ reader. reader ≡ nothing) }
    {
        Ok(Reader {
            course: Course::new(alloc)?,
            head: None,
        })
    }

    /// Takes one more segment, which starts at this place of the set.
    #[tactic(auto, unfolding(crate::specs::Said::kept_by, crate::specs::Said::reason_of, transaction_set::specs::SoFar::kept, transaction_set::specs::SoFar::moved))]
    pub fn step(&mut self, place: usize, segment: &Segment<'_>) -> Result<(), SetFault>
        requires count { self.old.course.count ≤ SET_BYTES }
        requires placed { place ≤ SET_BYTES }
        ensures exact { Says result segment.now.start (reason_of self.old (in_set place segment.now)) (λ _. self.new ≡ after self.old (in_set place segment.now)) }
        ensures short { OnOk result (place + length segment.now.bytes ≤ SET_BYTES) }
    {
        let kind = Kind::of(Form::Answer, segment);
        let phase = self.admit(kind, place, segment)?;
        match self.keep(kind, segment) {
            Ok(()) => {
                self.course.advance(phase, segment);
                Ok(())
            }
            Err(fault) => Err(fault),
        }
    }

    /// Whether such a segment may stand here, and what may come behind it: in an answer of level 0 no loop may.
    #[tactic(auto, unfolding(transaction_set::specs::Reasons::admission))]
    fn admit(&self, kind: Kind, place: usize, segment: &Segment<'_>) -> Result<Phase, SetFault>
        requires { place ≤ SET_BYTES }
        ensures exact { Says result segment.now.start (level_reason kind self.now.head or_else admission forms.Answer self.now.course.phase kind (in_set place segment.now))
            (λ phase. next_phase self.now.course.phase kind forms.Answer ≡ Some phase) }
        ensures short { OnOk result (place + length segment.now.bytes ≤ SET_BYTES) }
    {
        match kind {
            Kind::LoopStart if self.level() == 0 => refuse(segment, SetReason::Order),
            _ => self.course.admit(Form::Answer, kind, place, segment),
        }
    }

    /// The level that the head states.
    fn level(&self) -> u8
        ensures { result ≡ level_in self.now.head }
    {
        match &self.head {
            Some(head) => head.level.get(),
            None => 0,
        }
    }

    /// Keeps what a segment of this kind says.
    #[tactic(auto, unfolding(crate::specs::Said::kept_by, transaction_set::specs::SoFar::kept))]
    fn keep(&mut self, kind: Kind, segment: &Segment<'_>) -> Result<(), SetFault>
        requires { self.old.course.count ≤ SET_BYTES }
        ensures { Says result segment.now.start (own_reason self.old segment.now kind)
            (λ _. self.new ≡ kept_by self.old segment.now kind self.old.course.phase self.old.course.count self.old.course.check) }
    {
        match kind {
            Kind::Head => self.keep_head(segment),
            kind => self.course.keep(kind, segment),
        }
    }

    /// Keeps the head.
    // Not inlined, as it makes more room ready than all other kinds together.
    #[inline(never)]
    #[tactic(auto, unfolding(crate::specs::Said::kept_by, transaction_set::specs::SoFar::kept))]
    fn keep_head(&mut self, segment: &Segment<'_>) -> Result<(), SetFault>
        ensures { Says result segment.now.start (own_reason self.old segment.now kinds.Head)
            (λ _. self.new ≡ kept_by self.old segment.now kinds.Head self.old.course.phase self.old.course.count self.old.course.check) }
    {
        self.head = Some(head(segment)?);
        Ok(())
    }

    /// Whether the set is whole.
    #[inline(always)]
    pub fn is_whole(&self) -> bool
        ensures { result ≡ is_whole self.now }
    {
        self.course.is_closed() && self.head.is_some()
    }

    /// What was read, where the set is whole; the place is the text's length.
    pub fn finish(self, place: usize) -> Result<Parts, SetFault>
        ensures { Answers result (ended_at (is_whole self) place None) (IsReadFrom self) }
    {
        let Reader { course, head } = self;
        match (head, course.close()) {
            (Some(head), Some(closed)) => Ok(Parts { head, closed }),
            _ => Err(SetFault::Refused {
                place,
                reason: SetReason::Order,
            }),
        }
    }
}

/// The head that a segment says. A level past the highest comes before the faults of its elements.
fn head(segment: &Segment<'_>) -> Result<AnswerHead, SetFault>
    ensures { Says result segment.now.start (head_reason segment.now) (λ head. head ≡ head_in segment.now) }
{
    if is_past_levels(segment.element(5)) {
        return refuse(segment, SetReason::Limit);
    }
    at(segment, read_head(segment))
}
