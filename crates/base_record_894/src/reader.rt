//! The reader of a base record, pushed one segment at a time.

ghost use Rattle.std.specs.Prelude.{◌≡◌, ◌+◌, ◌<◌, ◌≤◌, length, IfOk, OnOk, None, Some};
ghost use Rattle.transaction_set.specs.Reasons.{Says};
ghost use Rattle.transaction_set.specs.Refusal.{Answers, ended_at};
ghost use Rattle.transaction_set.specs.Taking.{in_set};
ghost use Rattle.base_record_894.specs.Said.{nothing, own_reason, reason_of, rows_reason, kept_by, after, is_whole};
ghost use Rattle.base_record_894.specs.ReadParts.{IsReadFrom};
ghost use Rattle.transaction_set.specs.declared.kind.Kind.TheVariants as kinds;

use crate::head::{Head, read_head};
use crate::parts::Parts;
use crate::rows::compare_totals;
use dsd_values::{Memory, SET_BYTES};
use segments::Segment;
use std::alloc::Global;
use std::marker::Model;
use transaction_set::{Course, Form, Kind, SetFault, SetReason, at};

/// A base record so far.
#[derive(Drop)]
pub struct Reader {
    alloc: Global,
    course: Course,
    head: Option<Head>,
}

impl Model for Reader {
    ghost use Rattle.base_record_894.specs.Said.{Said};

    ghost Value = { Said };

    ghost view = { λ r. record { course = r.course; head = r.head } };
}

impl Reader {
    /// Nothing has been read.
    pub fn new(alloc: Global) -> Result<Reader, Memory>
        ensures { IfOk result (λ reader. reader ≡ nothing) }
    {
        Ok(Reader {
            alloc,
            course: Course::new(alloc)?,
            head: None,
        })
    }

    /// Takes one more segment, which starts at this place of the set.
    #[tactic(auto, unfolding(crate::specs::Said::kept_by, crate::specs::Said::reason_of, transaction_set::specs::SoFar::kept, transaction_set::specs::SoFar::moved))]
    pub fn step(&mut self, place: usize, segment: &Segment<'_>) -> Result<(), SetFault>
        requires count { self.old.course.count ≤ SET_BYTES }
        requires placed { place ≤ SET_BYTES }
        ensures exact { Says result segment.now.start (reason_of self.old (in_set place segment.now)) (λ _. self.new ≡ after self.old (in_set place segment.now)) }
        ensures short { OnOk result (place + length segment.now.bytes ≤ SET_BYTES) }
    {
        let kind = Kind::of(Form::Base, segment);
        let phase = self.course.admit(Form::Base, kind, place, segment)?;
        match self.keep(kind, segment) {
            Ok(()) => {
                self.course.advance(phase, segment);
                Ok(())
            }
            Err(fault) => Err(fault),
        }
    }

    /// Keeps what a segment of this kind says.
    #[tactic(auto, unfolding(crate::specs::Said::kept_by, transaction_set::specs::SoFar::kept))]
    fn keep(&mut self, kind: Kind, segment: &Segment<'_>) -> Result<(), SetFault>
        requires { self.old.course.count ≤ SET_BYTES }
        ensures { Says result segment.now.start (own_reason self.old segment.now kind)
            (λ _. self.new ≡ kept_by self.old segment.now kind self.old.course.phase self.old.course.count self.old.course.check) }
    {
        match kind {
            Kind::Head => self.keep_head(segment),
            Kind::Totals => self.keep_totals(segment),
            kind => self.course.keep(kind, segment),
        }
    }

    /// Keeps the head.
    // Not inlined, as it makes more room ready than all other kinds together.
    #[inline(never)]
    #[tactic(auto, unfolding(crate::specs::Said::kept_by, transaction_set::specs::SoFar::kept))]
    fn keep_head(&mut self, segment: &Segment<'_>) -> Result<(), SetFault>
        ensures { Says result segment.now.start (own_reason self.old segment.now kinds.Head)
            (λ _. self.new ≡ kept_by self.old segment.now kinds.Head self.old.course.phase self.old.course.count self.old.course.check) }
    {
        self.head = Some(at(segment, read_head(self.alloc, segment))?);
        Ok(())
    }

    /// Keeps the totals where they are those of the rows.
    #[tactic(auto, unfolding(crate::specs::Said::kept_by, transaction_set::specs::SoFar::kept))]
    fn keep_totals(&mut self, segment: &Segment<'_>) -> Result<(), SetFault>
        requires { self.old.course.count ≤ SET_BYTES }
        ensures { Says result segment.now.start (own_reason self.old segment.now kinds.Totals)
            (λ _. self.new ≡ kept_by self.old segment.now kinds.Totals self.old.course.phase self.old.course.count self.old.course.check) }
    {
        match self.course.keep(Kind::Totals, segment) {
            Ok(()) => self.compare_totals(segment),
            Err(fault) => Err(fault),
        }
    }

    /// Refuses stated totals that are not those of the rows.
    fn compare_totals(&self, segment: &Segment<'_>) -> Result<(), SetFault>
        ensures { Says result segment.now.start (rows_reason self.now.course.totals self.now.course.lines self.now.course.extras) (λ _. Unit {0}) }
    {
        let course = &self.course;
        compare_totals(segment, course.totals(), course.lines(), course.extras())
    }

    /// Whether the set is whole.
    #[inline(always)]
    pub fn is_whole(&self) -> bool
        ensures { result ≡ is_whole self.now }
    {
        self.course.is_closed() && self.head.is_some()
    }

    /// What was read, where the set is whole; the place is the text's length.
    pub fn finish(self, place: usize) -> Result<Parts, SetFault>
        ensures { Answers result (ended_at (is_whole self) place None) (IsReadFrom self) }
    {
        let Reader { course, head, .. } = self;
        match (head, course.close()) {
            (Some(head), Some(closed)) => Ok(Parts { head, closed }),
            _ => Err(SetFault::Refused {
                place,
                reason: SetReason::Order,
            }),
        }
    }
}
