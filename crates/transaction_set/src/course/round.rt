//! The segments round the rows of a set: its start, its loop, its totals, its signature and its end.

ghost use Rattle.std.specs.Prelude.{◌≡◌, ◌+◌, ◌≤◌, OnErr};
ghost use Rattle.transaction_set.specs.Tables.{integrity_in};
ghost use Rattle.transaction_set.specs.SoFar.{kept};
ghost use Rattle.segments.specs.Elements.{Reads};
ghost use Rattle.transaction_set.specs.Reasons.{Says, loop_end_fault, integrity_reason, trailer_reason, course_reason};

use super::Course;
use crate::closing::{
    read_integrity, read_loop_start, read_signature, read_start, read_totals, read_trailer,
};
use crate::kind::Kind;
use crate::refusing::{at, refuse};
use crate::set_fault::{SetFault, SetReason};
use dsd_values::{Check, SET_BYTES, ValueFault, Word};
use segments::{ItemFault, Segment, end_of_elements, word_between_at};

impl Course {
    /// Keeps the control number.
    #[inline(never)]
    #[tactic(auto, unfolding(crate::specs::SoFar::kept))]
    pub(super) fn keep_start(&mut self, segment: &Segment<'_>) -> Result<(), SetFault>
        ensures said { Says result segment.now.start (course_reason self.old segment.now Kind.Start)
            (λ _. self.new ≡ kept self.old segment.now Kind.Start self.old.phase self.old.count self.old.check) }
        ensures err { OnErr result (self.new ≡ self.old) }
    {
        self.control = at(segment, read_start(segment))?;
        Ok(())
    }

    /// Keeps the id of the loop.
    #[inline(never)]
    #[tactic(auto, unfolding(crate::specs::SoFar::kept))]
    pub(super) fn keep_loop_start(&mut self, segment: &Segment<'_>) -> Result<(), SetFault>
        ensures said { Says result segment.now.start (course_reason self.old segment.now Kind.LoopStart)
            (λ _. self.new ≡ kept self.old segment.now Kind.LoopStart self.old.phase self.old.count self.old.check) }
        ensures err { OnErr result (self.new ≡ self.old) }
    {
        self.loop_id = at(segment, read_loop_start(segment))?;
        Ok(())
    }

    /// Judges the end of the loop.
    #[inline(never)]
    #[tactic(auto, unfolding(crate::specs::SoFar::kept))]
    pub(super) fn keep_loop_end(&mut self, segment: &Segment<'_>) -> Result<(), SetFault>
        ensures said { Says result segment.now.start (course_reason self.old segment.now Kind.LoopEnd)
            (λ _. self.new ≡ kept self.old segment.now Kind.LoopEnd self.old.phase self.old.count self.old.check) }
        ensures err { OnErr result (self.new ≡ self.old) }
    {
        at(segment, loop_end(segment, &self.loop_id))
    }

    /// Keeps the stated totals.
    #[inline(never)]
    #[tactic(auto, unfolding(crate::specs::SoFar::kept))]
    pub(super) fn keep_totals(&mut self, segment: &Segment<'_>) -> Result<(), SetFault>
        ensures said { Says result segment.now.start (course_reason self.old segment.now Kind.Totals)
            (λ _. self.new ≡ kept self.old segment.now Kind.Totals self.old.phase self.old.count self.old.check) }
        ensures err { OnErr result (self.new ≡ self.old) }
    {
        match read_totals(segment) {
            Ok(totals) => self.totals = totals,
            Err(fault) => return at(segment, Err(fault)),
        }
        Ok(())
    }

    /// Keeps the signature.
    #[inline(never)]
    #[tactic(auto, unfolding(crate::specs::SoFar::kept))]
    pub(super) fn keep_signature(&mut self, segment: &Segment<'_>) -> Result<(), SetFault>
        ensures said { Says result segment.now.start (course_reason self.old segment.now Kind.Signature)
            (λ _. self.new ≡ kept self.old segment.now Kind.Signature self.old.phase self.old.count self.old.check) }
        ensures err { OnErr result (self.new ≡ self.old) }
    {
        self.signature = Some(at(segment, read_signature(segment))?);
        Ok(())
    }

    /// Keeps the integrity value.
    #[inline(never)]
    #[tactic(auto, unfolding(crate::specs::SoFar::kept))]
    pub(super) fn keep_integrity(&mut self, segment: &Segment<'_>) -> Result<(), SetFault>
        ensures said { Says result segment.now.start (course_reason self.old segment.now Kind.Integrity)
            (λ _. self.new ≡ kept self.old segment.now Kind.Integrity self.old.phase self.old.count self.old.check) }
        ensures err { OnErr result (self.new ≡ self.old) }
    {
        match integrity(segment, self.check.value()) {
            Ok(check) => self.integrity = check,
            Err(fault) => return Err(fault),
        }
        Ok(())
    }

    /// Judges the trailer.
    #[inline(never)]
    #[tactic(auto, unfolding(crate::specs::SoFar::kept))]
    pub(super) fn keep_trailer(&mut self, segment: &Segment<'_>) -> Result<(), SetFault>
        requires { self.old.count ≤ SET_BYTES }
        ensures said { Says result segment.now.start (course_reason self.old segment.now Kind.Trailer)
            (λ _. self.new ≡ kept self.old segment.now Kind.Trailer self.old.phase self.old.count self.old.check) }
        ensures err { OnErr result (self.new ≡ self.old) }
    {
        trailer(segment, &self.control, self.count + 1)
    }
}

fn loop_end(segment: &Segment<'_>, loop_id: &Word) -> Result<(), ItemFault>
    ensures { Reads result (loop_end_fault loop_id.now segment.now) (λ _. Unit {0}) }
{
    let again = word_between_at(segment, 1, 1, 6)?;
    if again.as_slice() != loop_id.as_slice() {
        return Err(ItemFault::Value {
            element: 1,
            fault: ValueFault::OutOfRange,
        });
    }
    end_of_elements(segment, 1)
}

fn integrity(segment: &Segment<'_>, computed: u16) -> Result<Check, SetFault>
    ensures { Says result segment.now.start (integrity_reason computed segment.now) (λ stated. stated ≡ integrity_in segment.now) }
{
    let said = at(segment, read_integrity(segment))?;
    if said.get() != computed {
        return refuse(
            segment,
            SetReason::Check {
                said,
                computed: Check::new(computed),
            },
        );
    }
    Ok(said)
}

fn trailer(segment: &Segment<'_>, control: &Word, found: usize) -> Result<(), SetFault>
    ensures { Says result segment.now.start (trailer_reason control.now found segment.now) (λ _. Unit {0}) }
{
    let (said, again) = at(segment, read_trailer(segment))?;
    let found = found as u64;
    if said != found {
        return refuse(segment, SetReason::Count { said, found });
    }
    if again.as_slice() != control.as_slice() {
        return refuse(segment, SetReason::Control);
    }
    Ok(())
}
