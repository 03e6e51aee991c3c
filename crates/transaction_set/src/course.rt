//! The course of a set: what its segments say so far, one segment after another.

mod round;

ghost use Rattle.std.specs.Prelude.{◌≡◌, ◌+◌, ◌<◌, ◌≤◌, [], ◌∷◌, ◌++◌, false, true, length, All, IfOk, OnErr, OnOk, MatchOption, None, Some, Err};
ghost use Rattle.block_check.specs.Crc16.{crc_from};
ghost use Rattle.transaction_set.specs.Tables.{line_in};
ghost use Rattle.transaction_set.specs.Kinds.{next_phase};
ghost use Rattle.transaction_set.specs.SoFar.{in_line, nothing, kept, moved, with_beside, with_line};
ghost use Rattle.transaction_set.specs.Allowances.{allowance_in};
ghost use Rattle.transaction_set.specs.Extras.{AreExtras, HasExtras, IsSized, allowances};
ghost use Rattle.segments.specs.Elements.{kept_text};
ghost use Rattle.transaction_set.specs.Numbers.{HasRoom};
ghost use Rattle.dsd_values.specs.declared.extra.Extra.TheVariants.{Allow, Note};
ghost use Rattle.transaction_set.specs.Closing.{IsClosed, is_closed};
ghost use Rattle.transaction_set.specs.Taking.{in_set};
ghost use Rattle.transaction_set.specs.Reasons.{Says, admission, allowance_reason, beside, has_line, item_reason, when, course_reason};

use crate::allowance::read_allowance;
use crate::closing::{
    read_integrity, read_loop_start, read_signature, read_start, read_totals, read_trailer,
};
use crate::extras::RecordExtras;
use crate::item::read_item;
use crate::kind::{Form, Kind};
use crate::numbered_lines::NumberedLines;
use crate::phase::Phase;
use crate::refusing::{at, refuse};
use crate::set_fault::{SetFault, SetReason};
use crate::stated::{Closed, StatedTotals};
use block_check::Running;
use dsd_values::{
    Cents, Check, Extra, Kept, Line, MOST_ALLOWANCES, MOST_LINES, Memory, SET_BYTES, Signature,
    ValueFault, Word,
};
use segments::{ItemFault, Segment, end_of_elements, kept_at, word_between_at};
use std::alloc::Global;
use std::marker::Model;

/// A set so far.
#[derive(Drop)]
pub struct Course {
    alloc: Global,
    phase: Phase,
    count: usize,
    check: Running,
    control: Word,
    references: Vec<Kept>,
    loop_id: Word,
    lines: NumberedLines,
    extras: RecordExtras,
    totals: StatedTotals,
    signature: Option<Signature>,
    integrity: Check,
}

impl Model for Course {
    ghost use Rattle.transaction_set.specs.SoFar.{SoFar};

    ghost Value = { SoFar };

    ghost view = { λ c. record { phase = c.phase; count = c.count; check = c.check; control = c.control; references = c.references.items; loop_id = c.loop_id; lines = c.lines; extras = c.extras; totals = c.totals; signature = c.signature; integrity = c.integrity } };
}

impl Course {
    /// Nothing has been read.
    pub fn new(alloc: Global) -> Result<Course, Memory>
        ensures { IfOk result (λ course. course ≡ nothing) }
    {
        Ok(Course {
            alloc,
            phase: Phase::Start,
            count: 0,
            check: Running::new(),
            control: Word::empty(),
            references: Vec::new(alloc),
            loop_id: Word::empty(),
            lines: NumberedLines::new(alloc)?,
            extras: RecordExtras::new(alloc),
            totals: StatedTotals {
                quantity: 0,
                amount: Cents::new(0),
                deposit: None,
            },
            signature: None,
            integrity: Check::new(0),
        })
    }

    /// Whether such a segment may stand at this place of its set, and what may come behind it.
    // Inlined, as `keep` is, at the reader of each set: so the form is known there.
    #[inline(always)]
    #[tactic(auto, unfolding(crate::specs::Reasons::admission))]
    pub fn admit(
        &self,
        form: Form,
        kind: Kind,
        place: usize,
        segment: &Segment<'_>,
    ) -> Result<Phase, SetFault>
        requires { place ≤ SET_BYTES }
        ensures exact { Says result segment.now.start (admission form self.now.phase kind (in_set place segment.now)) (λ phase. next_phase self.now.phase kind form ≡ Some phase) }
        ensures short { OnOk result (place + length segment.now.bytes ≤ SET_BYTES) }
    {
        let Some(phase) = self.phase.after(kind, form) else {
            return refuse(segment, SetReason::Order);
        };
        if place + segment.bytes().len() > SET_BYTES {
            return refuse(segment, SetReason::Limit);
        }
        Ok(phase)
    }

    /// Keeps what a segment of this kind says.
    // Inlined, with the short texts of which a set may have many. The others are not: a body makes room ready for all that
    // it may keep, whichever kind comes.
    #[inline(always)]
    #[tactic(auto, unfolding(crate::specs::SoFar::kept))]
    pub fn keep(&mut self, kind: Kind, segment: &Segment<'_>) -> Result<(), SetFault>
        requires { self.old.count ≤ SET_BYTES }
        ensures said { Says result segment.now.start (course_reason self.old segment.now kind)
            (λ _. self.new ≡ kept self.old segment.now kind self.old.phase self.old.count self.old.check) }
        ensures err { OnErr result (self.new ≡ self.old) }
    {
        match kind {
            Kind::Start => self.keep_start(segment),
            Kind::Reference => self.keep_reference(segment),
            Kind::LoopStart => self.keep_loop_start(segment),
            Kind::Item => self.keep_item(segment),
            Kind::Allowance => self.keep_allowance(segment),
            Kind::LineNote | Kind::Note => self.keep_note(segment),
            Kind::LoopEnd => self.keep_loop_end(segment),
            Kind::Totals => self.keep_totals(segment),
            Kind::Signature => self.keep_signature(segment),
            Kind::Integrity => self.keep_integrity(segment),
            Kind::Trailer => self.keep_trailer(segment),
            Kind::Head | Kind::Other => Ok(()),
        }
    }

    /// Keeps a reference.
    #[inline(always)]
    #[tactic(auto, unfolding(crate::specs::SoFar::kept))]
    fn keep_reference(&mut self, segment: &Segment<'_>) -> Result<(), SetFault>
        ensures said { Says result segment.now.start None
            (λ _. self.new ≡ kept self.old segment.now Kind.Reference self.old.phase self.old.count self.old.check) }
        ensures err { OnErr result (self.new ≡ self.old) }
    {
        let text = kept_at(self.alloc, segment)?;
        push_text(&mut self.references, text)?;
        Ok(())
    }

    /// Keeps the line of an item.
    fn keep_item(&mut self, segment: &Segment<'_>) -> Result<(), SetFault>
        ensures said { Says result segment.now.start (item_reason self.old.lines segment.now) (λ _. self.new ≡ with_line (line_in segment.now) self.old) }
        ensures err { OnErr result (self.new ≡ self.old) }
    {
        if self.lines.len() >= MOST_LINES {
            return refuse(segment, SetReason::Limit);
        }
        match read_item(self.alloc, segment) {
            Ok(line) => self.push_line(segment, line),
            Err(fault) => at(segment, Err(fault)),
        }
    }

    /// Adds a line, if its number stands nowhere yet.
    fn push_line(&mut self, segment: &Segment<'_>, line: Line) -> Result<(), SetFault>
        requires room { length self.old.lines < MOST_LINES }
        requires bare { line.extras ≡ [] }
        ensures said { Says result segment.now.start (when (has_line line.dsd self.old.lines) (SetReason.Twice line.dsd)) (λ _. self.new ≡ with_line line self.old) }
        ensures err { OnErr result (self.new ≡ self.old) }
    {
        if self.lines.has(line.dsd) {
            return refuse(segment, SetReason::Twice(line.dsd));
        }
        self.lines.push(line)?;
        Ok(())
    }

    /// Keeps an allowance, behind the last line or at record level.
    fn keep_allowance(&mut self, segment: &Segment<'_>) -> Result<(), SetFault>
        ensures said { Says result segment.now.start (allowance_reason (in_line self.old.phase) (allowances (beside self.old)) segment.now)
            (λ _. self.new ≡ with_beside (Allow (allowance_in segment.now)) self.old) }
        ensures err { OnErr result (self.new ≡ self.old) }
    {
        if self.allowances_beside() >= MOST_ALLOWANCES {
            return refuse(segment, SetReason::Limit);
        }
        match read_allowance(self.alloc, segment, self.phase.in_line()) {
            Ok(allowance) => self.push_extra(Extra::Allow(allowance))?,
            Err(fault) => return at(segment, Err(fault)),
        }
        Ok(())
    }

    /// Keeps a note, behind the last line or at record level.
    #[inline(always)]
    fn keep_note(&mut self, segment: &Segment<'_>) -> Result<(), SetFault>
        ensures said { Says result segment.now.start None (λ _. self.new ≡ with_beside (Note (kept_text segment.now)) self.old) }
        ensures err { OnErr result (self.new ≡ self.old) }
    {
        let text = kept_at(self.alloc, segment)?;
        self.push_extra(Extra::Note(text))?;
        Ok(())
    }

    /// How many allowances one more would stand beside.
    fn allowances_beside(&self) -> usize
        ensures { result ≡ allowances (beside self.now) }
    {
        if self.phase.in_line() {
            self.lines.last_allowances()
        } else {
            self.extras.allowances()
        }
    }

    /// Adds an extra behind the last line or at record level.
    #[inline(always)]
    fn push_extra(&mut self, extra: Extra) -> Result<(), Memory>
        requires sized { IsSized (in_line self.old.phase) extra }
        requires room { HasRoom extra (beside self.old) }
        ensures ok { OnOk result (self.new ≡ with_beside extra self.old) }
        ensures err { OnErr result (self.new ≡ self.old) }
    {
        if self.phase.in_line() {
            self.lines.push_extra(extra)
        } else {
            self.extras.push(extra)
        }
    }

    /// Goes on behind the segment.
    #[tactic(auto, unfolding(crate::specs::SoFar::moved))]
    pub fn advance(&mut self, phase: Phase, segment: &Segment<'_>)
        requires { self.old.count ≤ SET_BYTES }
        ensures { self.new ≡ moved self.old phase (self.old.count + 1) (crc_from self.old.check segment.now.bytes) }
    {
        self.phase = phase;
        self.count += 1;
        self.check.take_all(segment.bytes());
    }

    /// What may come next.
    pub fn phase(&self) -> Phase
        ensures { result ≡ self.now.phase }
    {
        self.phase
    }

    /// What G84 stated.
    pub fn totals(&self) -> StatedTotals
        ensures { result ≡ self.now.totals }
    {
        self.totals
    }

    /// The lines so far.
    pub fn lines(&self) -> &[Line]
        ensures value { result.now ≡ self.now.lines }
        ensures few { length result.now ≤ MOST_LINES }
        ensures behind { All HasExtras result.now }
    {
        self.lines.as_slice()
    }

    /// What stands at record level so far.
    pub fn extras(&self) -> &[Extra]
        ensures value { result.now ≡ self.now.extras }
        ensures right { AreExtras false result.now }
    {
        self.extras.as_slice()
    }

    /// Whether the trailer has come.
    #[inline(always)]
    pub fn is_closed(&self) -> bool
        ensures { result ≡ is_closed self.now }
    {
        self.phase.is_done() && self.signature.is_some()
    }

    /// What the set stated, where it is whole.
    pub fn close(self) -> Option<Closed>
        ensures { MatchOption result (is_closed self ≡ false) (λ closed. (is_closed self ≡ true) × IsClosed self closed) }
    {
        let Course {
            phase,
            control,
            references,
            lines,
            extras,
            totals,
            signature,
            integrity,
            ..
        } = self;
        match signature {
            Some(signature) if phase.is_done() => Some(Closed {
                control,
                references,
                lines: lines.into_lines(),
                extras: extras.into_extras(),
                totals,
                signature,
                check: integrity,
            }),
            _ => None,
        }
    }
}

fn push_text(texts: &mut Vec<Kept>, text: Kept) -> Result<(), Memory>
    ensures ok { OnOk result (texts.new.items ≡ texts.old.items ++ text ∷ []) }
    ensures err { OnErr result (texts.new.items ≡ texts.old.items) }
{
    texts.push(text)?;
    Ok(())
}
