//! A transmission, segment by segment.

ghost use Rattle.std.specs.Prelude.{◌≡◌, ◌+◌, ◌≤◌, None, MatchOption, length};
ghost use Rattle.dxs_envelope.specs.FirstFault.{Between, after, reason_at};
ghost use Rattle.dxs_envelope.specs.TextParts.{after_segment, answered, bare, course_end, course_start, found_at, kind_at};

use super::fault::{EnvelopeFault, EnvelopeReason, refuse};
use super::table::{header_reason, trailer_reason};
use dsd_values::Word;
use segments::{Segment, has_id};
use std::marker::Model;

/// What a segment is in its transmission.
#[derive(Clone, Copy, Debug, PartialEq, Eq)]
pub enum PartKind {
    /// The first segment.
    Header,
    /// A segment of a set, its ST too, but not the SE that ends it.
    InSet,
    /// The first SE behind an ST.
    SetEnd,
    /// The last segment.
    Trailer,
}

/// Where a reading stands.
#[derive(Clone, Copy, Debug)]
enum CourseStage {
    Front,
    Between,
    Inside,
    Behind,
}

/// Judges the segments of a transmission, one after another. A contract sees it as where it stands, and the fault that it
/// has met.
#[derive(Drop)]
pub struct TextCourse {
    stage: CourseStage,
    // The control number of the header, behind it.
    control: Word,
    // How many sets have ended.
    found: u64,
    fault: Option<EnvelopeFault>,
}

impl Model for TextCourse {
    ghost use Rattle.dxs_envelope.specs.TextParts.{Course, standing_in};

    ghost Value = { Course };

    ghost view = { λ c. record { standing = standing_in c.stage c.control c.found; fault = c.fault } };
}

impl TextCourse {
    /// A course at the front of a text.
    pub fn new() -> TextCourse
        ensures { result ≡ course_start }
    {
        TextCourse {
            stage: CourseStage::Front,
            control: Word::empty(),
            found: 0,
            fault: None,
        }
    }

    /// What the next segment is, or the first reason against it, where it starts. After a fault each call gives the same.
    pub fn take(&mut self, segment: &Segment<'_>) -> Result<PartKind, EnvelopeFault>
        requires placed { found_at self.old.standing ≤ segment.now.start }
        ensures left { self.new ≡ after_segment self.old segment.now }
        ensures answer { result ≡ answered self.new.fault (kind_at self.old.standing segment.now) }
        ensures few { found_at self.new.standing ≤ segment.now.start + length segment.now.bytes }
    {
        if let Some(fault) = self.fault {
            return Err(fault);
        }
        if let Some(reason) = self.reason_against(segment) {
            let fault = EnvelopeFault {
                place: segment.start(),
                reason,
            };
            self.fault = Some(fault);
            return Err(fault);
        }
        let kind = self.kind_of(segment);
        self.go_on(kind, segment);
        Ok(kind)
    }

    /// Whether the text may end at this place: the segments that were taken are a transmission.
    pub fn end(&self, place: usize) -> Result<(), EnvelopeFault>
        ensures { MatchOption (course_end self.now place) (result ≡ Ok tt) (λ fault. result ≡ Err fault) }
    {
        if let Some(fault) = self.fault {
            return Err(fault);
        }
        match self.stage {
            CourseStage::Front => refuse(place, EnvelopeReason::NoHeader),
            CourseStage::Between | CourseStage::Inside => refuse(place, EnvelopeReason::NoTrailer),
            CourseStage::Behind => Ok(()),
        }
    }

    /// The fault that was met.
    pub fn fault(&self) -> Option<EnvelopeFault>
        ensures { result ≡ self.now.fault }
    {
        self.fault
    }

    /// Meets this fault.
    pub(crate) fn fail(&mut self, fault: EnvelopeFault)
        ensures { self.new ≡ record { standing = self.old.standing; fault = Some fault } }
    {
        self.fault = Some(fault);
    }

    fn reason_against(&self, segment: &Segment<'_>) -> Option<EnvelopeReason>
        ensures { result ≡ reason_at self.now.standing segment.now }
    {
        match self.stage {
            CourseStage::Front => header_reason(segment),
            CourseStage::Between => between_reason(segment, self.control.as_slice(), self.found),
            CourseStage::Inside => None,
            CourseStage::Behind => Some(EnvelopeReason::Tail),
        }
    }

    fn kind_of(&self, segment: &Segment<'_>) -> PartKind
        ensures { result ≡ kind_at self.now.standing segment.now }
    {
        match self.stage {
            CourseStage::Front => PartKind::Header,
            CourseStage::Between if has_id(segment, b"ST") => PartKind::InSet,
            CourseStage::Between => PartKind::Trailer,
            CourseStage::Inside if has_id(segment, b"SE") => PartKind::SetEnd,
            CourseStage::Inside => PartKind::InSet,
            CourseStage::Behind => PartKind::Trailer,
        }
    }

    /// Stands behind a segment of this kind.
    fn go_on(&mut self, kind: PartKind, segment: &Segment<'_>)
        requires right { reason_at self.old.standing segment.now ≡ None }
        requires kind { kind ≡ kind_at self.old.standing segment.now }
        requires placed { found_at self.old.standing ≤ segment.now.start }
        ensures stands { self.new ≡ record { standing = bare (after self.old.standing segment.now); fault = self.old.fault } }
        ensures few { found_at self.new.standing ≤ segment.now.start + length segment.now.bytes }
    {
        // A segment takes a byte at least, so there are fewer sets than places.
        let _ = segment.bytes();
        let _ = segment.end();
        match kind {
            PartKind::Header => {
                self.control = Word::new(segment.element(4));
                self.found = 0;
                self.stage = CourseStage::Between;
            }
            PartKind::InSet => self.stage = CourseStage::Inside,
            PartKind::SetEnd => {
                self.found += 1;
                self.stage = CourseStage::Between;
            }
            PartKind::Trailer => self.stage = CourseStage::Behind,
        }
    }
}

/// The reason against a segment behind so many sets.
fn between_reason(segment: &Segment<'_>, control: &[u8], found: u64) -> Option<EnvelopeReason>
    ensures { result ≡ reason_at (Between control.now found) segment.now }
{
    if has_id(segment, b"ST") {
        return None;
    }
    trailer_reason(segment, control, found)
}
