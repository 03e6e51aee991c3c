//! A transmission, from a text in pieces.

ghost use Rattle.std.specs.Prelude.{◌≡◌, ◌+◌, ◌-◌, ◌<◌, ◌≤◌, ◌^◌, [], Err, IfErr, IfOk, IfSome, MatchOption, Ok, length};
ghost use Rattle.segments.specs.Streaming.{reached};
ghost use Rattle.dxs_envelope.specs.TextParts.{answered, fault_at, found_at};
ghost use Rattle.dxs_envelope.specs.TextPieces.{HearsText, Judges, StopsText, TakesText, after_bytes, part_seen, some_part_seen, text_begun, text_left};
ghost use Rattle.dxs_envelope.specs.declared.fault.EnvelopeReason.TheVariants.{Segment as Unreadable};

use super::fault::{EnvelopeFault, EnvelopeReason};
use super::text_course::{PartKind, TextCourse};
use segments::{Segment, SegmentFault, SegmentStream};
use std::marker::Model;

/// A segment, and what it is in its transmission.
#[derive(Drop)]
pub enum Part<'a> {
    Header(Segment<'a>),
    InSet(Segment<'a>),
    SetEnd(Segment<'a>),
    Trailer(Segment<'a>),
}

/// Reads a transmission that comes in pieces, part by part. It holds one segment, and takes no memory.
#[derive(Drop)]
pub struct TextStream {
    course: TextCourse,
    segments: SegmentStream,
    // What the segment is that the last byte ended.
    kind: Option<PartKind>,
}

impl Model for TextStream {
    ghost use Rattle.dxs_envelope.specs.TextPieces.{KeepsText, TextAt, text_at};

    ghost Value = { TextAt };

    ghost view = { λ s. text_at s.course s.segments s.kind };

    ghost invariant = { λ s. KeepsText s.course s.segments };
}

impl TextStream {
    /// A stream at the front of a text, whose places it counts from 0.
    pub fn new() -> TextStream
        ensures { result ≡ text_begun }
    {
        TextStream {
            course: TextCourse::new(),
            segments: SegmentStream::new(),
            kind: None,
        }
    }

    /// Takes the bytes of a piece up to the end of the segment that is begun, and answers how many it took: all of them, or
    /// those through the terminator of a segment, which `part` then lends. A fault is answered at the first byte at which it
    /// stands, and then by each call.
    pub fn take(&mut self, piece: &[u8]) -> Result<usize, EnvelopeFault>
        requires placed { reached self.old.segments + length piece.now < 2 ^ 64 }
        ensures left { self.new ≡ after_bytes self.old piece.now }
        ensures answer { result ≡ answered self.new.course.fault (reached self.new.segments - reached self.old.segments) }

        // The same is told, whatever comes behind the piece.
        ensures took { IfOk result (λ size. TakesText self.old self.new piece.now size) }
        ensures refused { IfErr result (λ fault. StopsText self.old piece.now fault) }
    {
        self.hear(piece)
    }

    /// The part that the last byte ended.
    pub fn part(&self) -> Option<Part<'_>>
        ensures { some_part_seen result ≡ self.now.told }
    {
        let kind = self.kind?;
        let segment = self.segments.segment()?;
        Some(part_as(kind, segment))
    }

    /// Whether the text may end here: the bytes that were taken are a transmission.
    pub fn end(&self) -> Result<(), EnvelopeFault>
        ensures answer { MatchOption (text_left self.now []).fault (result ≡ Ok tt) (λ fault. result ≡ Err fault) }
        ensures over { (text_left self.now []).parts ≡ [] }
    {
        if let Some(fault) = self.course.fault() {
            return Err(fault);
        }
        match self.segments.end() {
            Ok(()) => self.course.end(self.segments.place()),
            Err(SegmentFault::NoEnd(start)) => Err(unreadable(start, SegmentFault::NoEnd(start))),
            Err(_) => unreachable!(),
        }
    }

    /// The place of the byte that comes next.
    pub fn place(&self) -> usize
        ensures { result ≡ reached self.now.segments }
    {
        self.segments.place()
    }

    fn hear(&mut self, piece: &[u8]) -> Result<usize, EnvelopeFault>
        requires { reached self.old.segments + length piece.now < 2 ^ 64 }
        ensures { HearsText self.old self.new piece.now result }
    {
        self.kind = None;
        if let Some(fault) = self.course.fault() {
            return Err(fault);
        }
        match self.segments.take(piece) {
            Ok(size) => match judged(&mut self.course, &self.segments) {
                Ok(kind) => {
                    self.kind = kind;
                    Ok(size)
                }
                Err(fault) => Err(fault),
            },
            Err(fault) => {
                let fault = unreadable(self.segments.place(), fault);
                self.course.fail(fault);
                Err(fault)
            }
        }
    }
}

/// What the segment is that has ended, where one has.
fn judged(
    course: &mut TextCourse,
    segments: &SegmentStream,
) -> Result<Option<PartKind>, EnvelopeFault>
    requires placed { IfSome segments.now.told (λ seg. found_at course.old.standing ≤ seg.start) }
    ensures { Judges segments.now.told course.old course.new result }
{
    let Some(segment) = segments.segment() else {
        return Ok(None);
    };
    match course.take(&segment) {
        Ok(kind) => Ok(Some(kind)),
        Err(fault) => Err(fault),
    }
}

/// A segment that cannot be read is a fault where it starts.
fn unreadable(place: usize, fault: SegmentFault) -> EnvelopeFault
    ensures { result ≡ fault_at place (Unreadable fault) }
{
    EnvelopeFault {
        place,
        reason: EnvelopeReason::Segment(fault),
    }
}

/// The part that a segment of this kind is.
fn part_as(kind: PartKind, segment: Segment<'_>) -> Part<'_>
    ensures { part_seen result ≡ record { kind = kind; segment = segment.entry } }
{
    match kind {
        PartKind::Header => Part::Header(segment),
        PartKind::InSet => Part::InSet(segment),
        PartKind::SetEnd => Part::SetEnd(segment),
        PartKind::Trailer => Part::Trailer(segment),
    }
}
