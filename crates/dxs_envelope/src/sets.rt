//! The sets of a transmission.

ghost use Rattle.std.specs.Prelude.{◌≡◌, ◌+◌, ◌<◌, ◌≤◌, Some, None, ℕ, List, length, IfOk, IfSome, MatchOption, MatchResult};
ghost use Rattle.segments.specs.SegmentCut.{next_of, left_after};
ghost use Rattle.segments.specs.SegmentSpelling.{IsFront};
ghost use Rattle.dxs_envelope.specs.FirstFault.{Behind, Between as AtSets, Front, Inside, refused, told_behind, told_left, told_of, whole};
ghost use Rattle.dxs_envelope.specs.SetsLeft.{IsAt, StandsBehind, Tells, between as standing_between, segment_at as segment_or_fault};

use super::fault::{EnvelopeFault, EnvelopeReason, refuse};
use super::slice::SetSlice;
use super::stage::Stage;
use super::table::{header_reason, trailer_reason};
use segments::{Segment, SegmentReader, between, has_id};
use std::marker::Model;

/// Reads a transmission, set by set. A contract sees it as what is still to be told of the text: sets with their places, and
/// then its right end or its fault.
#[derive(Drop)]
pub struct Sets<'a> {
    text: &'a [u8],
    segments: SegmentReader<'a>,
    stage: Stage<'a>,
}

impl<'a> Model for Sets<'a> {
    ghost use Rattle.dxs_envelope.specs.SetsLeft.{KeepsStage, told_in};
    ghost use Rattle.dxs_envelope.specs.Views.{Told};

    ghost Value = { Told };

    ghost view = { λ s. told_in s.stage s.segments };

    ghost invariant = { λ s. KeepsStage s.stage s.text.now s.segments };
}

impl<'a> Sets<'a> {
    /// The sets of this text.
    pub fn new(text: &'a [u8]) -> Sets<'a>
        ensures { result ≡ told_of text.now }
    {
        let mut segments = SegmentReader::new(text);
        let stage = match read_header(text, &mut segments) {
            Ok((control, place)) => Stage::Between {
                control,
                found: 0,
                place,
            },
            Err(fault) => Stage::Ended(Some(fault)),
        };
        Sets {
            text,
            segments,
            stage,
        }
    }

    /// The next set, or none behind a right trailer at the end of the text. After a fault each call gives the same.
    pub fn next(&mut self) -> Result<Option<SetSlice<'a>>, EnvelopeFault>
        ensures { Tells self.old result self.new }
    {
        match self.stage {
            Stage::Between {
                control,
                found,
                place,
            } => {
                let answer = next_set(self.text, &mut self.segments, place, control, found);
                self.stage = stage_behind(&answer, control, found);
                answer
            }
            Stage::Ended(None) => Ok(None),
            Stage::Ended(Some(fault)) => Err(fault),
        }
    }
}

/// Where the reading stands behind this answer to one that stood behind so many sets.
fn stage_behind<'a>(
    answer: &Result<Option<SetSlice<'_>>, EnvelopeFault>,
    control: &'a [u8],
    found: u64,
) -> Stage<'a>
    requires { IfOk answer.now (λ some. IfSome some (λ set. found < set.start + length set.bytes)) }
    ensures { StandsBehind control.now found answer.now result }
{
    match answer {
        Ok(Some(set)) => {
            let place = set.end();
            Stage::Between {
                control,
                found: found + 1,
                place,
            }
        }
        Ok(None) => Stage::Ended(None),
        Err(fault) => Stage::Ended(Some(*fault)),
    }
}

/// The control number of the header, and the place behind it.
fn read_header<'a>(
    text: &'a [u8],
    segments: &mut SegmentReader<'a>,
) -> Result<(&'a [u8], usize), EnvelopeFault>
    requires { IsAt text.now 0 segments.old }
    ensures { MatchResult result
        (λ x. IsAt text.now x.1 segments.new × (told_left Front segments.old ≡ told_left (AtSets x.0.now 0) segments.new))
        (λ fault. told_left Front segments.old ≡ refused fault) }
{
    let Some(segment) = segment_at(segments, 0)? else {
        return refuse(0, EnvelopeReason::NoHeader);
    };
    match header_reason(&segment) {
        Some(reason) => refuse(segment.start(), reason),
        None => Ok((segment.element(4), segment.end())),
    }
}

/// The next set behind so many, or none where a right trailer ends the text.
fn next_set<'a>(
    text: &'a [u8],
    segments: &mut SegmentReader<'a>,
    place: usize,
    control: &[u8],
    found: u64,
) -> Result<Option<SetSlice<'a>>, EnvelopeFault>
    requires { IsAt text.now place segments.old }
    ensures { MatchResult result
        (λ some. MatchOption some (told_left (AtSets control.now found) segments.old ≡ whole)
        (λ set. IsAt text.now (set.start + length set.bytes) segments.new × (place < set.start + length set.bytes)
        × (told_left (AtSets control.now found) segments.old ≡ told_behind set (told_left (AtSets control.now (found + 1)) segments.new))))
        (λ fault. told_left (AtSets control.now found) segments.old ≡ refused fault) }
{
    let Some(segment) = segment_at(segments, place)? else {
        return refuse(place, EnvelopeReason::NoTrailer);
    };
    if has_id(&segment, b"ST") {
        return Ok(Some(read_set(text, segments, place, segment.end())?));
    }
    if let Some(reason) = trailer_reason(&segment, control, found) {
        return refuse(place, reason);
    }
    read_end(segments, segment.end())
}

/// None at the end of the text.
fn read_end<'a>(
    segments: &mut SegmentReader<'a>,
    place: usize,
) -> Result<Option<SetSlice<'a>>, EnvelopeFault>
    requires { segments.old.place ≡ place }
    ensures { MatchResult result
        (λ some. (some ≡ None) × (told_left Behind segments.old ≡ whole))
        (λ fault. told_left Behind segments.old ≡ refused fault) }
{
    match segment_at(segments, place)? {
        None => Ok(None),
        Some(_) => refuse(place, EnvelopeReason::Tail),
    }
}

/// The set that starts there, of which the segments up to this place are read.
fn read_set<'a>(
    text: &'a [u8],
    segments: &mut SegmentReader<'a>,
    start: usize,
    read: usize,
) -> Result<SetSlice<'a>, EnvelopeFault>
    requires at { IsAt text.now read segments.old }
    requires begun { start ≤ read }
    ensures { (control : List ℕ) → (found : ℕ) → MatchResult result
        (λ set. IsAt text.now (set.start + length set.bytes) segments.new × (read ≤ set.start + length set.bytes)
        × (told_left (Inside control found (record { start = start; bytes = standing_between start read text.now })) segments.old
        ≡ told_behind set (told_left (AtSets control (found + 1)) segments.new)))
        (λ fault. told_left (Inside control found (record { start = start; bytes = standing_between start read text.now })) segments.old
        ≡ refused fault) }
{
    let mut place = read;
    while let Some(segment) = segment_at(segments, place)? {
        place = segment.end();
        if has_id(&segment, b"SE") {
            return Ok(SetSlice::new(start, between(text, start, place)));
        }
    }
    refuse(place, EnvelopeReason::NoTrailer)
}

/// The next segment, or its fault at the place where it starts.
#[inline(always)]
fn segment_at<'a>(
    segments: &mut SegmentReader<'a>,
    place: usize,
) -> Result<Option<Segment<'a>>, EnvelopeFault>
    ensures answer { result ≡ segment_or_fault place (next_of segments.old) }
    ensures left { segments.new ≡ left_after segments.old }
    ensures front { IfOk result (λ some. IfSome some (λ seg. IsFront seg segments.old segments.new)) }
{
    match segments.next() {
        Ok(segment) => Ok(segment),
        Err(fault) => refuse(place, EnvelopeReason::Segment(fault)),
    }
}
