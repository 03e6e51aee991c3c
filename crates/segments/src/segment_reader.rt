ghost use Rattle.std.specs.Prelude.{[], ◌∷◌, Err, IfErr, IfOk, IfSome, IsTrue, OnErr, drop, length, take, ◌+◌, ◌<◌, ◌^◌, ◌↔◌, ◌≡◌, ◌≤◌};
ghost use Rattle.segments.specs.PartEnds.{IsBodyOf, IsJudged};
ghost use Rattle.segments.specs.SegmentCut.{after_body, body_length, first_of, left_after, limited as within_limit, next_of, size_of, text_start};
ghost use Rattle.segments.specs.SegmentSpelling.{IsFront};
ghost use Rattle.segments.specs.SegmentRefusal.{IsFault};
ghost use Rattle.segments.specs.Views.{Left, Seg};
ghost use Rattle.segments.specs.declared.segment_fault.SegmentFault.{SegmentFault};

use crate::segment::{SEGMENT_BYTES, Segment, judge};
use crate::segment_body::{PartEnds, body_at};
use crate::segment_fault::SegmentFault;
use std::marker::Model;

/// Lends the segments of a text one after another.
#[derive(Drop)]
pub struct SegmentReader<'a> {
    rest: &'a [u8],
    place: usize,
}

impl<'a> Model for SegmentReader<'a> {
    ghost use Rattle.std.specs.Prelude.{◌+◌, ◌<◌, ◌^◌, length};
    ghost use Rattle.segments.specs.Views.{Left};

    ghost Value = { Left };

    ghost view = { λ r. record { rest = r.rest.now; place = r.place } };

    ghost invariant = { λ r. r.place + length r.rest.now < 2 ^ 64 };
}

impl<'a> SegmentReader<'a> {
    /// A reader at the front of the text, whose places it counts from 0.
    pub fn new(text: &'a [u8]) -> SegmentReader<'a>
        ensures { result ≡ text_start text.now }
    {
        SegmentReader {
            rest: text,
            place: 0,
        }
    }

    /// The next segment, or none at the end of the text. After a fault the reader stays, and each call gives the same.
    // Inlined, with what it calls, at each reader of a text: so a segment stays in registers.
    #[inline(always)]
    pub fn next(&mut self) -> Result<Option<Segment<'a>>, SegmentFault>
        ensures answer { result ≡ next_of self.old }
        ensures left { self.new ≡ left_after self.old }

        // What is lent is spelled at the front, and whatever segment is spelled there is lent.
        ensures spelled { IfOk result (λ some. IfSome some (λ seg. IsFront seg self.old self.new)) }
        ensures front { (seg : Seg) (behind : Left) → IsFront seg self.old behind → (result ≡ Ok (Some seg)) × (self.new ≡ behind) }

        // Each fault is answered exactly where it stands at the front, and none exactly at the end.
        ensures refused { (fault : SegmentFault) → (result ≡ Err fault) ↔ IsFault self.old fault }
        ensures end { (result ≡ Ok None) ↔ (self.old.rest ≡ []) }
        ensures stays { OnErr result (self.new ≡ self.old) }
    {
        self.advance()
    }

    #[inline(always)]
    #[tactic(auto, unfolding(crate::specs::SegmentCut::next_of, crate::specs::SegmentCut::left_after, crate::specs::SegmentCut::first_of))]
    fn advance(&mut self) -> Result<Option<Segment<'a>>, SegmentFault>
        ensures answer { result ≡ next_of self.old }
        ensures left { self.new ≡ left_after self.old }
    {
        if self.rest.is_empty() {
            return Ok(None);
        }
        let mut ends = PartEnds::new();
        let size = judged_front(self.place, self.rest, &mut ends)?;
        let start = self.place;
        let bytes = first(self.rest, size);
        self.rest = behind(self.rest, size);
        self.place += size;
        Ok(Some(Segment::new(start, bytes, ends)))
    }
}

/// How many bytes the segment at the front takes, with its terminator. The list is filled with the ends of its parts.
#[inline(always)]
pub(crate) fn judged_front(
    start: usize,
    rest: &[u8],
    ends: &mut PartEnds,
) -> Result<usize, SegmentFault>
    requires empty { ends.old.items ≡ [] }
    requires placed { start + length rest.now < 2 ^ 64 }
    ensures right { IfOk result (λ size. IsJudged start rest.now ends.new.items size) }
    ensures refused { IfErr result (λ fault. first_of start rest.now ≡ Err fault) }
{
    let length = body_at(first_bytes(rest), ends);
    judged_size(start, rest, length, ends.as_slice())
}

/// How many bytes the segment at the front takes, with its terminator, where so many of the first bytes stand before it
/// and its parts end there.
#[inline(always)]
fn judged_size(start: usize, rest: &[u8], body: usize, ends: &[u16]) -> Result<usize, SegmentFault>
    requires body { IsBodyOf (take (SEGMENT_BYTES + 1) rest.now) body ends.now }
    requires placed { start + length rest.now < 2 ^ 64 }
    ensures right { IfOk result (λ size. IsJudged start rest.now ends.now size) }
    ensures refused { IfErr result (λ fault. first_of start rest.now ≡ Err fault) }
{
    let size = first_size(start, body, rest)?;
    match judge(start, first(rest, size), ends) {
        Ok(()) => Ok(size),
        Err(fault) => Err(fault),
    }
}

/// The bytes that decide: as many as a segment may have, and one more.
fn first_bytes(rest: &[u8]) -> &[u8]
    ensures value { result.now ≡ take (SEGMENT_BYTES + 1) rest.now }
    ensures short { length result.now ≤ SEGMENT_BYTES + 1 }
{
    &rest[..(SEGMENT_BYTES + 1).min(rest.len())]
}

/// The first bytes, of which there are so many.
pub(crate) fn first(rest: &[u8], size: usize) -> &[u8]
    requires { size ≤ length rest.now }
    ensures { result.now ≡ take size rest.now }
{
    &rest[..size]
}

/// How many bytes the segment at the front takes, with its terminator, where so many of the first bytes stand before it.
fn first_size(start: usize, body: usize, rest: &[u8]) -> Result<usize, SegmentFault>
    requires front { body ≡ body_length (take (SEGMENT_BYTES + 1) rest.now) }
    requires placed { start + length rest.now < 2 ^ 64 }
    ensures { result ≡ size_of start rest.now }
{
    let after = behind(rest, body);
    // Nearly every segment ends so: asked first, and at once.
    if body <= SEGMENT_BYTES - 2 && is_line_end(after) {
        return Ok(body + 2);
    }
    if body > SEGMENT_BYTES {
        return Err(SegmentFault::TooLong(start));
    }
    size_behind(start, body, after)
}

/// Whether a CR and an LF stand at the front.
fn is_line_end(after: &[u8]) -> bool
    ensures { IsTrue result → after.now ≡ 13 ∷ 10 ∷ drop 2 after.now }
{
    matches!(after, [b'\r', b'\n', ..])
}

/// How many bytes a segment takes, where so many stand before what follows.
fn size_behind(start: usize, body: usize, after: &[u8]) -> Result<usize, SegmentFault>
    requires placed { start + body + length after.now < 2 ^ 64 }
    ensures { result ≡ after_body start body after.now }
{
    match after {
        [] => Err(SegmentFault::NoEnd(start)),
        [b'\n', ..] => limited(start, body + 1),
        [b'\r', ..] if body == SEGMENT_BYTES => Err(SegmentFault::TooLong(start)),
        [b'\r'] => Err(SegmentFault::NoEnd(start)),
        [b'\r', b'\n', ..] => limited(start, body + 2),
        [byte, ..] => Err(SegmentFault::BadByte(start + body, *byte)),
    }
}

fn limited(start: usize, size: usize) -> Result<usize, SegmentFault>
    ensures { result ≡ within_limit start size }
{
    if size > SEGMENT_BYTES {
        return Err(SegmentFault::TooLong(start));
    }
    Ok(size)
}

/// What stands from this place on.
fn behind(text: &[u8], place: usize) -> &[u8]
    requires { place ≤ length text.now }
    ensures { result.now ≡ drop place text.now }
{
    &text[place..]
}
