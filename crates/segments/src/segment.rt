ghost use Rattle.std.specs.Prelude.{◌≡◌, ◌+◌, ◌-◌, ◌<◌, ◌≤◌, ◌^◌, ◌&&◌, [], Err, IfErr, OnOk, drop, length, slice_index_or, take};
ghost use Rattle.std.specs.List.{join_with_byte};
ghost use Rattle.segments.specs.PartEnds.{IsSpelled, KeepsSegment, ends_from, start_of};
ghost use Rattle.segments.specs.SegmentCut.{parts_of, seg_at, with_parts};
ghost use Rattle.segments.specs.SegmentSpelling.{IsPart, SpellsSegment, is_id as is_id_spelling, is_id_byte as id_byte};
ghost use Rattle.segments.specs.Views.{element_of, has_id as starts_with_id};

use crate::segment_body::PartEnds;
use crate::segment_fault::SegmentFault;
use std::marker::Model;

/// The most bytes of a segment that is read, with its terminator.
pub const SEGMENT_BYTES: usize = 512;

/// The most elements of a segment, empty ones at its end too.
pub const SEGMENT_ELEMENTS: usize = 30;

/// A segment, lent from its text: an id and elements, where they stand.
#[derive(Drop)]
pub struct Segment<'a> {
    start: usize,
    bytes: &'a [u8],
    ends: PartEnds,
}

impl<'a> Model for Segment<'a> {
    ghost use Rattle.segments.specs.PartEnds.{KeepsSegment};
    ghost use Rattle.segments.specs.SegmentCut.{seg_at};
    ghost use Rattle.segments.specs.Views.{Seg};

    ghost Value = { Seg };

    ghost view = { λ s. seg_at s.start s.bytes.now };

    ghost invariant = { λ s. KeepsSegment s.start s.bytes.now s.ends.items };
}

impl<'a> Segment<'a> {
    /// The segment of these bytes, whose parts end there.
    // Inlined where it is made last, so that the list of its ends is copied no more than once.
    #[inline(always)]
    pub(crate) fn new(start: usize, bytes: &'a [u8], ends: PartEnds) -> Segment<'a>
        requires { KeepsSegment start bytes.now ends.items }
        ensures { result ≡ seg_at start bytes.now }
    {
        Segment { start, bytes, ends }
    }

    /// The place at which it starts.
    pub fn start(&self) -> usize
        ensures { result ≡ self.now.start }
    {
        self.start
    }

    /// The place behind its terminator.
    pub fn end(&self) -> usize
        ensures { result ≡ self.now.start + length self.now.bytes }
    {
        self.start + self.bytes.len()
    }

    /// The id.
    pub fn id(&self) -> &'a [u8]
        ensures value { result.now ≡ element_of self.now 0 }
        ensures characters { IsPart result.now }
        ensures short { length result.now ≤ 3 }
    {
        let _ = &self.start;
        self.element(0)
    }

    /// How many elements it has, empty ones at its end too.
    pub fn count(&self) -> usize
        ensures value { result + 1 ≡ length self.now.parts }
        ensures few { result ≤ SEGMENT_ELEMENTS }
    {
        self.ends.len() - 1
    }

    /// The element with this number, from 1, or the empty one past the last. Number 0 is the id.
    pub fn element(&self, number: usize) -> &'a [u8]
        ensures value { result.now ≡ element_of self.now number }
        ensures characters { IsPart result.now }
        ensures short { length result.now ≤ SEGMENT_BYTES }
    {
        if number >= self.ends.len() {
            return &[];
        }
        part_at(self.bytes, self.ends.as_slice(), number)
    }

    /// The text of the elements from this number on, as it stands, or the empty one where there are none.
    pub fn tail_from(&self, number: usize) -> &'a [u8]
        ensures value { result.now ≡ join_with_byte 42 (drop number self.now.parts) }
        ensures short { length result.now ≤ SEGMENT_BYTES }
    {
        if number >= self.ends.len() {
            return &[];
        }
        tail_at(self.bytes, self.ends.as_slice(), number)
    }

    /// Its bytes, with the terminator.
    pub fn bytes(&self) -> &'a [u8]
        ensures value { result.now ≡ self.now.bytes }
        ensures spelled { SpellsSegment self.now }
    {
        self.bytes
    }
}

/// Refuses bytes that end as a segment does where they are none, by the id and then by the number of elements.
// It answers no segment, since a value with a list in it is copied with each answer that it stands in.
pub(crate) fn judge(start: usize, bytes: &[u8], ends: &[u16]) -> Result<(), SegmentFault>
    requires spelled { IsSpelled bytes.now }
    requires parted { ends.now ≡ take 32 (ends_from 0 (parts_of bytes.now)) }
    requires placed { start + length bytes.now < 2 ^ 64 }
    ensures right { OnOk result (KeepsSegment start bytes.now ends.now) }
    ensures refused { IfErr result (λ fault. with_parts (seg_at start bytes.now) ≡ Err fault) }
{
    if !is_id(part_at(bytes, ends, 0)) {
        return Err(SegmentFault::BadId(start));
    }
    if ends.len() > SEGMENT_ELEMENTS + 1 {
        return Err(SegmentFault::TooManyElements(start));
    }
    Ok(())
}

/// Where the part with this number starts: behind the separator before it.
fn part_start(ends: &[u16], number: usize) -> usize
    requires { number < length ends.now }
    ensures { result ≡ start_of ends.now number }
{
    if number == 0 {
        0
    } else {
        ends[number - 1] as usize + 1
    }
}

/// The part with this number.
fn part_at<'a>(bytes: &'a [u8], ends: &[u16], number: usize) -> &'a [u8]
    requires inside { number < length ends.now }
    requires spelled { IsSpelled bytes.now }
    requires parted { ends.now ≡ take (length ends.now) (ends_from 0 (parts_of bytes.now)) }
    ensures value { result.now ≡ slice_index_or (parts_of bytes.now) number [] }
    ensures short { length result.now ≤ length bytes.now }
{
    between(bytes, part_start(ends, number), ends[number] as usize)
}

/// The text from the part with this number on.
fn tail_at<'a>(bytes: &'a [u8], ends: &[u16], number: usize) -> &'a [u8]
    requires inside { number < length ends.now }
    requires spelled { IsSpelled bytes.now }
    requires parted { ends.now ≡ ends_from 0 (parts_of bytes.now) }
    ensures value { result.now ≡ join_with_byte 42 (drop number (parts_of bytes.now)) }
    ensures short { length result.now ≤ length bytes.now }
{
    between(
        bytes,
        part_start(ends, number),
        ends[ends.len() - 1] as usize,
    )
}

/// Whether the segment has this id.
pub fn has_id(segment: &Segment<'_>, id: &[u8]) -> bool
    ensures { result ≡ starts_with_id segment.now id.now }
{
    segment.id() == id
}

/// What stands from one place of a text up to another.
pub fn between(text: &[u8], start: usize, end: usize) -> &[u8]
    requires ordered { start ≤ end }
    requires inside { end ≤ length text.now }
    ensures value { result.now ≡ take (end - start) (drop start text.now) }
    ensures whole { start + length result.now ≡ end }
{
    &text[start..end]
}

// By length first, so that no loop is needed: an id has two or three bytes.
#[tactic(auto, using(crate::proofs::Ids::id_of_two, crate::proofs::Ids::id_of_three, crate::proofs::Ids::no_id))]
fn is_id(id: &[u8]) -> bool
    ensures { result ≡ is_id_spelling id.now }
{
    match id {
        [first, second] => first.is_ascii_uppercase() && is_id_byte(*second),
        [first, second, third] => {
            first.is_ascii_uppercase() && is_id_byte(*second) && is_id_byte(*third)
        }
        _ => false,
    }
}

fn is_id_byte(byte: u8) -> bool
    ensures { result ≡ id_byte byte }
{
    byte.is_ascii_uppercase() || byte.is_ascii_digit()
}
