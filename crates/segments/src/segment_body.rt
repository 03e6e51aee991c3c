ghost use Rattle.std.specs.Prelude.{ℕ, true, false, ◌≡◌, ◌≢◌, ◌+◌, ◌<◌, ◌≤◌, if◌then◌else◌, [], ◌∷◌, ◌++◌, length, slice_index, slice_index_or, take};
ghost use Rattle.std.specs.Int.{bit_at};
ghost use Rattle.segments.specs.PartEnds.{IsBodyOf, IsFirstBit};
ghost use Rattle.segments.specs.SegmentCut.{is_outside};
ghost use Rattle.segments.specs.SegmentSpelling.{is_star};
ghost use Rattle.segments.specs.declared.segment.TheConstants.{SEGMENT_BYTES};

use arrayvec::ArrayVec;
use std::simd::prelude::*;

/// How many bytes are looked at together.
const BLOCK: usize = 32;

/// Where the id and the elements of a segment end, counted from its start: the places of the separators, and the place
/// of the terminator. There is room for one more than a segment may have, so a full list means too many.
pub type PartEnds = ArrayVec<u16, 32>;

/// How many bytes stand at the front of these before the first that is neither an element character nor `*`, and in the
/// list where their parts end. They are found in one pass: a block of bytes is looked at together, and then only those
/// that end a part. Past the end of the bytes a block has zeros, which are outside.
// The list is the caller's, so that it is filled where it stays.
#[inline(always)]
pub fn body_at(front: &[u8], ends: &mut PartEnds) -> usize
    requires short { length front.now ≤ SEGMENT_BYTES + 1 }
    requires empty { ends.old.items ≡ [] }
    ensures { IsBodyOf front.now result ends.new.items }
{
    let mut place = 0;
    let mut inside = BLOCK;
    while inside == BLOCK {
        let block = block_at(front, place);
        inside = inside_of(block);
        let mut stars = first_bits(stars_in(block), inside);
        // A full list says too many: where the others stand is not asked.
        while stars != 0 && ends.len() < ends.capacity() {
            add_end(ends, place + first_of(stars));
            stars = without_first(stars);
        }
        place += inside;
    }
    push_end(ends, place);
    place
}

/// Notes one more end, where there is room.
#[tactic(auto, using(crate::proofs::Scan::taken_all, crate::proofs::Scan::taken_full))]
fn push_end(ends: &mut PartEnds, place: usize)
    requires { place ≤ SEGMENT_BYTES + 1 }
    ensures { ends.new.items ≡ take 32 (ends.old.items ++ place ∷ []) }
{
    if ends.len() < ends.capacity() {
        add_end(ends, place);
    }
}

/// Notes one more end.
fn add_end(ends: &mut PartEnds, place: usize)
    requires place { place ≤ SEGMENT_BYTES + 1 }
    requires room { length ends.old.items < 32 }
    ensures { ends.new.items ≡ ends.old.items ++ place ∷ [] }
{
    ends.push(place as u16);
}

/// The bytes from this place on, with zeros past the end.
fn block_at(front: &[u8], place: usize) -> u8x32
    requires { place ≤ length front.now }
    ensures { (k : ℕ) → k < BLOCK → slice_index result k ≡ slice_index_or front.now (place + k) 0 }
{
    if front.len() - place >= BLOCK {
        return u8x32::from_slice(&front[place..]);
    }
    last_block(front, place)
}

fn last_block(front: &[u8], place: usize) -> u8x32
    requires inside { place ≤ length front.now }
    requires last { length front.now < place + BLOCK }
    ensures { (k : ℕ) → k < BLOCK → slice_index result k ≡ slice_index_or front.now (place + k) 0 }
{
    let mut last = [0; BLOCK];
    let mut i = 0;
    while i < front.len() - place {
        last[i] = front[place + i];
        i += 1;
    }
    u8x32::from_array(last)
}

/// How many bytes of a block stand before the first that is outside.
fn inside_of(block: u8x32) -> usize
    ensures few { result ≤ BLOCK }
    ensures inside { (k : ℕ) → k < result → is_outside (slice_index block k) ≡ false }
    ensures outside { result < BLOCK → is_outside (slice_index block result) ≡ true }
{
    let outside = outside_in(block);
    if outside == 0 {
        return BLOCK;
    }
    first_of(outside)
}

/// Which bytes of a block are outside, a bit for each from the lowest on.
fn outside_in(block: u8x32) -> u64
    ensures each { (k : ℕ) → k < BLOCK → bit_at result k ≡ (if is_outside (slice_index block k) then 1 else 0) }
    ensures past { (k : ℕ) → BLOCK ≤ k → bit_at result k ≡ 0 }
{
    let outside = block.simd_lt(u8x32::splat(b' ')) | block.simd_gt(u8x32::splat(b'~'));
    outside.to_bitmask()
}

/// Which bytes of a block are separators, a bit for each from the lowest on.
fn stars_in(block: u8x32) -> u64
    ensures { (k : ℕ) → k < BLOCK → bit_at result k ≡ (if is_star (slice_index block k) then 1 else 0) }
{
    block.simd_eq(u8x32::splat(b'*')).to_bitmask()
}

/// The number of the lowest bit that is set.
fn first_of(bits: u64) -> usize
    requires { bits ≢ 0 }
    ensures { IsFirstBit bits result }
{
    bits.trailing_zeros() as usize
}

/// The first bits, of which there are so many.
fn first_bits(bits: u64, count: usize) -> u64
    requires { count ≤ BLOCK }
    ensures kept { (k : ℕ) → k < count → bit_at result k ≡ bit_at bits k }
    ensures past { (k : ℕ) → count ≤ k → bit_at result k ≡ 0 }
{
    bits & ((1 << count) - 1)
}

/// The bits without the lowest that is set.
fn without_first(bits: u64) -> u64
    requires { bits ≢ 0 }
    ensures gone { (first : ℕ) → IsFirstBit bits first → bit_at result first ≡ 0 }
    ensures others { (first k : ℕ) → IsFirstBit bits first → k ≢ first → bit_at result k ≡ bit_at bits k }
    ensures fewer { result < bits }
{
    bits & (bits - 1)
}
