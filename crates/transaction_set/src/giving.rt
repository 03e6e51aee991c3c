//! The elements of a row, given to the segment that is begun.

ghost use Rattle.std.specs.Prelude.{◌≡◌, ◌+◌, ◌<◌, ◌≤◌, [], ◌∷◌, All, IfSome, IsSome, OnOk, drop, length, map, position};
ghost use Rattle.std.specs.List.{after_first, before_first, slice_split};
ghost use Rattle.std.specs.Option.{option_map_or};
ghost use Rattle.transaction_set.specs.RowsWritten.{behind_star, with_elements};
ghost use Rattle.segments.specs.SegmentSpelling.{IsPart, is_star};
ghost use Rattle.segments.specs.SegmentWriting.{parts_of_begun};
ghost use Rattle.transaction_set.specs.SetWriting.{parted};

use dsd_values::Memory;
use segments::{SEGMENT_ELEMENTS, SegmentWriter};

/// Gives these elements.
pub fn give_all(segments: &mut SegmentWriter, elements: &[&[u8]]) -> Result<(), Memory>
    requires begun { IsSome segments.old.begun }
    requires characters { All IsPart (map (λ e. e.now) elements.now) }
    requires few { length (parts_of_begun segments.old.begun) + length elements.now ≤ SEGMENT_ELEMENTS + 1 }
    ensures { OnOk result (segments.new ≡ with_elements (map (λ e. e.now) elements.now) segments.old) }
{
    for element in elements {
        segments.element(element)?;
    }
    Ok(())
}

/// Gives the elements of a tail as it is kept: none where it is empty.
pub fn give_tail(segments: &mut SegmentWriter, tail: &[u8]) -> Result<(), Memory>
    requires begun { IsSome segments.old.begun }
    requires characters { All IsPart (parted tail.now) }
    requires few { length (parts_of_begun segments.old.begun) + length (parted tail.now) ≤ SEGMENT_ELEMENTS + 1 }
    ensures { OnOk result (segments.new ≡ with_elements (parted tail.now) segments.old) }
{
    if tail.is_empty() {
        return Ok(());
    }
    give_parted(segments, tail)
}

/// Gives the elements that stars part.
fn give_parted(segments: &mut SegmentWriter, text: &[u8]) -> Result<(), Memory>
    requires begun { IsSome segments.old.begun }
    requires characters { All IsPart (slice_split is_star text.now) }
    requires few { length (parts_of_begun segments.old.begun) + length (slice_split is_star text.now) ≤ SEGMENT_ELEMENTS + 1 }
    ensures { OnOk result (segments.new ≡ with_elements (slice_split is_star text.now) segments.old) }
{
    let (part, behind) = cut(text);
    segments.element(part)?;
    match behind {
        Some(rest) => give_parted(segments, rest),
        None => Ok(()),
    }
}

/// What stands before the first star, and what stands behind it where there is one.
#[tactic(auto, using(crate::proofs::GivenRows::split_at, crate::proofs::GivenRows::split_whole))]
pub fn cut(text: &[u8]) -> (&[u8], Option<&[u8]>)
    ensures before { result.0.now ≡ before_first is_star text.now }
    ensures behind { behind_star result.1 ≡ after_first is_star text.now }
    ensures parts { slice_split is_star text.now ≡ result.0.now ∷ option_map_or (λ rest. slice_split is_star rest.now) result.1 [] }
    ensures shorter { IfSome result.1 (λ rest. length rest.now < length text.now) }
{
    match first_star(text) {
        Some(place) => (&text[..place], Some(behind(text, place))),
        None => (text, None),
    }
}

/// The text, or the empty one where there is none.
pub fn or_empty(text: Option<&[u8]>) -> &[u8]
    ensures { result.now ≡ behind_star text.entry }
{
    match text {
        Some(text) => text,
        None => &[],
    }
}

/// What stands behind this place.
fn behind(text: &[u8], place: usize) -> &[u8]
    requires { place < length text.now }
    ensures value { result.now ≡ drop (place + 1) text.now }
    ensures shorter { length result.now < length text.now }
{
    &text[place + 1..]
}

fn first_star(text: &[u8]) -> Option<usize>
    ensures { result ≡ position is_star text.now }
{
    text.iter().position(|byte| *byte == b'*')
}
