//! The elements of a segment, read one by one: each answers its value, or refuses its element by number.

ghost use Rattle.std.specs.Prelude.{◌≡◌, ◌+◌, ◌<◌, ◌≤◌, [], None, length, IfOk, Ok, Err};
ghost use Rattle.dsd_values.specs.Answers.{UnlessMemory};
ghost use Rattle.dsd_values.specs.Reading.{IsElementText, plain_number_of, dsd_of, quantity_of, total_quantity_of, cents_of, cost_of, check_of, word_of, filled_word_of, word_between};
ghost use Rattle.segments.specs.Elements.{kept_text};
ghost use Rattle.segments.specs.Views.{element_of};
ghost use Rattle.segments.specs.declared.segment.TheConstants.{SEGMENT_ELEMENTS};
ghost use Rattle.dsd_values.specs.declared.fault.ValueFault.TheVariants.{TooLong};
ghost use Rattle.segments.specs.Elements.{Reads, at_element, said, optional, no_more, tail_from, without_end_stars as trimmed};

use crate::item_fault::ItemFault;
use crate::segment::Segment;
use dsd_values::{
    Cents, Check, Cost, DsdNumber, KEPT_BYTES, Kept, KeptFault, Memory, Quantity, ValueFault,
    WORD_BYTES, Word, read_cents, read_check, read_cost, read_dsd, read_number, read_quantity,
    read_total_quantity, read_word_between,
};
use std::alloc::Global;

/// The value of the element with this number, or why it is refused.
pub fn in_element<V>(element: usize, answer: Result<V, ValueFault>) -> Result<V, ItemFault>
    ensures { Reads result (at_element element answer) (λ v. answer ≡ Ok v) }
{
    match answer {
        Ok(value) => Ok(value),
        Err(fault) => Err(ItemFault::Value { element, fault }),
    }
}

/// The text of an optional word: empty where the element is. The characters of an element are not judged again.
#[tactic(auto, using(crate::proofs::Ids::no_place))]
pub fn word_text_at<'a>(segment: &Segment<'a>, element: usize) -> Result<&'a [u8], ItemFault>
    ensures value { Reads result (at_element element (word_of (element_of segment.now element))) (λ v. v.now ≡ said [] (word_of (element_of segment.now element))) }
    ensures word { IfOk result (λ v. IsElementText v.now × (length v.now ≤ WORD_BYTES)) }
{
    let text = segment.element(element);
    if text.len() > WORD_BYTES {
        return too_long(element, text.len());
    }
    Ok(text)
}

/// The text of a mandatory word.
#[tactic(auto, using(crate::proofs::Ids::no_place))]
pub fn filled_text_at<'a>(segment: &Segment<'a>, element: usize) -> Result<&'a [u8], ItemFault>
    ensures value { Reads result (at_element element (filled_word_of (element_of segment.now element))) (λ v. v.now ≡ said [] (filled_word_of (element_of segment.now element))) }
    ensures word { IfOk result (λ v. IsElementText v.now × (length v.now ≤ WORD_BYTES)) }
{
    let text = segment.element(element);
    if text.is_empty() {
        return Err(ItemFault::Value {
            element,
            fault: ValueFault::Empty,
        });
    }
    if text.len() > WORD_BYTES {
        return too_long(element, text.len());
    }
    Ok(text)
}

/// An optional word.
pub fn word_at(segment: &Segment<'_>, element: usize) -> Result<Word, ItemFault>
    ensures { Reads result (at_element element (word_of (element_of segment.now element))) (λ v. v ≡ said [] (word_of (element_of segment.now element))) }
{
    let text = word_text_at(segment, element)?;
    Ok(Word::new(text))
}

/// A mandatory word.
pub fn filled_word_at(segment: &Segment<'_>, element: usize) -> Result<Word, ItemFault>
    ensures { Reads result (at_element element (filled_word_of (element_of segment.now element))) (λ v. v ≡ said [] (filled_word_of (element_of segment.now element))) }
{
    let text = filled_text_at(segment, element)?;
    Ok(Word::new(text))
}

fn too_long<T>(element: usize, length: usize) -> Result<T, ItemFault>
    ensures { result ≡ Err (ItemFault.Value element (TooLong length)) }
{
    Err(ItemFault::Value {
        element,
        fault: ValueFault::TooLong(length),
    })
}

/// A mandatory word of at least `least` and at most `most` bytes.
pub fn word_between_at(
    segment: &Segment<'_>,
    element: usize,
    least: usize,
    most: usize,
) -> Result<Word, ItemFault>
    requires { most ≤ WORD_BYTES }
    ensures { Reads result (at_element element (word_between least most (element_of segment.now element))) (λ v. v ≡ said [] (word_between least most (element_of segment.now element))) }
{
    in_element(
        element,
        read_word_between(segment.element(element), least, most),
    )
}

/// A mandatory number of at most 15 digits.
pub fn number_at(segment: &Segment<'_>, element: usize) -> Result<u64, ItemFault>
    ensures { Reads result (at_element element (plain_number_of (element_of segment.now element))) (λ v. v ≡ said 0 (plain_number_of (element_of segment.now element))) }
{
    in_element(element, read_number(segment.element(element)))
}

pub fn dsd_at(segment: &Segment<'_>, element: usize) -> Result<DsdNumber, ItemFault>
    ensures { Reads result (at_element element (dsd_of (element_of segment.now element))) (λ v. v ≡ said 0 (dsd_of (element_of segment.now element))) }
{
    in_element(element, read_dsd(segment.element(element)))
}

pub fn quantity_at(segment: &Segment<'_>, element: usize) -> Result<Quantity, ItemFault>
    ensures { Reads result (at_element element (quantity_of (element_of segment.now element))) (λ v. v ≡ said 0 (quantity_of (element_of segment.now element))) }
{
    in_element(element, read_quantity(segment.element(element)))
}

pub fn total_quantity_at(segment: &Segment<'_>, element: usize) -> Result<u32, ItemFault>
    ensures { Reads result (at_element element (total_quantity_of (element_of segment.now element))) (λ v. v ≡ said 0 (total_quantity_of (element_of segment.now element))) }
{
    in_element(element, read_total_quantity(segment.element(element)))
}

pub fn cents_at(segment: &Segment<'_>, element: usize) -> Result<Cents, ItemFault>
    ensures { Reads result (at_element element (cents_of (element_of segment.now element))) (λ v. v ≡ said 0 (cents_of (element_of segment.now element))) }
{
    in_element(element, read_cents(segment.element(element)))
}

/// An amount that may be left out.
pub fn optional_cents_at(segment: &Segment<'_>, element: usize) -> Result<Option<Cents>, ItemFault>
    ensures { Reads result (at_element element (optional cents_of (element_of segment.now element))) (λ v. v ≡ said None (optional cents_of (element_of segment.now element))) }
{
    if segment.element(element).is_empty() {
        return Ok(None);
    }
    Ok(Some(cents_at(segment, element)?))
}

pub fn cost_at(segment: &Segment<'_>, element: usize) -> Result<Cost, ItemFault>
    ensures { Reads result (at_element element (cost_of (element_of segment.now element))) (λ v. v ≡ said 0 (cost_of (element_of segment.now element))) }
{
    in_element(element, read_cost(segment.element(element)))
}

pub fn check_at(segment: &Segment<'_>, element: usize) -> Result<Check, ItemFault>
    ensures { Reads result (at_element element (check_of (element_of segment.now element))) (λ v. v ≡ said 0 (check_of (element_of segment.now element))) }
{
    in_element(element, read_check(segment.element(element)))
}

/// Refuses the first element behind the last listed one that is not empty.
pub fn end_of_elements(segment: &Segment<'_>, last: usize) -> Result<(), ItemFault>
    requires { last ≤ SEGMENT_ELEMENTS }
    ensures { Reads result (no_more last segment.now) (λ _. Unit {0}) }
{
    for element in last + 1..segment.count() + 1 {
        let length = segment.element(element).len();
        if length > 0 {
            return Err(ItemFault::Value {
                element,
                fault: ValueFault::TooLong(length),
            });
        }
    }
    Ok(())
}

/// The segment as it is kept: its id and elements, joined by `*`, without empty trailing ones.
pub fn kept_at(alloc: Global, segment: &Segment<'_>) -> Result<Kept, Memory>
    ensures { IfOk result (λ text. text ≡ kept_text segment.now) }
{
    kept(alloc, segment.tail_from(0))
}

/// The elements from this number on, joined by `*`, without empty trailing ones.
// Most segments end before their tail: that case alone is inlined.
#[inline(always)]
pub fn tail_at(alloc: Global, segment: &Segment<'_>, first: usize) -> Result<Kept, ItemFault>
    ensures { UnlessMemory ItemFault.Memory result (Ok (tail_from first segment.now)) }
{
    let tail = segment.tail_from(first);
    if tail.is_empty() {
        return Ok(Kept::empty());
    }
    Ok(kept(alloc, tail)?)
}

/// Keeps a text without the stars at its end.
#[inline(never)]
fn kept(alloc: Global, text: &[u8]) -> Result<Kept, Memory>
    requires { length text.now ≤ KEPT_BYTES }
    ensures { IfOk result (λ kept. kept ≡ trimmed text.now) }
{
    match Kept::new(alloc, without_end_stars(text)) {
        Ok(kept) => Ok(kept),
        Err(KeptFault::Memory) => Err(Memory),
        Err(KeptFault::Long(_)) => unreachable!(),
    }
}

#[tactic(auto, using(crate::proofs::EndStars::trim_one, crate::proofs::EndStars::trim_none))]
fn without_end_stars(text: &[u8]) -> &[u8]
    ensures value { result.now ≡ trimmed text.now }
    ensures shorter { length result.now ≤ length text.now }
{
    let Some((&last, front)) = text.split_last() else {
        return text;
    };
    if last == b'*' {
        without_end_stars(front)
    } else {
        text
    }
}
