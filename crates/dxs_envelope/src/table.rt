//! The header and the trailer of a transmission.

ghost use Rattle.std.specs.Prelude.{MatchOption, false, true, ◌≡◌, ◌+◌, ◌≤◌};
ghost use Rattle.std.specs.List.{list_all};
ghost use Rattle.std.specs.Char.{is_ascii_digit};
ghost use Rattle.segments.specs.declared.segment.TheConstants.{SEGMENT_ELEMENTS};
ghost use Rattle.dxs_envelope.specs.EnvelopeTable.{count_in, has_length as has_so_many, is_control_number as are_control_digits, is_ended as ends_behind, is_header as is_header_but_function, is_trailer};
ghost use Rattle.dxs_envelope.specs.FirstFault.{header_reason as reason_of_header, trailer_reason as reason_of_trailer};

use super::fault::EnvelopeReason;
use dsd_values::{WORD_BYTES, read_number};
use segments::{Segment, has_id};

/// The reason against a segment as the header.
pub fn header_reason(segment: &Segment<'_>) -> Option<EnvelopeReason>
    ensures { result ≡ reason_of_header segment.now }
{
    if !is_header(segment) {
        return Some(EnvelopeReason::NoHeader);
    }
    if segment.element(2) != b"DX".as_slice() {
        return Some(EnvelopeReason::Function);
    }
    None
}

/// Whether the segment is a header, whatever its function is.
#[tactic(auto, unfolding(crate::specs::EnvelopeTable::is_header))]
fn is_header(segment: &Segment<'_>) -> bool
    ensures { result ≡ is_header_but_function segment.now }
{
    has_id(segment, b"DXS")
        && has_length(segment.element(1), 1, 10)
        && has_length(segment.element(3), 1, 12)
        && is_control_number(segment.element(4))
        && has_length(segment.element(5), 0, 10)
        && has_length(segment.element(6), 0, WORD_BYTES)
        && is_ended(segment, 6)
}

/// The reason against a segment as the trailer of a transmission with this control number, in which so many sets were found.
pub fn trailer_reason(segment: &Segment<'_>, control: &[u8], found: u64) -> Option<EnvelopeReason>
    ensures { result ≡ reason_of_trailer control.now found segment.now }
{
    let Some(said) = trailer_count(segment) else {
        return Some(EnvelopeReason::NoTrailer);
    };
    if segment.element(1) != control {
        return Some(EnvelopeReason::Control);
    }
    if said != found {
        return Some(EnvelopeReason::Count { said, found });
    }
    None
}

/// How many sets the segment says that there are, where it is a trailer.
#[tactic(auto, unfolding(crate::specs::EnvelopeTable::is_trailer))]
fn trailer_count(segment: &Segment<'_>) -> Option<u64>
    ensures { MatchOption result (is_trailer segment.now ≡ false)
        (λ said. (is_trailer segment.now ≡ true) × (said ≡ count_in segment.now)) }
{
    let right = has_id(segment, b"DXE") && is_control_number(segment.element(1));
    match read_number(segment.element(2)) {
        Ok(said) if right && is_ended(segment, 2) => Some(said),
        _ => None,
    }
}

fn has_length(text: &[u8], least: usize, most: usize) -> bool
    ensures { result ≡ has_so_many least most text.now }
{
    least <= text.len() && text.len() <= most
}

/// Whether these are 1 to 9 digits.
fn is_control_number(text: &[u8]) -> bool
    ensures { result ≡ are_control_digits text.now }
{
    has_length(text, 1, 9) && are_digits(text)
}

fn are_digits(text: &[u8]) -> bool
    ensures { result ≡ list_all is_ascii_digit text.now }
{
    text.iter().all(|byte| byte.is_ascii_digit())
}

/// Whether each element behind the last listed one is empty.
fn is_ended(segment: &Segment<'_>, last: usize) -> bool
    requires { last ≤ SEGMENT_ELEMENTS }
    ensures { result ≡ ends_behind last segment.now }
{
    for element in last + 1..segment.count() + 1 {
        if !segment.element(element).is_empty() {
            return false;
        }
    }
    true
}
