//! The control bytes of a line, and the bytes of a text.

ghost use Rattle.std.specs.Prelude.{◌≡◌, ◌≤◌, true, length, map, take, position};
ghost use Rattle.std.specs.List.{list_all, position_or_len};
ghost use Rattle.std.specs.Simd.Lanes.{mask_l};
ghost use Rattle.dex_line.specs.Bytes.{ends_id, is_no_text, is_text};

use std::simd::prelude::*;

pub(crate) const SOH: u8 = 0x01;

pub(crate) const STX: u8 = 0x02;

pub(crate) const ETX: u8 = 0x03;

pub(crate) const EOT: u8 = 0x04;

pub(crate) const ENQ: u8 = 0x05;

pub(crate) const DLE: u8 = 0x10;

pub(crate) const NAK: u8 = 0x15;

pub(crate) const ETB: u8 = 0x17;

/// How many bytes a vector has.
const LANES: usize = 32;

/// A printable character, CR or LF.
#[tactic(auto, unfolding(crate::specs::Bytes::is_text))]
pub(crate) fn is_text_byte(byte: u8) -> bool
    ensures { result ≡ is_text byte }
{
    matches!(byte, b' '..=b'~') || matches!(byte, b'\r' | b'\n')
}

/// The text bytes at the front, at most so many of them.
#[tactic(auto, using(crate::proofs::Judged::text_before))]
pub(crate) fn text_run(bytes: &[u8], most: usize) -> &[u8]
    ensures front { result.now ≡ take (length result.now) bytes.now }
    ensures inside { length result.now ≤ length bytes.now }
    ensures most { length result.now ≤ most }
    ensures text { list_all is_text result.now ≡ true }
{
    let room = &bytes[..most.min(bytes.len())];
    &room[..text_length(room)]
}

/// How many text bytes stand at the front.
///
/// As many are looked at together as a vector has lanes, and the last ones one after another.
pub(crate) fn text_length(bytes: &[u8]) -> usize
    ensures count { result ≡ position_or_len is_no_text bytes.now }
    ensures inside { result ≤ length bytes.now }
{
    let mut size = 0;
    while bytes.len() - size >= LANES {
        let run = leading_text(u8x32::from_slice(&bytes[size..]));
        if run < LANES {
            return size + run;
        }
        size += LANES;
    }
    size + short_length(&bytes[size..])
}

/// How many of the lanes come before the first that has another byte.
#[tactic(auto, using(std::proofs::lemmas::Simd::leading_from_mask_l, std::proofs::lemmas::Simd::trailing_mask_l))]
fn leading_text(lanes: u8x32) -> usize
    ensures { result ≡ position_or_len is_no_text lanes }
{
    let others = others_in(lanes);
    if others == 0 {
        return LANES;
    }
    others.trailing_zeros() as usize
}

/// Which lanes have no text byte, a bit for each from the lowest on.
fn others_in(lanes: u8x32) -> u64
    ensures { result ≡ mask_l (map is_no_text lanes) }
{
    let unprinted = lanes.simd_lt(u8x32::splat(b' ')) | lanes.simd_gt(u8x32::splat(b'~'));
    let others = unprinted
        & lanes.simd_ne(u8x32::splat(b'\r'))
        & lanes.simd_ne(u8x32::splat(b'\n'));
    others.to_bitmask()
}

/// How many text bytes stand at the front, one after another.
#[tactic(auto, using(crate::proofs::Judged::none_other, crate::proofs::Firsts::ends_inside))]
fn short_length(bytes: &[u8]) -> usize
    ensures count { result ≡ position_or_len is_no_text bytes.now }
    ensures inside { result ≤ length bytes.now }
{
    match first_other(bytes) {
        Some(place) => place,
        None => bytes.len(),
    }
}

fn first_other(bytes: &[u8]) -> Option<usize>
    ensures { result ≡ position is_no_text bytes.now }
{
    bytes.iter().position(|&byte| !is_text_byte(byte))
}

/// What may stand behind the id of a segment.
pub(crate) fn is_id_end(byte: u8) -> bool
    ensures { result ≡ ends_id byte }
{
    byte == b'*' || byte == b'\r' || byte == b'\n'
}
