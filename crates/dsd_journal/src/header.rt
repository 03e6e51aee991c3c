//! How a journal begins.

ghost use Rattle.std.specs.Prelude.{◌≡◌, ◌<◌, ◌≤◌, [], false, length, drop, IfErr, IfOk, MatchOption, slice_index_or};
ghost use Rattle.dsd_journal.specs.Headers.{IsHeader, IsId, formatted, role_letter as letter_of_role};
ghost use Rattle.dsd_journal.specs.JournalImage.{Leads};
ghost use Rattle.dsd_journal.specs.Reading.{header_fits, header_of, role_of_letter, FitsBelow, IsMistitled};

use crate::limits::{FORMATTED_BYTES, HEADER_BYTES};
use arrayvec::ArrayVec;
use dsd_values::{CommId, Role};

const FORMAT: [u8; 5] = *b"DEXJ1";

/// Whose journal it is: the end that keeps it, its communication id and its peer's.
#[derive(Clone, Copy, Debug, PartialEq, Eq)]
pub struct Header {
    pub role: Role,
    pub own: CommId,
    pub peer: CommId,
}

/// Reads the header at the front of bytes, or says where they are none.
pub(crate) fn read_header(bytes: &[u8]) -> Result<Header, usize>
    ensures ok { IfOk result (λ header. Leads header [] (drop HEADER_BYTES bytes.now) bytes.now) }
    ensures long { IfOk result (λ header. HEADER_BYTES ≤ length bytes.now) }
    ensures err { IfErr result (λ place. IsMistitled bytes.now place) }
{
    let front = &bytes[..HEADER_BYTES.min(bytes.len())];
    if let Some(place) = first_misfit(front) {
        return Err(place);
    }
    if bytes.len() < HEADER_BYTES {
        return Err(bytes.len());
    }
    Ok(header_in(front))
}

/// The place of the first byte that may not stand there.
fn first_misfit(bytes: &[u8]) -> Option<usize>
    ensures { MatchOption result (FitsBelow (length bytes.now) bytes.now)
        (λ place. (place < length bytes.now) × FitsBelow place bytes.now × (header_fits place (slice_index_or bytes.now place 0) ≡ false)) }
{
    for place in 0..bytes.len() {
        if !fits(place, bytes[place]) {
            return Some(place);
        }
    }
    None
}

/// Whether a byte may stand at this place of a header.
fn fits(place: usize, byte: u8) -> bool
    ensures { result ≡ header_fits place byte }
{
    match place {
        0..=4 => byte == FORMAT[place],
        5 => byte == b'H' || byte == b'R',
        6..=25 => byte.is_ascii_uppercase() || byte.is_ascii_digit(),
        _ => byte == b'\n',
    }
}

/// The header of a header's bytes, which fit.
fn header_in(bytes: &[u8]) -> Header
    requires whole { length bytes.now ≡ HEADER_BYTES }
    requires fits { FitsBelow HEADER_BYTES bytes.now }
    ensures { result ≡ header_of bytes.now }
{
    Header {
        role: role_of(bytes[5]),
        own: id_of(&bytes[6..16]),
        peer: id_of(&bytes[16..26]),
    }
}

fn role_of(letter: u8) -> Role
    ensures { result ≡ role_of_letter letter }
{
    if letter == b'H' {
        return Role::Supplier;
    }
    Role::Receiver
}

fn id_of(text: &[u8]) -> CommId
    requires { IsId text.now }
    ensures { result ≡ text.now }
{
    let mut id = [0; 10];
    id.copy_from_slice(text);
    CommId::new(id)
}

fn role_letter(role: Role) -> u8
    ensures { result ≡ letter_of_role role }
{
    match role {
        Role::Supplier => b'H',
        Role::Receiver => b'R',
    }
}

/// The bytes of a journal without entries.
pub(crate) fn formatted_bytes(header: &Header) -> ArrayVec<u8, FORMATTED_BYTES>
    ensures items { result.items ≡ formatted header.now }
    ensures titled { IsHeader header.now }
{
    let mut bytes = ArrayVec::new();
    let _ = bytes.try_extend_from_slice(&FORMAT);
    bytes.push(role_letter(header.role));
    let _ = bytes.try_extend_from_slice(&header.own.get());
    let _ = bytes.try_extend_from_slice(&header.peer.get());
    bytes.push(b'\n');
    bytes.push(0);
    bytes
}
