//! What stands behind an open gate.

ghost use Rattle.std.specs.Prelude.{◌≡◌, ◌==◌, ◌&&◌, ◌||◌, nat_lt, take, drop, length, [], ◌∷◌, ◌+◌, ◌<◌, ◌≤◌, Err, IfErr, IfOk, MatchOption, None, Ok, Some};
ghost use Rattle.dsd_values.specs.declared.limits.TheConstants.{SET_BYTES as MOST_BYTES};
ghost use Rattle.dsd_journal.specs.Reading.{entry_of, kind_of_letter, size_fourth, size_of, IsBad, IsUnfinished, IsWhole};

use crate::entry::EntryKind;
use crate::limits::JOURNAL_BYTES;
use dsd_values::SET_BYTES;

/// How many bytes a payload's length has.
const SIZE_BYTES: usize = 4;

/// Reads an entry: its kind, its payload and what is behind them. There is none where the bytes end inside one. An
/// `Err` is the place of the first byte with which no entry goes on, or of the kind of one that has no place for the
/// gate behind it.
pub(crate) fn read_entry(gate: u64, behind: &[u8]) -> Result<Option<(EntryKind, &[u8], &[u8])>, u64>
    requires { gate < JOURNAL_BYTES }
    ensures found { IfOk result (λ found. MatchOption found (IsUnfinished gate behind.now) (λ e. IsWhole gate behind.now e.0 e.1.now e.2.now)) }
    ensures bad { IfErr result (λ place. IsBad gate behind.now place) }
{
    find_entry(gate, behind)
}

fn find_entry(gate: u64, behind: &[u8]) -> Result<Option<(EntryKind, &[u8], &[u8])>, u64>
    requires { gate < JOURNAL_BYTES }
    ensures found { IfOk result (λ found. MatchOption found (entry_of gate behind.now ≡ Ok None) (λ e. entry_of gate behind.now ≡ Ok (Some (e.0, e.1.now, e.2.now)))) }
    ensures bad { IfErr result (λ place. entry_of gate behind.now ≡ Err place) }
{
    let [first, rest @ ..] = behind else {
        return Ok(None);
    };
    let Some(kind) = kind_of(*first) else {
        return Err(gate + 1);
    };
    match read_size(rest) {
        Err(count) if count == rest.len() => Ok(None),
        Err(count) => Err(gate + 2 + count as u64),
        Ok(size) if gate + 6 + size as u64 >= JOURNAL_BYTES => Err(gate + 1),
        Ok(size) if rest.len() < SIZE_BYTES + size => Ok(None),
        Ok(size) => Ok(Some(cut_entry(kind, rest, size))),
    }
}

/// The kind, the payload of this length that stands behind its length, and what is behind it.
fn cut_entry(kind: EntryKind, sized: &[u8], size: usize) -> (EntryKind, &[u8], &[u8])
    requires { 4 + size ≤ length sized.now }
    ensures kind { result.0 ≡ kind }
    ensures payload { result.1.now ≡ take size (drop 4 sized.now) }
    ensures behind { result.2.now ≡ drop (4 + size) sized.now }
{
    let (payload, next) = sized[SIZE_BYTES..].split_at(size);
    (kind, payload, next)
}

fn kind_of(letter: u8) -> Option<EntryKind>
    ensures { result ≡ kind_of_letter letter }
{
    match letter {
        b'S' => Some(EntryKind::Signed),
        b'T' => Some(EntryKind::Took),
        _ => None,
    }
}

/// Reads a length of four bytes, the greatest first, or says how many of them some length has.
fn read_size(bytes: &[u8]) -> Result<usize, usize>
    ensures exact { result ≡ size_of bytes.now }
    ensures most { IfOk result (λ size. size ≤ MOST_BYTES) }
    ensures few { IfErr result (λ count. count < 4) }
{
    match bytes {
        [] => Err(0),
        [first, ..] if *first != 0 => Err(0),
        [_] => Err(1),
        [_, second, ..] if *second > 4 => Err(1),
        [_, _] => Err(2),
        [_, second, third, ..] if !third_goes_on(*second, *third) => Err(2),
        [_, _, _] => Err(3),
        [_, second, third, fourth, ..] => read_last(*second, *third, *fourth),
    }
}

/// Whether some length goes on with the third byte.
fn third_goes_on(second: u8, third: u8) -> bool
    ensures { result ≡ (nat_lt third 256 && (nat_lt second 4 || third == 0)) }
{
    second < 4 || third == 0
}

/// The length with these bytes behind a 0.
fn read_last(second: u8, third: u8, fourth: u8) -> Result<usize, usize>
    ensures { result ≡ size_fourth second third (fourth ∷ []) }
{
    let size = u32::from_be_bytes([0, second, third, fourth]) as usize;
    if size == 0 || size > SET_BYTES {
        return Err(3);
    }
    Ok(size)
}
