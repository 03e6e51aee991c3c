ghost use Rattle.std.specs.Prelude.{◌≡◌, ◌≤◌, ◌<◌, ◌+◌, ◌^◌, ◌++◌, length, take, drop, map, [], true, false, nat_lt, MatchOption, IfSome};
ghost use Rattle.dsd_station.specs.Cursors.{advanced, due_at, IsIn, IsMark, NoByteNext, mark_of};
ghost use Rattle.dsd_station.specs.Effects.{count_in, heard_in, IsPiece};
ghost use Rattle.dsd_station.specs.Planned.{DueByte, dues_of, heard_of, left_due};

use crate::feeding::{Fed, Given};
use crate::station::Heard;

/// A place in what a port was fed: how many pieces are heard whole, and how much of the next one.
#[derive(Clone, Copy, Debug, PartialEq, Eq)]
pub struct Cursor {
    pub head: usize,
    pub offset: usize,
}

/// What a `listen` hears from a place on, and the place behind it.
pub fn hear(fed: &[Fed], from: Cursor, into: &mut [u8; 64]) -> (Heard, Cursor)
    requires { IsIn fed.now from }
    ensures piece { IsPiece result.0 }
    ensures rest { drop (count_in result.0) into.new ≡ drop (count_in result.0) into.old }
    ensures heard { heard_in into.new result.0 ≡ heard_of (due_at fed.now from) }
    ensures left { due_at fed.now result.1 ≡ left_due (due_at fed.now from) }
    ensures inside { IsIn fed.now result.1 }
{
    let (count, behind) = take_bytes(fed, from, into);
    if count > 0 {
        return (Heard::Bytes(count), behind);
    }
    take_mark(fed, behind)
}

/// Whether nothing is due from a place on.
pub fn is_silent(fed: &[Fed], from: Cursor) -> bool
    requires { IsIn fed.now from }
    ensures none { result ≡ true → due_at fed.now from ≡ [] }
    ensures some { result ≡ false → 0 < length (due_at fed.now from) }
{
    let mut at = from;
    while at.head < fed.len() {
        if gives_more(&fed[at.head].given, at.offset) {
            return false;
        }
        at = Cursor {
            head: at.head + 1,
            offset: 0,
        };
    }
    true
}

/// Whether a piece gives more behind so much of it.
fn gives_more(given: &Given, offset: usize) -> bool
    ensures { result ≡ nat_lt offset (length (dues_of given.now)) }
{
    match given {
        Given::Bytes(bytes) => offset < bytes.as_slice().len(),
        Given::Quiet(times) => offset < *times as usize,
        Given::Unplugged => offset < 1,
    }
}

/// Takes the bytes that come next, up to 64.
fn take_bytes(fed: &[Fed], from: Cursor, into: &mut [u8; 64]) -> (usize, Cursor)
    requires { IsIn fed.now from }
    ensures count { result.0 ≤ 64 }
    ensures rest { drop result.0 into.new ≡ drop result.0 into.old }
    ensures bytes { due_at fed.now from ≡ map DueByte (take result.0 into.new) ++ due_at fed.now result.1 }
    ensures inside { IsIn fed.now result.1 }
    ensures end { result.0 < 64 → NoByteNext result.1.offset (drop result.1.head fed.now) }
{
    let mut count = 0;
    let mut at = from;
    while count < 64 && at.head < fed.len() {
        let Some(rest) = bytes_of(&fed[at.head].given, at.offset) else {
            break;
        };
        let taken = rest.len().min(64 - count);
        into[count..count + taken].copy_from_slice(&rest[..taken]);
        count += taken;
        at = behind(at, taken, rest.len());
    }
    (count, at)
}

/// The place after so many bytes of the rest of its piece.
fn behind(at: Cursor, taken: usize, rest: usize) -> Cursor
    requires head { at.head + 1 < 2 ^ 64 }
    requires offset { at.offset + rest < 2 ^ 64 }
    ensures { result ≡ advanced at taken rest }
{
    if taken < rest {
        return Cursor {
            head: at.head,
            offset: at.offset + taken,
        };
    }
    Cursor {
        head: at.head + 1,
        offset: 0,
    }
}

/// The bytes that are left of a piece, or none where it gives something else next.
fn bytes_of(given: &Given, offset: usize) -> Option<&[u8]>
    requires { offset ≤ length (dues_of given.now) }
    ensures rest { MatchOption result (IsMark given.now offset) (λ rest. drop offset (dues_of given.now) ≡ map DueByte rest.now) }
    ensures small { IfSome result (λ rest. offset + length rest.now < 2 ^ 64) }
{
    match given {
        Given::Bytes(bytes) => Some(&bytes.as_slice()[offset..]),
        Given::Quiet(times) if offset < *times as usize => None,
        Given::Unplugged if offset == 0 => None,
        Given::Quiet(_) | Given::Unplugged => Some(&[]),
    }
}

/// Takes what comes next where it is no byte.
fn take_mark(fed: &[Fed], at: Cursor) -> (Heard, Cursor)
    requires inside { IsIn fed.now at }
    requires mark { NoByteNext at.offset (drop at.head fed.now) }
    ensures piece { IsPiece result.0 }
    ensures heard { heard_in [] result.0 ≡ heard_of (due_at fed.now at) }
    ensures left { due_at fed.now result.1 ≡ left_due (due_at fed.now at) }
    ensures inside { IsIn fed.now result.1 }
{
    if at.head == fed.len() {
        return (Heard::Quiet, at);
    }
    let (heard, offset) = mark(&fed[at.head].given, at.offset);
    let head = at.head;
    (heard, Cursor { head, offset })
}

/// What a piece gives that gives no byte, and how much of it is gone then.
fn mark(given: &Given, offset: usize) -> (Heard, usize)
    requires { IsMark given.now offset }
    ensures heard { heard_in [] result.0 ≡ mark_of given.now }
    ensures piece { IsPiece result.0 }
    ensures offset { result.1 ≡ offset + 1 }
{
    match given {
        Given::Quiet(times) => {
            let _times = *times;
            (Heard::Quiet, offset + 1)
        }
        Given::Unplugged => (Heard::Unplugged, offset + 1),
        Given::Bytes(_) => unreachable!(),
    }
}
