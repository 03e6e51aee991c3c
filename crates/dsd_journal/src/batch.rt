//! The bytes of a flush, put together in room that was made before.

ghost use Rattle.std.specs.Prelude.{◌≡◌, ◌≤◌, ◌<◌, ◌+◌, ◌^◌, [], ◌∷◌, ◌++◌, drop, length, vec_len, vec_capacity};
ghost use Rattle.dsd_station.specs.Causes.{HasCause};
ghost use Rattle.dsd_station.specs.Told.{IsSynced, ReadMayStay};
ghost use Rattle.dsd_journal.specs.JournalImage.{body, kind_letter as letter_of_kind, open_gate as open_byte};
ghost use Rattle.dsd_journal.specs.Steps.{Opened};

use crate::entry::EntryKind;
use crate::limits::OPEN_GATE;
use crate::steps::open_gate;
use dsd_station::{Failed, Station};

const CLOSED_GATE: u8 = 0;

/// Adds an entry behind an open gate: its kind, its length and its payload.
pub(crate) fn add_entry(batch: &mut Vec<u8>, kind: EntryKind, payload: &[u8])
    requires room { vec_len batch.old + length payload.now + 6 ≤ vec_capacity batch.old }
    requires fits { length payload.now < 2 ^ 32 }
    ensures items { batch.new.items ≡ batch.old.items ++ open_byte ∷ body (record { kind = kind; payload = payload.now }) }
    ensures len { vec_len batch.new ≡ vec_len batch.old + length payload.now + 6 }
    ensures capacity { vec_capacity batch.old ≤ vec_capacity batch.new }
{
    add(batch, &[OPEN_GATE, kind_letter(kind)]);
    add(batch, &(payload.len() as u32).to_be_bytes());
    add(batch, payload);
}

/// Writes a batch and a closed gate behind it over the gate at this place and what follows it, its own first gate last.
pub(crate) fn write_batch<T: Station>(
    station: &mut T,
    gate: u64,
    batch: &mut Vec<u8>,
) -> Result<(), Failed>
    requires some { 0 < vec_len batch.old }
    requires room { vec_len batch.old < vec_capacity batch.old }
    requires place { gate < 2 ^ 32 }
    requires within { T.tells → gate < length (T.told station.old).journal }
    requires synced { T.tells → IsSynced (T.told station.old) }
    ensures items { batch.new.items ≡ batch.old.items }
    ensures len { vec_len batch.new ≡ vec_len batch.old }
    ensures capacity { vec_capacity batch.old ≤ vec_capacity batch.new }
    ensures cause { HasCause (T.faults station.old) (T.faults station.new) result }
    ensures told { T.tells → Opened gate (drop 1 (batch.old.items ++ 0 ∷ [])) result (T.told station.old) (T.told station.new) }
    ensures stays { T.tells → ReadMayStay (T.told station.new) }
{
    let end = batch.len();
    add(batch, &[CLOSED_GATE]);
    let written = open_gate(station, gate, &batch[1..]);
    batch.truncate(end);
    written
}

fn kind_letter(kind: EntryKind) -> u8
    ensures { result ≡ letter_of_kind kind }
{
    match kind {
        EntryKind::Signed => b'S',
        EntryKind::Took => b'T',
    }
}

/// Adds bytes for which there is room.
pub(crate) fn add(bytes: &mut Vec<u8>, more: &[u8])
    requires { vec_len bytes.old + length more.now ≤ vec_capacity bytes.old }
    ensures items { bytes.new.items ≡ bytes.old.items ++ more.now }
    ensures len { vec_len bytes.new ≡ vec_len bytes.old + length more.now }
    ensures capacity { vec_capacity bytes.old ≤ vec_capacity bytes.new }
{
    match bytes.extend_from_slice(more) {
        Ok(()) => {}
        Err(_) => unreachable!(),
    }
}
