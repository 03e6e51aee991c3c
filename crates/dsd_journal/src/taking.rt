//! Taking entries from the front of bytes.

ghost use Rattle.std.specs.Prelude.{◌≡◌, ◌≢◌, ◌⊎◌, ◌+◌, ◌<◌, ℕ, [], ◌∷◌, ◌++◌, Err, length, IfOk, MatchOption, OnOk};
ghost use Rattle.dsd_journal.specs.JournalImage.{gate_place, open_gate, IsPayloadLength};
ghost use Rattle.dsd_journal.specs.Reading.{IsShut, IsWaiting, MeetsBad, Takes};

use crate::entries::Entries;
use crate::entry::{Entry, EntryKind};
use crate::front::read_entry;
use crate::limits::{JOURNAL_BYTES, OPEN_GATE};
use crate::opening::OpenFault;
use dsd_values::{Memory, SetText};
use std::alloc::Global;

/// Takes all entries that stand whole at the front of bytes, and answers what is behind them.
pub(crate) fn take_entries<'a>(
    alloc: Global,
    entries: &mut Entries,
    bytes: &'a [u8],
) -> Result<&'a [u8], OpenFault>
    ensures taken { IfOk result (λ rest. Takes entries.old.list entries.new.list bytes.now rest.now) }
    ensures stuck { IfOk result (λ rest. IsShut rest.now ⊎ IsWaiting (gate_place entries.new.list) rest.now) }
    ensures bad { (place : ℕ) → result ≡ Err (OpenFault.NotAJournal place) → MeetsBad entries.old.list bytes.now place }
    ensures no_device { result ≢ Err OpenFault.Station }
{
    let mut rest = bytes;
    while let Some(next) = take_entry(alloc, entries, rest)? {
        rest = next;
    }
    Ok(rest)
}

/// Takes the entry at the front of bytes, and answers what is behind it, or nothing where none stands there whole.
fn take_entry<'a>(
    alloc: Global,
    entries: &mut Entries,
    bytes: &'a [u8],
) -> Result<Option<&'a [u8]>, OpenFault>
    ensures taken { IfOk result (λ taken. MatchOption taken (entries.new.list ≡ entries.old.list) (λ next. Takes entries.old.list entries.new.list bytes.now next.now)) }
    ensures stuck { IfOk result (λ taken. MatchOption taken (IsShut bytes.now ⊎ IsWaiting (gate_place entries.old.list) bytes.now) (λ next. length next.now < length bytes.now)) }
    ensures bad { (place : ℕ) → result ≡ Err (OpenFault.NotAJournal place) → MeetsBad entries.old.list bytes.now place }
    ensures no_device { result ≢ Err OpenFault.Station }
{
    let Some(behind) = behind_open_gate(bytes) else {
        return Ok(None);
    };
    match read_entry(entries.gate(), behind) {
        Err(place) => Err(OpenFault::NotAJournal(place)),
        Ok(None) => Ok(None),
        Ok(Some((kind, payload, next))) => {
            keep_entry(alloc, entries, kind, payload)?;
            Ok(Some(next))
        }
    }
}

fn behind_open_gate(bytes: &[u8]) -> Option<&[u8]>
    ensures { MatchOption result ((bytes.now ≡ []) ⊎ IsShut bytes.now) (λ behind. bytes.now ≡ open_gate ∷ behind.now) }
{
    let (gate, behind) = bytes.split_first()?;
    if *gate != OPEN_GATE {
        return None;
    }
    Some(behind)
}

fn keep_entry(
    alloc: Global,
    entries: &mut Entries,
    kind: EntryKind,
    payload: &[u8],
) -> Result<(), Memory>
    requires sized { IsPayloadLength (length payload.now) }
    requires near { gate_place entries.old.list + 6 + length payload.now < JOURNAL_BYTES }
    ensures { OnOk result (entries.new.list ≡ entries.old.list ++ (record { kind = kind; payload = payload.now }) ∷ []) }
{
    entries.reserve(1)?;
    let payload = SetText::from_bytes(Vec::from_slice(alloc, payload)?);
    entries.push_reserved(Entry { kind, payload });
    Ok(())
}
