//! Reading the journal that an image holds.

ghost use Rattle.std.specs.Prelude.{◌≡◌, ◌≢◌, ◌⊎◌, ◌+◌, ◌<◌, ◌≤◌, ℕ, Err, false, true, length, IfErr, IfOk, OnOk, vec_len};
ghost use Rattle.dsd_station.specs.Causes.{Rose};
ghost use Rattle.dsd_journal.specs.Devices.{IsStationFault, Looks};
ghost use Rattle.dsd_journal.specs.FirstBad.{IsRefused};
ghost use Rattle.dsd_journal.specs.JournalImage.{gate_place, Holds, Leads};
ghost use Rattle.dsd_journal.specs.Pieces.{IsCounted, IsRead};
ghost use Rattle.dsd_journal.specs.Reading.{IsMistitled, IsShut, IsWaiting, MeetsBad, Takes};

use crate::entries::Entries;
use crate::header::{Header, read_header};
use crate::limits::{HEADER_BYTES, JOURNAL_BYTES, OPEN_GATE};
use crate::opening::OpenFault;
use crate::pieces::{PIECE_BYTES, cut_front, read_front, read_more};
use crate::taking::take_entries;
use dsd_station::Station;
use std::alloc::Global;

/// What was read of an image up to a place: the header, entries, and the bytes behind them.
#[derive(Drop)]
pub(crate) struct Reading {
    pub(crate) header: Header,
    pub(crate) entries: Entries,
    pub(crate) bytes: Vec<u8>,
    pub(crate) at: u64,
}

/// Reads the header at the front of the bytes of an image up to a place.
fn begin(alloc: Global, bytes: Vec<u8>, at: u64) -> Result<Reading, usize>
    requires { vec_len bytes ≡ at }
    ensures read { IfOk result (λ reading. Leads reading.header reading.entries.list reading.bytes.items bytes.items) }
    ensures at { IfOk result (λ reading. reading.at ≡ at) }
    ensures counted { IfOk result IsCounted }
    ensures err { IfErr result (λ place. IsMistitled bytes.items place) }
{
    let header = read_header(&bytes)?;
    let mut bytes = bytes;
    cut_front(&mut bytes, HEADER_BYTES);
    let entries = Entries::new(alloc);
    Ok(Reading {
        header,
        entries,
        bytes,
        at,
    })
}

/// Takes the entries that stand whole at the front of the bytes, and answers whether a closed gate is behind them.
fn take_front(alloc: Global, entries: &mut Entries, bytes: &mut Vec<u8>) -> Result<bool, OpenFault>
    ensures taken { OnOk result (Takes entries.old.list entries.new.list bytes.old.items bytes.new.items) }
    ensures shut { IfOk result (λ shut. shut ≡ true → IsShut bytes.new.items) }
    ensures waiting { IfOk result (λ shut. shut ≡ false → IsWaiting (gate_place entries.new.list) bytes.new.items) }
    ensures near { OnOk result (gate_place entries.new.list < JOURNAL_BYTES) }
    ensures bad { (place : ℕ) → result ≡ Err (OpenFault.NotAJournal place) → MeetsBad entries.old.list bytes.old.items place }
    ensures no_device { result ≢ Err OpenFault.Station }
{
    let rest = match take_entries(alloc, entries, bytes) {
        Err(fault) => return Err(fault),
        Ok(rest) => rest,
    };
    let shut = is_shut(rest);
    let taken = bytes.len() - rest.len();
    cut_front(bytes, taken);
    // What holds of the gate's place is known from here.
    let _ = entries.gate();
    Ok(shut)
}

fn is_shut(bytes: &[u8]) -> bool
    ensures shut { result ≡ true → IsShut bytes.now }
    ensures open { result ≡ false → IsShut bytes.now → ⊥ }
{
    match bytes.first() {
        Some(gate) => *gate != OPEN_GATE,
        None => false,
    }
}

/// Reads on until a closed gate stands behind the entries.
fn read_entries<T: Station>(
    alloc: Global,
    station: &mut T,
    reading: &mut Reading,
    piece: &mut [u8],
) -> Result<(), OpenFault>
    requires counted { IsCounted reading.old }
    requires piece { length piece.old ≡ PIECE_BYTES }
    requires read { T.tells → IsRead (T.told station.old).journal reading.old }
    ensures later { T.faults station.old ≤ T.faults station.new }
    ensures cause { result ≡ Err OpenFault.Station → Rose (T.faults station.old) (T.faults station.new) }
    ensures kept { IsStationFault result ⊎ (T.faults station.new ≡ T.faults station.old) }
    ensures held { T.tells → OnOk result (Holds reading.new.header reading.new.entries.list (T.told station.old).journal) }
    ensures refused { T.tells → IfErr result (λ fault. (place : ℕ) → fault ≡ OpenFault.NotAJournal place → IsRefused (T.told station.old).journal place) }
    ensures told { T.tells → Looks (IsStationFault result) (T.told station.old) (T.told station.new) }
{
    loop {
        match take_front(alloc, &mut reading.entries, &mut reading.bytes) {
            Err(fault) => return Err(fault),
            Ok(true) => return Ok(()),
            Ok(false) => {}
        }
        match read_more(station, reading.at, &mut reading.bytes, piece) {
            Err(fault) => return Err(fault),
            Ok(0) => return Err(OpenFault::NotAJournal(reading.at)),
            Ok(count) => reading.at += count,
        }
    }
}

/// Reads the front of the station's image: its header, and what came with it.
fn read_head<T: Station>(
    alloc: Global,
    station: &mut T,
    piece: &mut [u8],
) -> Result<Reading, OpenFault>
    requires piece { length piece.old ≡ PIECE_BYTES }
    ensures later { T.faults station.old ≤ T.faults station.new }
    ensures cause { result ≡ Err OpenFault.Station → Rose (T.faults station.old) (T.faults station.new) }
    ensures kept { IsStationFault result ⊎ (T.faults station.new ≡ T.faults station.old) }
    ensures piece { length piece.new ≡ PIECE_BYTES }
    ensures counted { IfOk result IsCounted }
    ensures read { T.tells → IfOk result (λ reading. IsRead (T.told station.old).journal reading) }
    ensures refused { T.tells → IfErr result (λ fault. (place : ℕ) → fault ≡ OpenFault.NotAJournal place → IsRefused (T.told station.old).journal place) }
    ensures told { T.tells → Looks (IsStationFault result) (T.told station.old) (T.told station.new) }
{
    let mut bytes = Vec::new(alloc);
    match read_front(station, &mut bytes, piece) {
        Err(fault) => Err(fault),
        Ok(at) => match begin(alloc, bytes, at) {
            Err(place) => Err(OpenFault::NotAJournal(place as u64)),
            Ok(reading) => Ok(reading),
        },
    }
}

/// Reads the journal that the station's image holds: its header and its entries.
pub(crate) fn read_journal<T: Station>(
    alloc: Global,
    station: &mut T,
    piece: &mut [u8],
) -> Result<Reading, OpenFault>
    requires piece { length piece.old ≡ PIECE_BYTES }
    ensures later { T.faults station.old ≤ T.faults station.new }
    ensures cause { result ≡ Err OpenFault.Station → Rose (T.faults station.old) (T.faults station.new) }
    ensures kept { IsStationFault result ⊎ (T.faults station.new ≡ T.faults station.old) }
    ensures held { T.tells → IfOk result (λ reading. Holds reading.header reading.entries.list (T.told station.old).journal) }
    ensures refused { T.tells → IfErr result (λ fault. (place : ℕ) → fault ≡ OpenFault.NotAJournal place → IsRefused (T.told station.old).journal place) }
    ensures told { T.tells → Looks (IsStationFault result) (T.told station.old) (T.told station.new) }
{
    let mut reading = match read_head(alloc, station, piece) {
        Err(fault) => return Err(fault),
        Ok(reading) => reading,
    };
    match read_entries(alloc, station, &mut reading, piece) {
        Err(fault) => Err(fault),
        Ok(()) => Ok(reading),
    }
}
