//! The program `bench_journal`, which `bench/` measures: what entries take behind one gate, and each behind its own.
//!
//! Without a word it prints the calls, the bytes and the syncs of a flush of 1, of 10 and of 400 entries, as a station in
//! memory records them. `flush COUNT JOURNAL` and `append COUNT JOURNAL` put so many entries into a new journal.
#![tactic(auto)]

ghost use Rattle.std.specs.Prelude.{◌≡◌, IfSome, IsTrue};
ghost use Rattle.dsd_journal.specs.Journals.{Rests};

use dsd_journal::{EntryKind, Journal, StageFault, format, open_journal};
use dsd_station::{Call, FileStation, MemoryStation, Station};
use dsd_values::{CommId, Role};
use std::alloc::Global;
use std::fs::File;
use std::rt::Files;
use std::{env, io};

/// A delivery of two lines, which is sent often.
const DELIVERY: &[u8] =
    b"ST*894*0001\r\nG82*D*100001*****20240229\r\nLS*0100\r\nG83*1*12*EA*012345678905****1.25\r\nG83*2*3*EA*012345678912****.3333\r\nLE*0100\r\nG84*15*1600\r\nG86*JONES\r\nG85*0000\r\nSE*10*0001\r\n";

const COUNTS: [usize; 3] = [1, 10, 400];

fn supplier() -> CommId {
    CommId::new([b'H', b'H', b'0', b'0', b'0', b'0', b'0', b'0', b'0', b'1'])
}

fn receiver() -> CommId {
    CommId::new([b'R', b'R', b'0', b'0', b'0', b'0', b'0', b'0', b'0', b'1'])
}

/// A new journal.
fn begin<T: Station>(alloc: Global, station: &mut T) -> Option<Journal>
    ensures works { IfSome result (λ journal. IsTrue journal.works) }
    ensures rests { T.tells → IfSome result (λ journal. Rests journal.header journal.entries (T.told station.new)) }
{
    if format(station, Role::Supplier, supplier(), receiver()).is_err() {
        return None;
    }
    match open_journal(alloc, station) {
        Ok(journal) => Some(journal),
        Err(_) => None,
    }
}

/// Stages so many deliveries.
fn stage(journal: &mut Journal, count: usize) -> Result<(), StageFault>
    requires works { IsTrue journal.old.works }
    ensures works { IsTrue journal.new.works }
    ensures header { journal.new.header ≡ journal.old.header }
    ensures entries { journal.new.entries ≡ journal.old.entries }
{
    for _ in 0..count {
        journal.stage(EntryKind::Signed, DELIVERY)?;
    }
    Ok(())
}

/// Adds so many deliveries behind one gate.
#[tactic(auto, using(crate::proofs::Kept::still_rests))]
fn flush<T: Station>(journal: &mut Journal, station: &mut T, count: usize) -> Option<()>
    requires works { IsTrue journal.old.works }
    requires rests { T.tells → Rests journal.old.header journal.old.entries (T.told station.old) }
{
    if stage(journal, count).is_err() {
        return None;
    }
    journal.flush(station).ok()
}

// ---- the record of a station in memory

/// What was asked of a station.
#[derive(Clone, Copy)]
struct Asked {
    calls: usize,
    bytes: usize,
    syncs: usize,
}

fn count_up(calls: &[Call]) -> Asked {
    let (mut bytes, mut syncs) = (0usize, 0usize);
    for call in calls {
        match call {
            Call::Write { bytes: written, .. } => {
                bytes = bytes.saturating_add(written.as_slice().len());
            }
            Call::Sync { .. } => syncs = syncs.saturating_add(1),
            _ => {}
        }
    }
    Asked {
        calls: calls.len(),
        bytes,
        syncs,
    }
}

/// What a flush of so many deliveries asks of a station.
fn flushed(alloc: Global, count: usize) -> Option<Asked> {
    let mut station = MemoryStation::new(alloc);
    let mut journal = begin(alloc, &mut station)?;
    let before = station.calls().len();
    flush(&mut journal, &mut station, count)?;
    Some(count_up(station.calls().get(before..)?))
}

// ---- a journal in a file

/// Appends so many deliveries, each behind a gate of its own.
fn append<R: Files<File = File>>(
    journal: &mut Journal,
    station: &mut FileStation<'_, R>,
    count: usize,
) -> Option<()> {
    for _ in 0..count {
        if !journal.works() || journal.staged() > 0 {
            return None;
        }
        journal.reserve(DELIVERY.len()).ok()?;
        journal.append(station, EntryKind::Signed, DELIVERY).ok()?;
    }
    Some(())
}

/// Puts so many deliveries into a new journal, by the words' way.
fn put<R: Files<File = File>>(
    alloc: Global,
    files: &R,
    way: &str,
    count: usize,
    journal: &str,
) -> Option<()> {
    let mut station = FileStation::new(files);
    station.attach(journal, "").ok()?;
    let mut journal = begin(alloc, &mut station)?;
    match way {
        "append" => append(&mut journal, &mut station, count),
        "flush" => flush(&mut journal, &mut station, count),
        _ => None,
    }
}

fn main(rt: HostRuntime) -> io::Result<()> {
    let mut words = env::args(&rt)?.skip(1);
    let Some(way) = words.next() else {
        for count in COUNTS {
            if let Some(told) = flushed(rt.alloc(), count) {
                println!(rt;
                    "{count} entries: {} calls, {} bytes, {} syncs",
                    told.calls, told.bytes, told.syncs
                )?;
            }
        }
        return Ok(());
    };
    let (Some(count), Some(journal)) = (words.next(), words.next()) else {
        return Ok(());
    };
    let Ok(count) = count.parse::<usize>() else {
        return Ok(());
    };
    match put(rt.alloc(), &rt, &way, count, &journal) {
        Some(()) => println!(rt; "{count} entries"),
        None => Ok(()),
    }
}
