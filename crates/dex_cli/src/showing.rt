//! `show`: what a journal holds.

ghost use Rattle.std.specs.Prelude.{◌≡◌, ◌≤◌, ◌⊎◌, ℕ, Err, IfOk};
ghost use Rattle.dsd_station.specs.Causes.{Rose};
ghost use Rattle.dsd_station.specs.Told.{IsSynced};
ghost use Rattle.dsd_journal.specs.Devices.{IsStationFault, KeepsTalk, Unfailed};
ghost use Rattle.dsd_journal.specs.JournalImage.{Holds};
ghost use Rattle.delivery_book.specs.Signing.{Legal};
ghost use Rattle.dex_cli.specs.Formatting.{served_of};
ghost use Rattle.dex_cli.specs.Showing.{IsNotAJournal, IsShownOf, LeavesAlone, LooksAt, Shows};

use crate::journal_summary::journal_summary;
use crate::name::Name;
use crate::verdict::Verdict;
use delivery_book::{Book, open_book};
use dsd_journal::{OpenFault, open_journal};
use dsd_station::Station;
use std::alloc::{AllocError, Global};

/// Attaches the station to a journal, without a port, and reads what is printed of it. It writes nothing.
pub fn show_journal<T: Station>(
    alloc: Global,
    journal: &Name,
    station: &mut T,
) -> Result<Verdict, AllocError>
    ensures told { IfOk result (Shows T.tells journal.now (served_of T.told T.faults station.old station.new)) }
    ensures looked { T.tells → LooksAt journal.now (T.told station.old) (T.told station.new) }
    ensures later { T.faults station.old ≤ T.faults station.new }
{
    if station.attach(journal.as_str(), "").is_err() {
        return Ok(Verdict::StationFault);
    }
    match open_shown(alloc, station) {
        Ok(book) => shown(alloc, &book),
        Err(OpenFault::NotAJournal(place)) => Ok(Verdict::NotAJournal(place)),
        Err(OpenFault::Station) => Ok(Verdict::StationFault),
        Err(OpenFault::Memory) => Err(AllocError),
    }
}

/// Opens the book of a journal, whichever end's it is.
fn open_shown<T: Station>(alloc: Global, station: &mut T) -> Result<Book, OpenFault>
    ensures later { T.faults station.old ≤ T.faults station.new }
    ensures cause { result ≡ Err OpenFault.Station → Rose (T.faults station.old) (T.faults station.new) }
    ensures legal { IfOk result (λ book. Legal book.header.role book.entries) }
    ensures holds { T.tells → IfOk result (λ book. Holds book.header book.entries (T.told station.old).journal) }
    ensures refused { T.tells → (place : ℕ) → result ≡ Err (OpenFault.NotAJournal place) → IsNotAJournal (T.told station.old).journal place }
    ensures unfailed { T.tells → IsStationFault result ⊎ (Unfailed (T.told station.old) (T.told station.new) × IsSynced (T.told station.new)) }
    ensures alone { T.tells → LeavesAlone (T.told station.old) (T.told station.new) }
    ensures talk { T.tells → KeepsTalk (T.told station.old) (T.told station.new) }
{
    match open_journal(alloc, station) {
        Ok(journal) => open_book(alloc, station, journal.role()),
        Err(fault) => Err(fault),
    }
}

/// The verdict on a journal whose book was opened.
fn shown(alloc: Global, book: &Book) -> Result<Verdict, AllocError>
    requires legal { Legal book.now.header.role book.now.entries }
    ensures { IfOk result (IsShownOf book.now.header book.now.entries) }
{
    let summary = journal_summary(alloc, book.journal())?;
    Ok(Verdict::Shown(summary))
}
