//! Opening the book of an end.

ghost use Rattle.std.specs.Prelude.{◌≡◌, ◌⊎◌, ◌≤◌, ℕ, [], Err, IfErr, IfOk, IsTrue};
ghost use Rattle.dsd_station.specs.Causes.{Rose};
ghost use Rattle.dsd_station.specs.Told.{IsSynced, ReadMayStay};
ghost use Rattle.dsd_journal.specs.Devices.{IsStationFault, Opens, Unfailed};
ghost use Rattle.dsd_journal.specs.Journals.{Rests};
ghost use Rattle.delivery_book.specs.BookImages.{AreNoRules, IsBookRefused, IsNoBook};
ghost use Rattle.delivery_book.specs.Signing.{Legal};

use crate::book::Book;
use crate::fault::AdmitFault;
use crate::rules::Rules;
use crate::sides::is_role;
use dsd_journal::{Journal, OpenFault, open_journal};
use dsd_station::Station;
use dsd_values::Role;
use std::alloc::Global;

/// Where the letter of its end's role stands in a journal.
const ROLE_PLACE: u64 = 5;

/// Opens the book of the end of this role over the journal that the station's image holds.
///
/// A journal of the other end is `NotAJournal(5)`, and an entry that the signing rules do not allow is `NotAJournal` at the place of its kind. It begins
/// with a sync, and writes nothing, whatever it answers.
pub fn open_book<T: Station>(alloc: Global, station: &mut T, role: Role) -> Result<Book, OpenFault>
    ensures later { T.faults station.old ≤ T.faults station.new }
    ensures cause { result ≡ Err OpenFault.Station → Rose (T.faults station.old) (T.faults station.new) }
    ensures kept { IsStationFault result ⊎ (T.faults station.new ≡ T.faults station.old) }
    // The entries are those that the image holds, and then they survive each stop.
    ensures ok { T.tells → IfOk result (λ book. Rests book.header book.entries (T.told station.new)) }
    ensures role { IfOk result (λ book. book.header.role ≡ role) }
    ensures legal { IfOk result (λ book. Legal role book.entries) }
    ensures known { IfOk result (λ book. book.known ≡ book.entries) }
    ensures works { IfOk result (λ book. IsTrue book.works) }
    ensures staged { IfOk result (λ book. book.staged ≡ []) }
    ensures refused { T.tells → (place : ℕ) → result ≡ Err (OpenFault.NotAJournal place) → IsBookRefused role (T.told station.old).journal place }
    // No call of the station has failed, and all of its journal is sure, unless `Station` is answered.
    ensures unfailed { T.tells → IsStationFault result ⊎ (Unfailed (T.told station.old) (T.told station.new) × IsSynced (T.told station.new)) }
    // From the end of that sync on each stop leaves the journal as it was read.
    ensures told { T.tells → Opens (IsStationFault result) (T.told station.old) (T.told station.new) }
    ensures stays { T.tells → ReadMayStay (T.told station.new) }
{
    match open_journal(alloc, station) {
        Ok(journal) => book_over(alloc, journal, role),
        Err(fault) => Err(fault),
    }
}

/// The book of the end of this role over a journal that was just opened.
fn book_over(alloc: Global, journal: Journal, role: Role) -> Result<Book, OpenFault>
    requires works { IsTrue journal.works }
    requires staged { journal.staged ≡ [] }
    ensures journal { IfOk result (λ book. (book.header ≡ journal.header) × (book.entries ≡ journal.entries)) }
    ensures role { IfOk result (λ book. book.header.role ≡ role) }
    ensures legal { IfOk result (λ book. Legal role book.entries) }
    ensures known { IfOk result (λ book. book.known ≡ book.entries) }
    ensures works { IfOk result (λ book. IsTrue book.works) }
    ensures staged { IfOk result (λ book. book.staged ≡ []) }
    ensures err { IfErr result (IsNoBook role journal.header journal.entries) }
{
    if !is_role(journal.role(), role) {
        return Err(OpenFault::NotAJournal(ROLE_PLACE));
    }
    match rules_over(alloc, &journal, role) {
        Ok(rules) => Ok(Book::over(rules, journal)),
        Err(fault) => Err(fault),
    }
}

/// The rules of the end of this role with the entries of its journal.
fn rules_over(alloc: Global, journal: &Journal, role: Role) -> Result<Rules, OpenFault>
    ensures role { IfOk result (λ rules. rules.role ≡ role) }
    ensures entries { IfOk result (λ rules. rules.entries ≡ journal.now.entries) }
    ensures legal { IfOk result (λ rules. Legal role journal.now.entries) }
    ensures err { IfErr result (AreNoRules role journal.now.entries) }
{
    let mut rules = Rules::new(alloc, role);
    for index in 0..journal.len() {
        match rules.admit(journal.kind(index), journal.payload(index)) {
            Ok(()) => {}
            Err(AdmitFault::Illegal) => return Err(OpenFault::NotAJournal(journal.place(index))),
            Err(AdmitFault::Memory) => return Err(OpenFault::Memory),
        }
    }
    Ok(rules)
}
