//! Opening a book over the image that a station in memory was left with.

ghost use Rattle.std.specs.Prelude.{◌≡◌, ℕ, false, true, IfOk, Err, Ok, OnOk};
ghost use Rattle.dsd_station.specs.Logged.{image_by};
ghost use Rattle.cable_world.specs.Finishing.{HoldsBook, IsOver, IsUnarmed};
ghost use Rattle.cable_world.specs.SeatSteps.{Grows};

use delivery_book::{Book, a_book_is_refused_at_one_place, open_book};
use dsd_journal::OpenFault;
use dsd_station::MemoryStation;
use dsd_values::{Memory, Role};
use std::alloc::Global;

/// Disarms and restarts a station, and opens the book of its end over the image that is left.
#[tactic(auto, using(crate::proofs::Unarmed::image_then, crate::proofs::Unarmed::book_then))]
pub(crate) fn open_left(
    alloc: Global,
    station: &mut MemoryStation,
    role: Role,
) -> Result<Book, Memory>
    requires unstarved { station.old.starved ≡ false }
    requires book { HoldsBook role (image_by station.old) }
    ensures grows { Grows station.old station.new }
    ensures image { image_by station.new ≡ image_by station.old }
    ensures book { IfOk result (IsOver role (image_by station.old)) }
{
    station.disarm();
    match station.restart() {
        Ok(()) => open_unarmed(alloc, station, role),
        Err(memory) => Err(memory),
    }
}

/// Opens the book of its end over the journal of a station that works. With nothing armed no call fails but for want of memory.
fn open_unarmed(alloc: Global, station: &mut MemoryStation, role: Role) -> Result<Book, Memory>
    requires unarmed { IsUnarmed station.old }
    requires book { HoldsBook role (image_by station.old) }
    ensures grows { Grows station.old station.new }
    ensures image { image_by station.new ≡ image_by station.old }
    ensures book { IfOk result (IsOver role (image_by station.old)) }
{
    // What holds the journal of its end with legal entries is never refused.
    a_book_is_refused_at_one_place();
    let _ = station.starved();
    let opened = open_book(alloc, station, role);
    let starved = station.starved();
    book_of(opened, starved)
}

fn book_of(opened: Result<Book, OpenFault>, starved: bool) -> Result<Book, Memory>
    requires failed { opened ≡ Err OpenFault.Station → starved ≡ true }
    requires held { (place : ℕ) → opened ≡ Err (OpenFault.NotAJournal place) → ⊥ }
    ensures { IfOk result (λ book. opened ≡ Ok book) }
{
    match opened {
        Ok(book) => Ok(book),
        Err(OpenFault::Station) if !starved => unreachable!(),
        Err(OpenFault::NotAJournal(_)) => unreachable!(),
        Err(_) => Err(Memory),
    }
}
