//! Opening the journal that an image holds.

ghost use Rattle.std.specs.Prelude.{◌≤◌, ◌≡◌, ◌⊎◌, ℕ, [], Err, IfErr, IfOk, IsTrue};
ghost use Rattle.dsd_station.specs.Causes.{Rose};
ghost use Rattle.dsd_station.specs.Told.{IsSynced, ReadMayStay};
ghost use Rattle.dsd_journal.specs.Devices.{IsStationFault, Looks, Opens, Unfailed};
ghost use Rattle.dsd_journal.specs.FirstBad.{IsRefused};
ghost use Rattle.dsd_journal.specs.JournalImage.{Holds};
ghost use Rattle.dsd_journal.specs.Journals.{Rests};
ghost use Rattle.dsd_journal.specs.declared.opening.OpenFault.TheVariants.{Memory as NoMemory};

use crate::journal::Journal;
use crate::pieces::PIECE_BYTES;
use crate::reading::read_journal;
use dsd_station::Station;
use dsd_values::Memory;
use std::alloc::Global;
use thiserror::Error;

/// Why a journal was not opened.
#[derive(Clone, Copy, Debug, PartialEq, Eq, Error)]
pub enum OpenFault {
    /// The image holds no journal. The place is that of the first byte with which no journal goes on, that of the kind
    /// of an entry for which there is no room below 67,108,864 bytes, or the image's length where it ends too early.
    #[error("no journal goes on at {0}")]
    NotAJournal(u64),
    /// A call of the station failed. This goes before `NotAJournal`.
    #[error("the station failed")]
    Station,
    /// There was no memory.
    #[error("no memory")]
    Memory,
}

impl From<Memory> for OpenFault {
    ghost from_gives = { λ _ fault. fault ≡ NoMemory };

    fn from(_: Memory) -> OpenFault {
        OpenFault::Memory
    }
}

/// Opens the journal that the station's image holds.
///
/// It begins with a sync, so that what it read survives each later stop. It reads at most 64 KiB at once and takes
/// entries as they come. It writes nothing, whatever it answers.
pub fn open_journal<T: Station>(alloc: Global, station: &mut T) -> Result<Journal, OpenFault>
    ensures later { T.faults station.old ≤ T.faults station.new }
    ensures cause { result ≡ Err OpenFault.Station → Rose (T.faults station.old) (T.faults station.new) }
    ensures kept { IsStationFault result ⊎ (T.faults station.new ≡ T.faults station.old) }
    // The entries are those that the image holds, and then they survive each stop.
    ensures ok { T.tells → IfOk result (λ journal. Rests journal.header journal.entries (T.told station.new)) }
    ensures works { IfOk result (λ journal. IsTrue journal.works) }
    ensures staged { IfOk result (λ journal. journal.staged ≡ []) }
    // The image is refused there: it holds no journal.
    ensures refused { T.tells → (place : ℕ) → result ≡ Err (OpenFault.NotAJournal place) → IsRefused (T.told station.old).journal place }
    // No call of the station has failed, and all of its journal is sure, unless `Station` is answered.
    ensures unfailed { T.tells → IsStationFault result ⊎ (Unfailed (T.told station.old) (T.told station.new) × IsSynced (T.told station.new)) }
    // From the end of that sync on each stop leaves the journal as it was read.
    ensures told { T.tells → Opens (IsStationFault result) (T.told station.old) (T.told station.new) }
    ensures stays { T.tells → ReadMayStay (T.told station.new) }
{
    match station.sync() {
        Err(_) => Err(OpenFault::Station),
        Ok(()) => open_image(alloc, station),
    }
}

/// Opens the journal that the station's image holds, without a sync.
fn open_image<T: Station>(alloc: Global, station: &mut T) -> Result<Journal, OpenFault>
    ensures later { T.faults station.old ≤ T.faults station.new }
    ensures cause { result ≡ Err OpenFault.Station → Rose (T.faults station.old) (T.faults station.new) }
    ensures kept { IsStationFault result ⊎ (T.faults station.new ≡ T.faults station.old) }
    ensures held { T.tells → IfOk result (λ journal. Holds journal.header journal.entries (T.told station.old).journal) }
    ensures works { IfOk result (λ journal. IsTrue journal.works) }
    ensures staged { IfOk result (λ journal. journal.staged ≡ []) }
    ensures refused { T.tells → IfErr result (λ fault. (place : ℕ) → fault ≡ OpenFault.NotAJournal place → IsRefused (T.told station.old).journal place) }
    ensures told { T.tells → Looks (IsStationFault result) (T.told station.old) (T.told station.new) }
{
    let Ok(mut piece) = vec![in alloc; 0u8; PIECE_BYTES] else {
        return Err(OpenFault::Memory);
    };
    match read_journal(alloc, station, &mut piece) {
        Err(fault) => Err(fault),
        Ok(reading) => Ok(Journal::holding(alloc, reading.header, reading.entries)),
    }
}
