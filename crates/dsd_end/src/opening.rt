//! Opening an end.

ghost use Rattle.std.specs.Prelude.{◌≡◌, ◌≤◌, ◌⊎◌, [], ℕ, Err, IfOk, false};
ghost use Rattle.dsd_station.specs.Causes.{Rose};
ghost use Rattle.dsd_station.specs.Told.{IsSynced, ReadMayStay};
ghost use Rattle.dsd_journal.specs.Devices.{IsStationFault, Opens, Unfailed, since};
ghost use Rattle.dsd_journal.specs.Headers.{IsHeader};
ghost use Rattle.dsd_journal.specs.Journals.{Rests};
ghost use Rattle.dex_handshake.specs.LineTable.{started};
ghost use Rattle.dex_handshake.specs.SessionSeen.{session_seen, step_seen};
ghost use Rattle.dsd_record.specs.Choices.{Chooser};
ghost use Rattle.delivery_book.specs.BookImages.{IsBookRefused};
ghost use Rattle.delivery_book.specs.Signing.{Legal};
ghost use Rattle.dsd_end.specs.Patience.{patience};
ghost use Rattle.dsd_end.specs.declared.end.TheConstants.{MOST_POLLS as most_polls};
ghost use Rattle.dsd_end.specs.RunSoFar.{Runs};
ghost use Rattle.dsd_end.specs.Standings.{first_standing, is_supplier};

use crate::end::End;
use crate::end_core::EndCore;
use dex_handshake::{Session, Step};
use dsd_journal::OpenFault;
use dsd_record::Decider;
use dsd_station::Station;
use dsd_values::{Memory, Role};
use own_turn::{Desk, open_desk};
use std::alloc::Global;

/// Opens the end of this role over the journal that the station's image holds, with these choices. It reserves the room of a text.
///
/// A journal of the other end is `NotAJournal(5)`, and an entry that the signing rules do not allow is `NotAJournal` at the place of its kind. It begins
/// with a sync, and writes and says nothing, whatever it answers.
pub fn open_end<T: Station, D: Decider>(
    alloc: Global,
    station: &mut T,
    role: Role,
    decider: D,
) -> Result<End<D>, OpenFault>
    ensures later { T.faults station.old ≤ T.faults station.new }
    ensures cause { result ≡ Err OpenFault.Station → Rose (T.faults station.old) (T.faults station.new) }
    ensures kept { IsStationFault result ⊎ (T.faults station.new ≡ T.faults station.old) }
    ensures decider { IfOk result (λ end. D.chooser end.decider ≡ D.chooser decider) }
    ensures role { IfOk result (λ end. end.core.book.header.role ≡ role) }
    ensures legal { IfOk result (λ end. Legal role end.core.book.entries) }
    ensures known { IfOk result (λ end. end.core.book.known ≡ end.core.book.entries) }
    // The entries are those that the image holds, and then they survive each stop.
    ensures rests { T.tells → IfOk result (λ end. Rests end.core.book.header end.core.book.entries (T.told station.new)) }
    // It leaves the first standing over them.
    ensures standing { IfOk result (λ end. end.core.standing ≡ first_standing end.core.book.header end.core.book.entries) }
    // So many polls are the most of a run from here.
    ensures most { IfOk result (λ end. patience end.core.standing ≤ most_polls) }
    ensures refused { T.tells → (place : ℕ) → result ≡ Err (OpenFault.NotAJournal place) → IsBookRefused role (T.told station.old).journal place }
    // No call of the station has failed, and all of its journal is sure, unless `Station` is answered.
    ensures unfailed { T.tells → IsStationFault result ⊎ (Unfailed (T.told station.old) (T.told station.new) × IsSynced (T.told station.new)) }
    // From the end of that sync on each stop leaves the journal as it was read.
    ensures told { T.tells → Opens (IsStationFault result) (T.told station.old) (T.told station.new) }
    ensures stays { T.tells → ReadMayStay (T.told station.new) }
    // A run begins here, over the entries that the image holds: each stop since that sync leaves a run.
    ensures runs { T.tells → IfOk result (λ end. Runs (D.chooser end.decider) end.core.book.entries (since (T.told station.old)) end.core.standing (T.told station.new)) }
{
    match open_core(alloc, station, role) {
        Ok(core) => Ok(End { decider, core }),
        Err(fault) => Err(fault),
    }
}

/// The same without the choices, for whatever choices it may have.
fn open_core<T: Station>(alloc: Global, station: &mut T, role: Role) -> Result<EndCore, OpenFault>
    ensures later { T.faults station.old ≤ T.faults station.new }
    ensures cause { result ≡ Err OpenFault.Station → Rose (T.faults station.old) (T.faults station.new) }
    ensures kept { IsStationFault result ⊎ (T.faults station.new ≡ T.faults station.old) }
    ensures role { IfOk result (λ core. core.book.header.role ≡ role) }
    ensures legal { IfOk result (λ core. Legal role core.book.entries) }
    ensures known { IfOk result (λ core. core.book.known ≡ core.book.entries) }
    ensures rests { T.tells → IfOk result (λ core. Rests core.book.header core.book.entries (T.told station.new)) }
    ensures standing { IfOk result (λ core. core.standing ≡ first_standing core.book.header core.book.entries) }
    ensures refused { T.tells → (place : ℕ) → result ≡ Err (OpenFault.NotAJournal place) → IsBookRefused role (T.told station.old).journal place }
    ensures unfailed { T.tells → IsStationFault result ⊎ (Unfailed (T.told station.old) (T.told station.new) × IsSynced (T.told station.new)) }
    ensures told { T.tells → Opens (IsStationFault result) (T.told station.old) (T.told station.new) }
    ensures stays { T.tells → ReadMayStay (T.told station.new) }
{
    let desk = match open_desk(alloc, station, role) {
        Ok(desk) => desk,
        Err(fault) => return Err(fault),
    };
    match start(alloc, role, &desk) {
        Ok(step) => Ok(EndCore::starting(desk, step.next, matches!(role, Role::Supplier))),
        Err(Memory) => Err(OpenFault::Memory),
    }
}

/// The session of an end at this desk.
fn start(alloc: Global, role: Role, desk: &Desk) -> Result<Step, Memory>
    ensures titled { IsHeader desk.now.book.header }
    ensures step { IfOk result (λ step. step_seen step ≡ started role desk.now.book.header.own desk.now.book.header.peer) }
{
    let own = desk.book().journal().own();
    let peer = desk.book().journal().peer();
    // That both are ids is known of their characters.
    let _ = own.get();
    let _ = peer.get();
    Session::start(alloc, role, own, peer)
}
