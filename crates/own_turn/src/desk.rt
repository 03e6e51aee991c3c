//! The desk of an end: its book, and what its own turns read and change besides.

ghost use Rattle.std.specs.Prelude.{◌≡◌, ◌⊎◌, ◌≤◌, ℕ, [], Err, IfOk, IsTrue, OnOk};
ghost use Rattle.dsd_station.specs.Causes.{Rose};
ghost use Rattle.dsd_station.specs.Told.{IsSynced, ReadMayStay};
ghost use Rattle.dsd_journal.specs.Devices.{IsStationFault, Opens, Unfailed};
ghost use Rattle.dsd_journal.specs.Journals.{Rests};
ghost use Rattle.delivery_book.specs.BookImages.{IsBookRefused};
ghost use Rattle.delivery_book.specs.Signing.{Legal};
ghost use Rattle.own_turn.specs.Desks.{FailsAtStation, IfFull, IsTooLong, Stores, desk_of, text_of};
ghost use Rattle.own_turn.specs.IdleTurns.{IfNoMemory, IsIdle};
ghost use Rattle.own_turn.specs.NextEntry.{TurnAddsNext};
ghost use Rattle.own_turn.specs.OwnTurn.{Turned, sets_lent};

mod gathering;
mod signing;
mod taking;
mod turning;

use crate::asked::AskedSets;
use crate::turn_fault::TurnFault;
use delivery_book::{Book, open_book};
use dsd_journal::{OpenFault, StageFault};
use dsd_record::Decider;
use dsd_station::Station;
use dsd_values::Role;
use dxs_envelope::Outgoing;
use std::alloc::Global;
use std::marker::Model;

/// The book of an end, and what its own turns ask of the session besides.
#[derive(Drop)]
pub struct Desk {
    alloc: Global,
    book: Book,
    asked: AskedSets,
    refused: u64,
    turns: u32,
}

impl Model for Desk {
    ghost use Rattle.own_turn.specs.Desks.{DeskView};

    ghost Value = { DeskView };

    ghost view = { λ d. record { book = d.book; asked = d.asked; refused = d.refused; turns = d.turns } };
}

/// Opens the desk of the end of this role over the journal that the station's image holds, for a session that has not begun.
///
/// A journal of the other end is `NotAJournal(5)`, and an entry that the signing rules do not allow is `NotAJournal` at the place of its kind. It begins
/// with a sync, and writes nothing, whatever it answers.
pub fn open_desk<T: Station>(alloc: Global, station: &mut T, role: Role) -> Result<Desk, OpenFault>
    ensures later { T.faults station.old ≤ T.faults station.new }
    ensures cause { result ≡ Err OpenFault.Station → Rose (T.faults station.old) (T.faults station.new) }
    ensures kept { IsStationFault result ⊎ (T.faults station.new ≡ T.faults station.old) }
    // The entries are those that the image holds, and then they survive each stop.
    ensures ok { T.tells → IfOk result (λ desk. Rests desk.book.header desk.book.entries (T.told station.new)) }
    ensures role { IfOk result (λ desk. desk.book.header.role ≡ role) }
    ensures legal { IfOk result (λ desk. Legal role desk.book.entries) }
    ensures known { IfOk result (λ desk. desk.book.known ≡ desk.book.entries) }
    ensures works { IfOk result (λ desk. IsTrue desk.book.works) }
    ensures staged { IfOk result (λ desk. desk.book.staged ≡ []) }
    ensures asked { IfOk result (λ desk. desk.asked ≡ []) }
    ensures refusals { IfOk result (λ desk. desk.refused ≡ 0) }
    ensures turns { IfOk result (λ desk. desk.turns ≡ 0) }
    ensures refused { T.tells → (place : ℕ) → result ≡ Err (OpenFault.NotAJournal place) → IsBookRefused role (T.told station.old).journal place }
    // No call of the station has failed, and all of its journal is sure, unless `Station` is answered.
    ensures unfailed { T.tells → IsStationFault result ⊎ (Unfailed (T.told station.old) (T.told station.new) × IsSynced (T.told station.new)) }
    // From the end of that sync on each stop leaves the journal as it was read.
    ensures told { T.tells → Opens (IsStationFault result) (T.told station.old) (T.told station.new) }
    ensures stays { T.tells → ReadMayStay (T.told station.new) }
{
    match open_book(alloc, station, role) {
        Ok(book) => Ok(Desk::over(alloc, book)),
        Err(fault) => Err(fault),
    }
}

impl Desk {
    /// The desk of a session that has not begun.
    fn over(alloc: Global, book: Book) -> Desk
        ensures { result ≡ record { book = book; asked = []; refused = 0; turns = 0 } }
    {
        Desk {
            alloc,
            book,
            asked: AskedSets::new(alloc),
            refused: 0,
            turns: 0,
        }
    }

    pub fn book(&self) -> &Book
        ensures { result.now ≡ self.now.book }
    {
        &self.book
    }

    /// How many sets and envelopes that this session heard were refused. A set that was taken before does not count.
    pub fn refused(&self) -> u64
        ensures { result ≡ self.now.refused }
    {
        self.refused
    }

    /// An own turn behind the text that was heard before it, which is empty where none was.
    ///
    /// The sets of the text are taken, deliveries that await this end are answered, and drafts are proposed: all of that is written behind one gate.
    /// Only then are due sets gathered, and their transmission is what is to be spoken. Where the journal has no room for the next entry, all before
    /// it is written. Where there is no memory before that, nothing is written; where there is none to gather, all of the turn stays written, and
    /// nothing is spoken. The station has to be as the desk's last call left it.
    pub fn turn<T: Station, D: Decider>(
        &mut self,
        station: &mut T,
        decider: &D,
        text: &[u8],
    ) -> Result<Option<Outgoing>, TurnFault>
        requires works { IsTrue self.old.book.works }
        requires none_staged { self.old.book.staged ≡ [] }
        requires rests { T.tells → Rests self.old.book.header self.old.book.entries (T.told station.old) }
        ensures cause { FailsAtStation result (T.faults station.old) (T.faults station.new) }
        ensures header { self.new.book.header ≡ self.old.book.header }
        ensures turned { IfOk result (λ load. Turned self.old.book.header (D.chooser decider.now) (desk_of self.old) text.now (desk_of self.new) (text_of load)) }
        ensures works { OnOk result (IsTrue self.new.book.works) }
        ensures none_staged { OnOk result (self.new.book.staged ≡ []) }
        ensures known { OnOk result (self.new.book.known ≡ self.new.book.entries) }
        ensures full { IfFull result (IsTooLong (TurnAddsNext self.old.book.header.role (D.chooser decider.now) text.now (desk_of self.old)) self.new.book.known) }
        ensures rests { T.tells → OnOk result (Rests self.new.book.header self.new.book.entries (T.told station.new)) }
        // Whatever it answers, it says nothing, and each stop within it leaves a list to which the entries grow.
        ensures told { T.tells → Stores self.old.book.header (D.chooser decider.now) (sets_lent text.now) self.old.book.entries (T.told station.old) (T.told station.new) }
        ensures stays { T.tells → ReadMayStay (T.told station.new) }
        // A turn with nothing to do takes no memory.
        ensures memory { IfNoMemory result (IsIdle self.old.book.header (D.chooser decider.now) (desk_of self.old) text.now → ⊥) }
        // Without memory the journal holds the entries before it, or those and all that were added.
        ensures left { T.tells → IfNoMemory result (Rests self.new.book.header self.new.book.entries (T.told station.new)) }
    {
        // What is staged is known beside the entries.
        let _ = self.book.works();
        match self.stage(decider, text) {
            Ok(()) => self.settle(station),
            Err(StageFault::Full(length)) => self.give_up(station, length),
            Err(StageFault::Memory) => Err(TurnFault::Memory),
        }
    }
}
