//! The parts of a turn, and what makes sure of them.

ghost use Rattle.std.specs.Prelude.{◌≡◌, ◌++◌, [], IfOk, IsOk, IsTrue, OnErr, OnOk};
ghost use Rattle.dsd_station.specs.Causes.{HasCause};
ghost use Rattle.dsd_station.specs.Told.{ReadMayStay};
ghost use Rattle.dsd_journal.specs.Journals.{Rests};
ghost use Rattle.dsd_journal.specs.Steps.{Flushes};
ghost use Rattle.delivery_book.specs.Books.{flushed_book, stopped_book};
ghost use Rattle.own_turn.specs.Desks.{FailsAtStation, IfFull, desk_of, text_of};
ghost use Rattle.own_turn.specs.IdleTurns.{AddsNothing, IfNoMemory};
ghost use Rattle.own_turn.specs.NextEntry.{TurnAddsNext};
ghost use Rattle.own_turn.specs.OwnTurn.{gathered};
ghost use Rattle.own_turn.specs.Staging.{GivesUp, IsFlushed, IsStaged, IsStaging, KeepsJournal, Speaks, StagesTo};

use super::Desk;
use crate::turn_fault::TurnFault;
use dsd_journal::{FlushFault, StageFault};
use dsd_record::Decider;
use dsd_station::Station;
use dxs_envelope::Outgoing;

impl Desk {
    /// Stages all that a turn adds to the entries.
    pub(super) fn stage<D: Decider>(&mut self, decider: &D, text: &[u8]) -> Result<(), StageFault>
        requires staging { IsStaging self.old.book }
        ensures journal { KeepsJournal self.old.book self.new.book }
        ensures idle { AddsNothing (D.chooser decider.now) (desk_of self.old) text.now → IsOk result }
        ensures exact { StagesTo result (IsStaged self.old.book.header.role (D.chooser decider.now) text.now) (TurnAddsNext self.old.book.header.role (D.chooser decider.now) text.now) self.old self.new }
    {
        self.take_text(text)?;
        match self.answer_each(decider) {
            Ok(()) => self.propose_each(decider),
            Err(fault) => Err(fault),
        }
    }

    /// Makes sure of what is staged, and only then gathers what is due.
    pub(super) fn settle<T: Station>(
        &mut self,
        station: &mut T,
    ) -> Result<Option<Outgoing>, TurnFault>
        requires staging { IsStaging self.old.book }
        requires rests { T.tells → Rests self.old.book.header self.old.book.entries (T.told station.old) }
        ensures cause { FailsAtStation result (T.faults station.old) (T.faults station.new) }
        ensures header { self.new.book.header ≡ self.old.book.header }
        ensures exact { IfOk result (λ load. Speaks self.old.book.header (desk_of self.old) (desk_of self.new) (text_of load)) }
        ensures book { OnOk result (self.new.book ≡ flushed_book self.old.book) }
        ensures never_full { IfFull result (λ _. ⊥) }
        ensures memory { IfNoMemory result (gathered self.old.book.header (desk_of self.old) ≡ [] → ⊥) }
        ensures left { T.tells → IfNoMemory result (Rests self.new.book.header self.new.book.entries (T.told station.new)) }
        ensures rests { T.tells → OnOk result (Rests self.new.book.header self.new.book.entries (T.told station.new)) }
        ensures told { T.tells → IsFlushed self.old.book.header self.old.book.entries self.old.book.staged (T.told station.old) (T.told station.new) }
        ensures stays { T.tells → ReadMayStay (T.told station.new) }
    {
        match self.flush(station) {
            Ok(()) => match self.speak() {
                Ok(load) => Ok(load),
                Err(_) => Err(TurnFault::Memory),
            },
            Err(_) => Err(TurnFault::Station),
        }
    }

    /// Makes sure of what is staged where there is no room for the next entry, with which the journal would be so long.
    pub(super) fn give_up<T: Station>(
        &mut self,
        station: &mut T,
        length: u64,
    ) -> Result<Option<Outgoing>, TurnFault>
        requires staging { IsStaging self.old.book }
        requires rests { T.tells → Rests self.old.book.header self.old.book.entries (T.told station.old) }
        ensures cause { FailsAtStation result (T.faults station.old) (T.faults station.new) }
        ensures header { self.new.book.header ≡ self.old.book.header }
        ensures known { self.new.book.known ≡ self.old.book.known }
        ensures fault { GivesUp length result }
        ensures told { T.tells → IsFlushed self.old.book.header self.old.book.entries self.old.book.staged (T.told station.old) (T.told station.new) }
        ensures stays { T.tells → ReadMayStay (T.told station.new) }
    {
        match self.flush(station) {
            Ok(()) => Err(TurnFault::Full(length)),
            Err(_) => Err(TurnFault::Station),
        }
    }

    /// Makes sure of what is staged.
    fn flush<T: Station>(&mut self, station: &mut T) -> Result<(), FlushFault>
        requires works { IsTrue self.old.book.works }
        requires rests { T.tells → Rests self.old.book.header self.old.book.entries (T.told station.old) }
        ensures cause { HasCause (T.faults station.old) (T.faults station.new) result }
        ensures ok { OnOk result (self.new ≡ record self.old { book = flushed_book self.old.book }) }
        ensures err { OnErr result (self.new ≡ record self.old { book = stopped_book self.old.book }) }
        ensures rests { T.tells → OnOk result (Rests self.new.book.header self.new.book.entries (T.told station.new)) }
        ensures told { T.tells → Flushes self.old.book.header self.old.book.entries self.old.book.staged result (T.told station.old) (T.told station.new) }
        ensures stays { T.tells → ReadMayStay (T.told station.new) }
    {
        self.book.flush(station)
    }
}
