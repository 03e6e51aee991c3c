//! The calls that make sure of sets.

ghost use Rattle.std.specs.Prelude.{◌≡◌, ◌⊎◌, ◌<◌, ◌≤◌, [], Err, IfErr, IsTrue, Ok, OnErr, OnOk, length};
ghost use Rattle.dsd_station.specs.Causes.{HasCause, Rose};
ghost use Rattle.dsd_station.specs.Told.{ReadMayStay};
ghost use Rattle.dsd_journal.specs.declared.entry.EntryKind.TheVariants.{Signed as IsSigned, Took as IsTook};
ghost use Rattle.dsd_journal.specs.Journals.{Rests};
ghost use Rattle.dsd_journal.specs.Steps.{Flushes};
ghost use Rattle.transaction_set.specs.SoundLines.{AreSoundLines};
ghost use Rattle.base_record_894.specs.WrittenText.{written_of as base_written};
ghost use Rattle.delivery_book.specs.Answering.{IsAcceptance, IsAdjustment};
ghost use Rattle.delivery_book.specs.Books.{FlushesOne, IsRefusal, IsStop, Keeps, flushed_book, stopped_book};
ghost use Rattle.delivery_book.specs.Refusals.{accept_fault, adjust_fault, propose_fault, take_fault};
ghost use Rattle.delivery_book.specs.Signing.{next_control};

use super::Book;
use crate::book_fault::BookFault;
use base_record_894::Base;
use dsd_journal::FlushFault;
use dsd_station::Station;
use dsd_values::{DeliveryNumber, Lines, Signature};

impl Book {
    /// Adds all that is staged to the journal behind one gate, and makes sure of it. It takes no memory.
    ///
    /// At each stop since its start the image holds the entries before, or these and all that was staged; after an `Ok` it holds the latter, at each
    /// later stop too. The station has to be as the book's last call left it.
    pub fn flush<T: Station>(&mut self, station: &mut T) -> Result<(), FlushFault>
        requires works { IsTrue self.old.works }
        requires rests { T.tells → Rests self.old.header self.old.entries (T.told station.old) }
        ensures cause { HasCause (T.faults station.old) (T.faults station.new) result }
        ensures header { self.new.header ≡ self.old.header }
        ensures ok { OnOk result (self.new ≡ flushed_book self.old) }
        ensures err { OnErr result (self.new ≡ stopped_book self.old) }
        ensures none { self.old.staged ≡ [] → (result ≡ Ok tt) × (station.new ≡ station.old) }
        ensures rests { T.tells → OnOk result (Rests self.new.header self.new.entries (T.told station.new)) }
        ensures told { T.tells → Flushes self.old.header self.old.entries self.old.staged result (T.told station.old) (T.told station.new) }
        ensures stays { T.tells → ReadMayStay (T.told station.new) }
    {
        self.journal.flush(station)
    }

    /// Signs the base record of a new delivery, with the next control number, and makes sure of it.
    pub fn propose<T: Station>(&mut self, station: &mut T, base: Base) -> Result<(), BookFault>
        requires works { IsTrue self.old.works }
        requires none_staged { self.old.staged ≡ [] }
        requires rests { T.tells → Rests self.old.header self.old.entries (T.told station.old) }
        ensures exact { Keeps result (propose_fault self.old.header.role self.old.known base) IsSigned (λ text. base_written base (next_control self.old.known) ≡ Ok text) self.old self.new }
        ensures later { T.faults station.old ≤ T.faults station.new }
        ensures cause { IsStop result → Rose (T.faults station.old) (T.faults station.new) }
        ensures kept { IsStop result ⊎ (T.faults station.new ≡ T.faults station.old) }
        ensures untouched { IsRefusal result → station.new ≡ station.old }
        ensures rests { T.tells → OnOk result (Rests self.new.header self.new.entries (T.told station.new)) }
        ensures told { T.tells → (IsRefusal result → ⊥) → FlushesOne result IsSigned (λ text. base_written base (next_control self.old.known) ≡ Ok text) self.old (T.told station.old) (T.told station.new) }
        ensures stays { T.tells → ReadMayStay (T.told station.new) }
    {
        let staged = self.propose_later(base);
        self.make_sure(station, staged)
    }

    /// Signs an adjustment of the highest proposal of a delivery, which states each of these lines whole, and makes sure of it.
    pub fn adjust<T: Station>(
        &mut self,
        station: &mut T,
        number: &DeliveryNumber,
        changes: &Lines,
        signature: &Signature,
    ) -> Result<(), BookFault>
        requires works { IsTrue self.old.works }
        requires none_staged { self.old.staged ≡ [] }
        requires rests { T.tells → Rests self.old.header self.old.entries (T.told station.old) }
        requires some { 0 < length changes.now }
        requires sound { AreSoundLines changes.now }
        ensures exact { Keeps result (adjust_fault self.old.header.role self.old.known number.now changes.now signature.now) IsSigned (IsAdjustment self.old.header.role self.old.known number.now changes.now signature.now) self.old self.new }
        ensures later { T.faults station.old ≤ T.faults station.new }
        ensures cause { IsStop result → Rose (T.faults station.old) (T.faults station.new) }
        ensures kept { IsStop result ⊎ (T.faults station.new ≡ T.faults station.old) }
        ensures untouched { IsRefusal result → station.new ≡ station.old }
        ensures rests { T.tells → OnOk result (Rests self.new.header self.new.entries (T.told station.new)) }
        ensures told { T.tells → (IsRefusal result → ⊥) → FlushesOne result IsSigned (IsAdjustment self.old.header.role self.old.known number.now changes.now signature.now) self.old (T.told station.old) (T.told station.new) }
        ensures stays { T.tells → ReadMayStay (T.told station.new) }
    {
        let staged = self.adjust_later(number, changes, signature);
        self.make_sure(station, staged)
    }

    /// Signs an acceptance of the highest proposal of a delivery, and makes sure of it.
    pub fn accept<T: Station>(
        &mut self,
        station: &mut T,
        number: &DeliveryNumber,
        signature: &Signature,
    ) -> Result<(), BookFault>
        requires works { IsTrue self.old.works }
        requires none_staged { self.old.staged ≡ [] }
        requires rests { T.tells → Rests self.old.header self.old.entries (T.told station.old) }
        ensures exact { Keeps result (accept_fault self.old.header.role self.old.known number.now signature.now) IsSigned (IsAcceptance self.old.header.role self.old.known number.now signature.now) self.old self.new }
        ensures later { T.faults station.old ≤ T.faults station.new }
        ensures cause { IsStop result → Rose (T.faults station.old) (T.faults station.new) }
        ensures kept { IsStop result ⊎ (T.faults station.new ≡ T.faults station.old) }
        ensures untouched { IsRefusal result → station.new ≡ station.old }
        ensures rests { T.tells → OnOk result (Rests self.new.header self.new.entries (T.told station.new)) }
        ensures told { T.tells → (IsRefusal result → ⊥) → FlushesOne result IsSigned (IsAcceptance self.old.header.role self.old.known number.now signature.now) self.old (T.told station.old) (T.told station.new) }
        ensures stays { T.tells → ReadMayStay (T.told station.new) }
    {
        let staged = self.accept_later(number, signature);
        self.make_sure(station, staged)
    }

    /// Takes a set that the other end signed, and makes sure of it.
    pub fn take<T: Station>(&mut self, station: &mut T, set: &[u8]) -> Result<(), BookFault>
        requires works { IsTrue self.old.works }
        requires none_staged { self.old.staged ≡ [] }
        requires rests { T.tells → Rests self.old.header self.old.entries (T.told station.old) }
        ensures exact { Keeps result (take_fault self.old.header.role self.old.known set.now) IsTook (λ text. text ≡ set.now) self.old self.new }
        ensures later { T.faults station.old ≤ T.faults station.new }
        ensures cause { IsStop result → Rose (T.faults station.old) (T.faults station.new) }
        ensures kept { IsStop result ⊎ (T.faults station.new ≡ T.faults station.old) }
        ensures untouched { IsRefusal result → station.new ≡ station.old }
        ensures rests { T.tells → OnOk result (Rests self.new.header self.new.entries (T.told station.new)) }
        ensures told { T.tells → (IsRefusal result → ⊥) → FlushesOne result IsTook (λ text. text ≡ set.now) self.old (T.told station.old) (T.told station.new) }
        ensures stays { T.tells → ReadMayStay (T.told station.new) }
    {
        let staged = self.take_later(set);
        self.make_sure(station, staged)
    }

    /// Makes sure of what a call staged, where it did, and hands on why it did not.
    fn make_sure<T: Station>(
        &mut self,
        station: &mut T,
        staged: Result<(), BookFault>,
    ) -> Result<(), BookFault>
        requires works { IsTrue self.old.works }
        requires rests { T.tells → Rests self.old.header self.old.entries (T.told station.old) }
        ensures refused { IfErr staged (λ fault. (result ≡ Err fault) × ((self.new ≡ self.old) × (station.new ≡ station.old))) }
        ensures ok { OnOk staged (OnOk result (self.new ≡ flushed_book self.old)) }
        ensures stopped { OnOk staged (IfErr result (λ fault. (fault ≡ BookFault.Station) × (self.new ≡ stopped_book self.old))) }
        ensures later { T.faults station.old ≤ T.faults station.new }
        ensures cause { OnOk staged (IsStop result → Rose (T.faults station.old) (T.faults station.new)) }
        ensures kept { IsStop result ⊎ (T.faults station.new ≡ T.faults station.old) }
        ensures rests { T.tells → OnOk result (Rests self.new.header self.new.entries (T.told station.new)) }
        ensures told { T.tells → OnOk staged (Flushes self.old.header self.old.entries self.old.staged result (T.told station.old) (T.told station.new)) }
        ensures stays { T.tells → ReadMayStay (T.told station.new) }
    {
        match staged {
            Err(fault) => Err(fault),
            Ok(()) => match self.flush(station) {
                Ok(()) => Ok(()),
                Err(_) => Err(BookFault::Station),
            },
        }
    }
}
