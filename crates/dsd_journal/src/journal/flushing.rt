//! Adding entries to a journal, and making sure of them.

ghost use Rattle.std.specs.Prelude.{◌≡◌, ◌⊎◌, ◌≤◌, ◌<◌, ◌+◌, [], ◌∷◌, ◌++◌, length, Err, IsTrue, Ok, OnErr, OnOk};
ghost use Rattle.dsd_station.specs.Causes.{HasCause, Rose};
ghost use Rattle.dsd_station.specs.Told.{ReadMayStay};
ghost use Rattle.dsd_journal.specs.Devices.{Appends};
ghost use Rattle.dsd_journal.specs.JournalImage.{gate_place, IsPayloadLength};
ghost use Rattle.dsd_journal.specs.Journals.{flushed, with_entry, without_work, Rests};
ghost use Rattle.dsd_journal.specs.Steps.{Flushes};

use super::Journal;
use crate::adding_fault::{AppendFault, FlushFault};
use crate::batch::write_batch;
use crate::entry::EntryKind;
use crate::limits::JOURNAL_BYTES;
use dsd_station::{Failed, Station};

impl Journal {
    /// Adds all that is staged behind one gate, and makes sure of it. It takes no memory.
    ///
    /// At each stop since its start the image holds the entries before, or these and all that was staged; after an
    /// `Ok` it holds the latter, at each later stop too. With nothing staged it makes no device call, else four at
    /// most, of which two sync. The station has to be as the journal's last call left it.
    pub fn flush<T: Station>(&mut self, station: &mut T) -> Result<(), FlushFault>
        requires works { IsTrue self.old.works }
        requires rests { T.tells → Rests self.old.header self.old.entries (T.told station.old) }
        ensures cause { HasCause (T.faults station.old) (T.faults station.new) result }
        ensures header { self.new.header ≡ self.old.header }
        ensures held { (self.new.entries ≡ self.old.entries) ⊎ (self.new.entries ≡ self.old.entries ++ self.old.staged) }
        ensures ok { OnOk result (self.new ≡ flushed self.old) }
        ensures err { OnErr result (self.new ≡ without_work self.old) }
        ensures none { self.old.staged ≡ [] → (result ≡ Ok tt) × (station.new ≡ station.old) }
        ensures rests { T.tells → OnOk result (Rests self.new.header self.new.entries (T.told station.new)) }
        ensures told { T.tells → Flushes self.old.header self.old.entries self.old.staged result (T.told station.old) (T.told station.new) }
        ensures stays { T.tells → ReadMayStay (T.told station.new) }
    {
        if self.staged.is_empty() {
            return Ok(());
        }
        match self.write_staged(station) {
            Ok(()) => {
                self.keep_staged();
                Ok(())
            }
            Err(_) => {
                self.stop_work();
                Err(FlushFault::Station)
            }
        }
    }

    /// Adds an entry and makes sure of it, where nothing is staged. It takes no memory.
    ///
    /// At each stop since its start the image holds the entries before, or these and the new one; after an `Ok` it
    /// holds the new one, at each later stop too. The station has to be as the journal's last call left it.
    pub fn append<T: Station>(
        &mut self,
        station: &mut T,
        kind: EntryKind,
        payload: &[u8],
    ) -> Result<(), AppendFault>
        requires works { IsTrue self.old.works }
        requires none_staged { self.old.staged ≡ [] }
        requires room { length payload.now ≤ self.old.spare }
        requires length { IsPayloadLength (length payload.now) }
        requires rests { T.tells → Rests self.old.header self.old.entries (T.told station.old) }
        ensures later { T.faults station.old ≤ T.faults station.new }
        ensures kept { OnOk result (T.faults station.new ≡ T.faults station.old) }
        ensures header { self.new.header ≡ self.old.header }
        ensures held { (self.new.entries ≡ self.old.entries) ⊎ (self.new.entries ≡ self.old.entries ++ (record { kind = kind; payload = payload.now }) ∷ []) }
        ensures ok { OnOk result (self.new ≡ with_entry self.old (record { kind = kind; payload = payload.now })) }
        // `Full` comes exactly where the journal would be too long, and then nothing has changed.
        ensures full { JOURNAL_BYTES < gate_place self.old.entries + 7 + length payload.now
            → (result ≡ Err (AppendFault.Full (gate_place self.old.entries + 7 + length payload.now))) × (self.new ≡ self.old) × (station.new ≡ station.old) }
        // Else it is an `Ok`, or the station failed, and then the journal works no more.
        ensures fits { gate_place self.old.entries + 7 + length payload.now ≤ JOURNAL_BYTES
            → (result ≡ Ok tt) ⊎ ((result ≡ Err AppendFault.Station) × (self.new ≡ without_work self.old) × Rose (T.faults station.old) (T.faults station.new)) }
        // After an `Ok` each stop leaves the entries with the new one.
        ensures rests { T.tells → OnOk result (Rests self.new.header self.new.entries (T.told station.new)) }
        ensures told { T.tells → Appends self.old.header self.old.entries ((record { kind = kind; payload = payload.now }) ∷ []) (T.told station.old) (T.told station.new) }
        // Where it fits, it is the flush of that one entry.
        ensures flushes { gate_place self.old.entries + 7 + length payload.now ≤ JOURNAL_BYTES
            → T.tells → Flushes self.old.header self.old.entries ((record { kind = kind; payload = payload.now }) ∷ []) result (T.told station.old) (T.told station.new) }
        ensures stays { T.tells → ReadMayStay (T.told station.new) }
    {
        let length = self.length_with(payload);
        if length > JOURNAL_BYTES {
            return Err(AppendFault::Full(length));
        }
        self.put(kind, payload);
        match self.flush(station) {
            Ok(()) => Ok(()),
            Err(_) => Err(AppendFault::Station),
        }
    }

    /// Writes the batch behind the closed gate, and opens it.
    fn write_staged<T: Station>(&mut self, station: &mut T) -> Result<(), Failed>
        requires some { 0 < length self.old.staged }
        requires rests { T.tells → Rests self.old.header self.old.entries (T.told station.old) }
        ensures journal { self.new ≡ self.old }
        ensures cause { HasCause (T.faults station.old) (T.faults station.new) result }
        ensures told { T.tells → Flushes self.old.header self.old.entries self.old.staged result (T.told station.old) (T.told station.new) }
        ensures stays { T.tells → ReadMayStay (T.told station.new) }
    {
        write_batch(station, self.entries.gate(), &mut self.batch)
    }

    /// Keeps what is staged as entries, in the room that was made for them.
    fn keep_staged(&mut self)
        ensures { self.new ≡ flushed self.old }
    {
        self.entries.append_reserved(&mut self.staged);
        self.batch.clear();
    }

    /// Gives up what is staged and the room, and works no more.
    fn stop_work(&mut self)
        ensures { self.new ≡ without_work self.old }
    {
        self.give_up();
        self.spare = 0;
        self.works = false;
    }
}
