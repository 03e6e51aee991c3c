//! What is to be added to a journal, kept until it is flushed.

ghost use Rattle.std.specs.Prelude.{◌≡◌, ◌⊎◌, ◌≤◌, ◌<◌, ◌+◌, length, max, Err, IsTrue, Ok, OnErr, OnOk};
ghost use Rattle.dsd_journal.specs.JournalImage.{IsPayloadLength};
ghost use Rattle.dsd_journal.specs.Journals.{length_with, with_none_staged, with_spare, with_staged};

use super::Journal;
use crate::adding_fault::StageFault;
use crate::batch::{add, add_entry};
use crate::entry::{Entry, EntryKind};
use crate::limits::JOURNAL_BYTES;
use dsd_values::{Memory, SetText};
use std::mem;

/// What an entry takes of a journal beside its payload: the gate before it, its kind, four bytes of length, and the
/// gate behind it.
const BATCH_BYTES: usize = 7;

impl Journal {
    /// Makes room for an entry more with a payload of this many bytes.
    pub fn reserve(&mut self, length: usize) -> Result<(), Memory>
        ensures ok { OnOk result (self.new ≡ with_spare self.old (max self.old.spare length)) }
        ensures err { OnErr result (self.new ≡ self.old) }
    {
        let Some(batch) = length.checked_add(BATCH_BYTES) else {
            return Err(Memory);
        };
        self.entries.reserve(self.staged.len() + 1)?;
        self.staged.reserve(1)?;
        self.payload.reserve_exact(length)?;
        self.batch.reserve(batch)?;
        self.spare = self.spare.max(length);
        Ok(())
    }

    /// Stages an entry behind those that are staged: the next flush adds them all at once.
    pub fn stage(&mut self, kind: EntryKind, payload: &[u8]) -> Result<(), StageFault>
        requires works { IsTrue self.old.works }
        requires length { IsPayloadLength (length payload.now) }
        ensures header { self.new.header ≡ self.old.header }
        ensures entries { self.new.entries ≡ self.old.entries }
        ensures ok { OnOk result (self.new ≡ with_staged self.old (record { kind = kind; payload = payload.now })) }
        ensures err { OnErr result (self.new ≡ self.old) }
        // `Full` comes exactly where the journal would be too long with all that is staged.
        ensures full { JOURNAL_BYTES < length_with self.old (length payload.now) → result ≡ Err (StageFault.Full (length_with self.old (length payload.now))) }
        ensures fits { length_with self.old (length payload.now) ≤ JOURNAL_BYTES → (result ≡ Ok tt) ⊎ (result ≡ Err StageFault.Memory) }
    {
        let length = self.length_with(payload);
        if length > JOURNAL_BYTES {
            return Err(StageFault::Full(length));
        }
        match self.reserve(payload.len()) {
            Err(_) => Err(StageFault::Memory),
            Ok(()) => {
                self.put(kind, payload);
                Ok(())
            }
        }
    }

    /// Gives up what is staged.
    pub fn give_up(&mut self)
        ensures { self.new ≡ with_none_staged self.old }
    {
        self.staged.clear();
        self.batch.clear();
    }

    /// How many bytes the journal would have with all that is staged and an entry more.
    pub(super) fn length_with(&self, payload: &[u8]) -> u64
        requires { IsPayloadLength (length payload.now) }
        ensures { result ≡ length_with self.now (length payload.now) }
    {
        self.entries.gate() + self.batch.len() as u64 + 7 + payload.len() as u64
    }

    /// Stages an entry in the room that was made for it.
    pub(super) fn put(&mut self, kind: EntryKind, payload: &[u8])
        requires room { length payload.now ≤ self.old.spare }
        requires length { IsPayloadLength (length payload.now) }
        requires near { length_with self.old (length payload.now) ≤ JOURNAL_BYTES }
        ensures { self.new ≡ with_staged self.old (record { kind = kind; payload = payload.now }) }
    {
        add_entry(&mut self.batch, kind, payload);
        add(&mut self.payload, payload);
        let mut bytes = mem::replace(&mut self.payload, Vec::new(self.alloc));
        // An entry keeps no room beyond its payload.
        bytes.shrink_to_fit();
        let payload = SetText::from_bytes(bytes);
        self.staged.push_reserved(Entry { kind, payload });
        self.spare = 0;
    }
}
