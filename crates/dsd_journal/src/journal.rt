//! A journal that is open.

ghost use Rattle.std.specs.Prelude.{◌≡◌, ◌≤◌, ◌<◌, ◌+◌, [], length, take, slice_index_or, true};
ghost use Rattle.dsd_journal.specs.JournalImage.{gate_place, IsPayloadLength};

mod flushing;
mod staging;

use crate::entries::Entries;
use crate::entry::{Entry, EntryKind};
use crate::header::Header;
use crate::limits::MOST_ENTRIES;
use dsd_values::{CommId, Role, SetText};
use std::alloc::Global;
use std::marker::Model;

/// The entries of a journal, those that are staged, and room for the next one.
///
/// It works from its opening until a call answers `Station`. Then it has to be opened again.
#[derive(Drop)]
pub struct Journal {
    alloc: Global,
    header: Header,
    entries: Entries,
    staged: Vec<Entry>,
    batch: Vec<u8>,
    payload: Vec<u8>,
    spare: usize,
    works: bool,
}

impl Model for Journal {
    ghost use Rattle.dsd_journal.specs.Journals.{View};
    ghost use Rattle.dsd_journal.specs.JournalInside.{view_of, IsReady};

    ghost Value = { View };

    ghost view = { view_of };

    ghost invariant = { IsReady };
}

impl Journal {
    /// A journal of these entries, with nothing staged and no room for the next one yet.
    pub(crate) fn holding(alloc: Global, header: Header, entries: Entries) -> Journal
        ensures header { result.header ≡ header }
        ensures entries { result.entries ≡ entries.list }
        ensures staged { result.staged ≡ [] }
        ensures spare { result.spare ≡ 0 }
        ensures works { result.works ≡ true }
    {
        // What holds of the gate's place is known from here.
        let _ = entries.gate();
        Journal {
            alloc,
            header,
            entries,
            staged: Vec::new(alloc),
            batch: Vec::new(alloc),
            payload: Vec::new(alloc),
            spare: 0,
            works: true,
        }
    }

    /// The role of the end that keeps it.
    pub fn role(&self) -> Role
        ensures { result ≡ self.now.header.role }
    {
        self.header.role
    }

    /// Its communication id.
    pub fn own(&self) -> CommId
        ensures { result ≡ self.now.header.own }
    {
        self.header.own
    }

    /// Its peer's communication id.
    pub fn peer(&self) -> CommId
        ensures { result ≡ self.now.header.peer }
    {
        self.header.peer
    }

    /// How many entries it has. What is staged does not count.
    pub fn len(&self) -> usize
        ensures value { result ≡ length self.now.entries }
        ensures most { result ≤ MOST_ENTRIES }
    {
        self.entries.len()
    }

    /// What was done with the set of an entry.
    pub fn kind(&self, index: usize) -> EntryKind
        requires { index < length self.now.entries }
        ensures { (none : Entry) → result ≡ (slice_index_or self.now.entries index none).kind }
    {
        self.entries.kind(index)
    }

    /// The text of an entry's set, as the journal keeps it.
    pub fn text(&self, index: usize) -> &SetText
        requires { index < length self.now.entries }
        ensures value { (none : Entry) → result.now ≡ (slice_index_or self.now.entries index none).payload }
        ensures length { IsPayloadLength (length result.now) }
    {
        self.entries.text(index)
    }

    /// The bytes of an entry's set.
    pub fn payload(&self, index: usize) -> &[u8]
        requires { index < length self.now.entries }
        ensures value { (none : Entry) → result.now ≡ (slice_index_or self.now.entries index none).payload }
        ensures length { IsPayloadLength (length result.now) }
    {
        self.entries.text(index).as_slice()
    }

    /// The place of an entry's kind byte in the image.
    pub fn place(&self, index: usize) -> u64
        requires { index < length self.now.entries }
        ensures { result ≡ gate_place (take index self.now.entries) + 1 }
    {
        self.entries.place(index)
    }

    /// How many entries are staged.
    pub fn staged(&self) -> usize
        ensures { result ≡ length self.now.staged }
    {
        self.staged.len()
    }

    /// False from a call on that answered `Station`.
    pub fn works(&self) -> bool
        ensures { result ≡ self.now.works }
    {
        self.works
    }
}
