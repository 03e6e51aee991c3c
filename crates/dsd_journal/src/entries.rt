//! The entries of a journal that is open, each with its place.

ghost use Rattle.std.specs.Prelude.{◌≡◌, ◌+◌, ◌-◌, ◌<◌, ◌≤◌, [], ◌∷◌, ◌++◌, length, take, slice_index_or, vec_capacity, vec_len, OnOk};
ghost use Rattle.dsd_journal.specs.JournalImage.{gate_place, spelled, EachFits, IsPayloadLength};
ghost use Rattle.dsd_journal.specs.Kept.{places_from, Shelf};

use crate::entry::{Entry, EntryKind};
use crate::limits::{HEADER_BYTES, JOURNAL_BYTES, MOST_ENTRIES};
use dsd_values::{Memory, SetText};
use std::alloc::Global;
use std::marker::Model;

/// The entries, the places of their kinds, and the place of the gate behind them.
#[derive(Drop)]
pub(crate) struct Entries {
    list: Vec<Entry>,
    places: Vec<u64>,
    gate: u64,
}

impl Model for Entries {
    ghost use Rattle.dsd_journal.specs.Kept.{Shelf};
    ghost use Rattle.dsd_journal.specs.Inside.{shelf_of, IsShelf};

    ghost Value = { Shelf };

    ghost view = { shelf_of };

    ghost invariant = { IsShelf };
}

impl Entries {
    pub(crate) fn new(alloc: Global) -> Entries
        ensures { result.list ≡ [] }
    {
        Entries {
            list: Vec::new(alloc),
            places: Vec::new(alloc),
            gate: HEADER_BYTES as u64,
        }
    }

    pub(crate) fn len(&self) -> usize
        ensures value { result ≡ length self.now.list }
        ensures most { result ≤ MOST_ENTRIES }
    {
        let _ = &self.gate;
        self.list.len()
    }

    /// The place of the gate behind the entries.
    pub(crate) fn gate(&self) -> u64
        ensures value { result ≡ gate_place self.now.list }
        ensures below { result < JOURNAL_BYTES }
    {
        self.gate
    }

    pub(crate) fn kind(&self, index: usize) -> EntryKind
        requires { index < length self.now.list }
        ensures { (none : Entry) → result ≡ (slice_index_or self.now.list index none).kind }
    {
        self.list[index].kind
    }

    pub(crate) fn text(&self, index: usize) -> &SetText
        requires { index < length self.now.list }
        ensures value { (none : Entry) → result.now ≡ (slice_index_or self.now.list index none).payload }
        ensures length { IsPayloadLength (length result.now) }
    {
        &self.list[index].payload
    }

    /// The place of an entry's kind.
    pub(crate) fn place(&self, index: usize) -> u64
        requires { index < length self.now.list }
        ensures { result ≡ gate_place (take index self.now.list) + 1 }
    {
        self.places[index]
    }

    /// Makes room for so many more.
    pub(crate) fn reserve(&mut self, count: usize) -> Result<(), Memory>
        ensures list { self.new.list ≡ self.old.list }
        ensures ok { OnOk result (count ≤ self.new.room) }
        ensures room { self.old.room ≤ self.new.room }
    {
        self.list.reserve(count)?;
        self.places.reserve(count)?;
        Ok(())
    }

    /// Adds an entry for which there is room, in memory and below the last place.
    pub(crate) fn push_reserved(&mut self, entry: Entry)
        requires room { 0 < self.old.room }
        requires sized { IsPayloadLength (length entry.payload) }
        requires near { gate_place self.old.list + 6 + length entry.payload < JOURNAL_BYTES }
        ensures { self.new.list ≡ self.old.list ++ entry ∷ [] }
    {
        let length = entry.payload.as_slice().len() as u64;
        self.places.push_reserved(self.gate + 1);
        self.list.push_reserved(entry);
        self.gate += 6 + length;
    }

    /// Moves entries behind these, for which there is room, in memory and below the last place.
    pub(crate) fn append_reserved(&mut self, more: &mut Vec<Entry>)
        requires room { vec_len more.old ≤ self.old.room }
        requires each { EachFits more.old.items }
        requires near { gate_place (self.old.list ++ more.old.items) < JOURNAL_BYTES }
        ensures list { self.new.list ≡ self.old.list ++ more.old.items }
        ensures room { self.old.room ≤ self.new.room + vec_len more.old }
        ensures more { more.new.items ≡ [] }
        ensures len { vec_len more.new ≡ 0 }
        ensures capacity { vec_capacity more.new ≡ vec_capacity more.old }
    {
        self.gate = add_places(&mut self.places, self.gate, more);
        match self.list.append(more) {
            Ok(()) => {}
            Err(_) => unreachable!(),
        }
    }
}

/// Adds the places of entries, the first of which has its gate here, in room that was made before. Answers the place of
/// the gate behind them.
fn add_places(places: &mut Vec<u64>, gate: u64, more: &[Entry]) -> u64
    requires room { vec_len places.old + length more.now ≤ vec_capacity places.old }
    requires near { gate + length (spelled more.now) < JOURNAL_BYTES }
    ensures items { places.new.items ≡ places.old.items ++ places_from gate more.now }
    ensures len { vec_len places.new ≡ vec_len places.old + length more.now }
    ensures capacity { vec_capacity places.new ≡ vec_capacity places.old }
    ensures gate { result ≡ gate + length (spelled more.now) }
{
    let mut next = gate;
    for entry in more {
        places.push_reserved(next + 1);
        next += 6 + entry.payload.as_slice().len() as u64;
    }
    next
}
