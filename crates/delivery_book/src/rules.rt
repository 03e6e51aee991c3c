//! The signing rules of an end over its entries, without a device.

ghost use Rattle.std.specs.Prelude.{◌≡◌, ◌<◌, ◌+◌, ◌^◌, ◌++◌, ◌∷◌, [], if◌then◌else◌, MatchOption, OnOk, length, slice_index_or, Some, true};
ghost use Rattle.std.specs.Option.{option_copied};
ghost use Rattle.dsd_journal.specs.declared.entry.Entry.{Entry as Kept};
ghost use Rattle.delivery_book.specs.Changes.{IsChange};
ghost use Rattle.delivery_book.specs.Deeds.{deeds_of, is_signed as is_signed_kind};
ghost use Rattle.delivery_book.specs.Finals.{final_of as final_version};
ghost use Rattle.delivery_book.specs.Index.{IsStand};
ghost use Rattle.delivery_book.specs.Lookups.{awaits_us as is_ours_to_answer, last_signed as last_text, number_at, numbers_of, own_amount as amount_of_own, seen_of};
ghost use Rattle.delivery_book.specs.Signing.{Legal};
ghost use Rattle.delivery_book.specs.Standing.{IsNew};

mod calls;

use crate::change::Change;
use crate::delivery::{Deliveries, Delivery, is_signed};
use crate::looking::{at, final_among, index_of, put, text_at};
use dsd_journal::{Entry, EntryKind};
use dsd_record::DsdRecord;
use dsd_values::{Cents, DeliveryNumber, Memory, Role, SetText};
use indexmap::IndexMap;
use std::alloc::Global;
use std::marker::Model;

/// Entries that are legal for the end of a role, and how each delivery stands after them.
///
/// Deliveries stand in the order of their first entries. No call reads the entries again: each costs a look-up of the delivery and what the set
/// itself costs.
#[derive(Drop)]
pub struct Rules {
    alloc: Global,
    role: Role,
    signed: usize,
    entries: Vec<Entry>,
    deliveries: Deliveries,
}

impl Model for Rules {
    ghost use Rattle.std.specs.Prelude.{vec_capacity, vec_len};
    ghost use Rattle.indexmap.specs.IndexMap.{spare};
    ghost use Rattle.delivery_book.specs.Index.{AreRules, RulesView, has_room};

    ghost Value = { RulesView };

    ghost view = { λ r. record { role = r.role; entries = r.entries.items; room = has_room (vec_len r.entries) (vec_capacity r.entries) (spare r.deliveries) } };

    ghost invariant = { λ r. AreRules r.role r.entries.items r.deliveries.entries r.signed };
}

impl Rules {
    /// The rules of the end of this role, without entries.
    pub fn new(alloc: Global, role: Role) -> Rules
        ensures role { result.role ≡ role }
        ensures entries { result.entries ≡ [] }
    {
        Rules {
            alloc,
            role,
            signed: 0,
            entries: Vec::new(alloc),
            deliveries: IndexMap::new(alloc),
        }
    }

    pub fn role(&self) -> Role
        ensures value { result ≡ self.now.role }
        // The entries are always legal.
        ensures legal { Legal self.now.role self.now.entries }
    {
        self.role
    }

    /// How many entries there are.
    pub fn len(&self) -> usize
        ensures { result ≡ length self.now.entries }
    {
        self.entries.len()
    }

    /// What was done with the set of an entry.
    pub fn kind(&self, index: usize) -> EntryKind
        requires { index < length self.now.entries }
        ensures { (none : Kept) → result ≡ (slice_index_or self.now.entries index none).kind }
    {
        self.entries[index].kind
    }

    /// The text of an entry's set.
    pub fn text(&self, index: usize) -> &SetText
        requires { index < length self.now.entries }
        ensures { (none : Kept) → result.now ≡ (slice_index_or self.now.entries index none).payload }
    {
        &self.entries[index].payload
    }

    /// How many deliveries there are.
    pub fn deliveries(&self) -> usize
        ensures { result ≡ length (numbers_of self.now.entries) }
    {
        self.deliveries.len()
    }

    /// Which of them has this number.
    pub fn find(&self, number: &DeliveryNumber) -> Option<usize>
        ensures { MatchOption result (IsNew number.now (deeds_of self.now.entries)) (λ index. (index < length (numbers_of self.now.entries)) × (number_at self.now.entries index ≡ number.now)) }
    {
        index_of(&self.deliveries, number)
    }

    /// The number of a delivery.
    pub fn number(&self, index: usize) -> &DeliveryNumber
        requires { index < length (numbers_of self.now.entries) }
        ensures { result.now ≡ number_at self.now.entries index }
    {
        let (number, _delivery) = self.at(index);
        number
    }

    /// The version that a delivery's highest proposal makes.
    pub fn seen(&self, index: usize) -> &DsdRecord
        requires { index < length (numbers_of self.now.entries) }
        ensures { seen_of self.now.entries (number_at self.now.entries index) ≡ Some result.now }
    {
        let (_number, delivery) = self.at(index);
        delivery.seen()
    }

    /// Whether the highest proposal of a delivery was taken, and no acceptance of it stands.
    pub fn awaits_us(&self, index: usize) -> bool
        requires { index < length (numbers_of self.now.entries) }
        ensures { result ≡ is_ours_to_answer self.now.entries (number_at self.now.entries index) }
    {
        let (_number, delivery) = self.at(index);
        delivery.awaits_us()
    }

    /// The amount of the last proposal that this end signed of a delivery.
    pub fn own_amount(&self, index: usize) -> Option<Cents>
        requires { index < length (numbers_of self.now.entries) }
        ensures { result ≡ amount_of_own self.now.entries (number_at self.now.entries index) }
    {
        let (_number, delivery) = self.at(index);
        delivery.history().amount()
    }

    /// The last set that this end signed of a delivery.
    pub fn last_signed(&self, index: usize) -> Option<&SetText>
        requires { index < length (numbers_of self.now.entries) }
        ensures { option_copied result ≡ last_text self.now.entries (number_at self.now.entries index) }
    {
        let (_number, delivery) = self.at(index);
        text_at(self.entries.as_slice(), delivery.history().last())
    }

    /// The version that ends at the accepted proposal of a delivery, where one is accepted: where the entries hold the proposal and an acceptance of
    /// it, one of them signed and the other taken.
    pub fn final_of(&self, number: &DeliveryNumber) -> Option<&DsdRecord>
        ensures { option_copied result ≡ final_version self.now.entries number.now }
    {
        final_among(&self.deliveries, number)
    }

    /// The delivery at this index, under its number.
    fn at(&self, index: usize) -> (&DeliveryNumber, &Delivery)
        requires { index < length (numbers_of self.now.entries) }
        ensures number { result.0.now ≡ number_at self.now.entries index }
        ensures stand { IsStand (number_at self.now.entries index) self.now.entries result.1.now }
    {
        at(&self.deliveries, index)
    }

    /// Makes room for one entry more.
    pub(crate) fn reserve(&mut self) -> Result<(), Memory>
        ensures role { self.new.role ≡ self.old.role }
        ensures entries { self.new.entries ≡ self.old.entries }
        ensures ok { OnOk result (self.new.room ≡ true) }
    {
        self.entries.reserve(1)?;
        self.deliveries.reserve(1)?;
        Ok(())
    }

    /// Puts an entry behind the others, in the room that was made for it.
    pub(crate) fn keep(&mut self, change: Change)
        requires change { IsChange self.old.role self.old.entries change }
        requires room { self.old.room ≡ true }
        ensures role { self.new.role ≡ self.old.role }
        ensures entries { self.new.entries ≡ self.old.entries ++ change.entry ∷ [] }
    {
        let Change {
            entry,
            number,
            delivery,
        } = change;
        // No more were signed than there are entries, which fit in memory.
        let _ = self.entries.len();
        self.signed = counted(self.signed, entry.kind);
        self.entries.push_reserved(entry);
        put(&mut self.deliveries, number, delivery);
    }
}

/// How many sets were signed with one more entry.
fn counted(signed: usize, kind: EntryKind) -> usize
    requires { signed < 2 ^ 63 }
    ensures { result ≡ (if is_signed_kind kind then signed + 1 else signed) }
{
    if is_signed(kind) { signed + 1 } else { signed }
}
