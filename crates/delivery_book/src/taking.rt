//! Taking a text.

ghost use Rattle.std.specs.Prelude.{◌≡◌, ℕ, None};
ghost use Rattle.std.specs.Option.{option_copied};
ghost use Rattle.dsd_journal.specs.declared.entry.EntryKind.TheVariants.{Took as IsTook};
ghost use Rattle.delivery_book.specs.Changes.{IsChange, is_taken_at, is_text as is_that_text};
ghost use Rattle.delivery_book.specs.Deeds.{number_in};
ghost use Rattle.delivery_book.specs.Index.{AreRules, IsMade, history_of, kept_in, text_at};
ghost use Rattle.delivery_book.specs.Outcomes.{Judges};
ghost use Rattle.delivery_book.specs.Refusals.{◌else_try◌, take_fault, when};
ghost use Rattle.delivery_book.specs.StandFaults.{as_unread, stand_fault};
ghost use Rattle.delivery_book.specs.Takings.{IsAdded, IsTaken};
ghost use Rattle.delivery_book.specs.declared.fault.RuleFault.TheVariants.{Known as WasKnown};

use crate::change::{Change, added, number_of};
use crate::delivery::{Deliveries, Delivery};
use crate::fault::RuleFault;
use crate::judging::judge;
use dsd_journal::{Entry, EntryKind};
use dsd_record::{DsdRecord, SetView, set_of};
use dsd_values::Role;
use std::alloc::Global;
use transaction_set::SetFault;

/// What a text adds that this end takes, or why it does not take it.
pub(crate) fn taking(
    alloc: Global,
    role: Role,
    entries: &[Entry],
    deliveries: &Deliveries,
    text: &[u8],
) -> Result<Change, RuleFault>
    requires rules { (signed : ℕ) × AreRules role entries.now deliveries.now.entries signed }
    ensures { Judges result (take_fault role entries.now text.now) (λ change. IsChange role entries.now change × (change.entry ≡ record { kind = IsTook; payload = text.now })) }
{
    match set_of(alloc, text) {
        Ok(set) => take_set(alloc, role, entries, deliveries, text, &set),
        Err(fault) => Err(unread(fault)),
    }
}

/// A refusal of the text as one of the rules.
fn unread(fault: SetFault) -> RuleFault
    ensures { result ≡ as_unread fault }
{
    match fault {
        SetFault::Memory => RuleFault::Memory,
        fault => RuleFault::Set(fault),
    }
}

/// The same of a text that is this set.
fn take_set(
    alloc: Global,
    role: Role,
    entries: &[Entry],
    deliveries: &Deliveries,
    text: &[u8],
    set: &SetView,
) -> Result<Change, RuleFault>
    ensures { Judges result
        (when (is_taken_at text.now entries.now (history_of (kept_in deliveries.now.entries (number_in set.now))).taken) WasKnown else_try stand_fault role (kept_in deliveries.now.entries (number_in set.now)) set.now)
        (IsTaken entries.now (kept_in deliveries.now.entries (number_in set.now)) text.now set.now) }
{
    let known = deliveries.get(number_of(set));
    if was_taken(entries, known, text) {
        return Err(RuleFault::Known);
    }
    match judge(alloc, role, known, set) {
        Ok(seen) => take(alloc, entries.len(), text, known, set, seen),
        Err(fault) => Err(fault),
    }
}

/// Takes a set that makes this version.
fn take(
    alloc: Global,
    place: usize,
    text: &[u8],
    known: Option<&Delivery>,
    set: &SetView,
    seen: DsdRecord,
) -> Result<Change, RuleFault>
    requires { IsMade (option_copied known) set.now seen }
    ensures { Judges result None (IsAdded place (option_copied known.entry) (record { kind = IsTook; payload = text.now }) set.now) }
{
    match added(alloc, EntryKind::Took, text, place, known, set, seen) {
        Ok(change) => Ok(change),
        Err(_) => Err(RuleFault::Memory),
    }
}

/// Whether this text was taken of a delivery.
fn was_taken(entries: &[Entry], known: Option<&Delivery>, text: &[u8]) -> bool
    ensures { result ≡ is_taken_at text.now entries.now (history_of (option_copied known.entry)).taken }
{
    match known {
        Some(delivery) => is_among(entries, delivery.history().taken(), text),
        None => false,
    }
}

fn is_among(entries: &[Entry], places: &[usize], text: &[u8]) -> bool
    ensures { result ≡ is_taken_at text.now entries.now places.now }
{
    places.iter().any(|place| is_text(entries, *place, text))
}

/// Whether the entry at this place has this text.
fn is_text(entries: &[Entry], place: usize, text: &[u8]) -> bool
    ensures { result ≡ is_that_text text.now (text_at entries.now place) }
{
    match entries.get(place) {
        Some(entry) => entry.payload.as_slice() == text,
        None => false,
    }
}
