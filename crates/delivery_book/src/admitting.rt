//! Whether an entry may stand behind others.

ghost use Rattle.std.specs.Prelude.{◌≡◌, ◌+◌, ◌≤◌, IfOk, length};
ghost use Rattle.std.specs.Option.{option_copied};
ghost use Rattle.segments.specs.declared.segment_writer.TheConstants.{MOST_CONTROL_NUMBER as MOST_CONTROL};
ghost use Rattle.dsd_record.specs.declared.set_view.SetView.{SetView as Set};
ghost use Rattle.dsd_record.specs.Applying.{applied as behind};
ghost use Rattle.delivery_book.specs.Admissions.{Decides, as_no_set, as_unapplied, is_admitted, is_allowed, is_answer_allowed, is_base_allowed, is_stand_answered, is_turn as is_turn_of};
ghost use Rattle.delivery_book.specs.Changes.{IsChange, is_form, is_set_written};
ghost use Rattle.delivery_book.specs.Deeds.{number_in};
ghost use Rattle.delivery_book.specs.Index.{AreRules, IsFirst, IsBehind, IsMade, kept_in};
ghost use Rattle.delivery_book.specs.Outcomes.{Admits};
ghost use Rattle.delivery_book.specs.Signing.{Allows};
ghost use Rattle.delivery_book.specs.Takings.{IsAdded};

use crate::change::{Change, added, number_of};
use crate::delivery::{Deliveries, Delivery};
use crate::fault::AdmitFault;
use crate::sides::{is_role, signer};
use crate::versions::applied;
use adjustment_895::{Answer895, write_895};
use base_record_894::{Base, write_894};
use dsd_journal::{Entry, EntryKind};
use dsd_pricing::WriteFault;
use dsd_record::{ApplyFault, DsdRecord, SetView, set_of};
use dsd_values::{Check, Memory, Role};
use segments::MOST_CONTROL_NUMBER;
use std::alloc::Global;
use transaction_set::SetFault;

/// What an entry adds, where it may stand behind these; so many of them were signed.
pub(crate) fn admitting(
    alloc: Global,
    role: Role,
    entries: &[Entry],
    deliveries: &Deliveries,
    signed: usize,
    kind: EntryKind,
    text: &[u8],
) -> Result<Change, AdmitFault>
    requires rules { AreRules role entries.now deliveries.now.entries signed }
    ensures { Admits result (Allows role entries.now (record { kind = kind; payload = text.now })) (λ change. IsChange role entries.now change × (change.entry ≡ record { kind = kind; payload = text.now })) }
{
    match set_of(alloc, text) {
        Ok(set) => admit_set(alloc, role, entries, deliveries, signed, kind, text, &set),
        Err(fault) => Err(no_set(fault)),
    }
}

/// A text that is no set may not stand.
fn no_set(fault: SetFault) -> AdmitFault
    ensures { result ≡ as_no_set fault }
{
    match fault {
        SetFault::Memory => AdmitFault::Memory,
        _ => AdmitFault::Illegal,
    }
}

/// The same of a text that is this set.
fn admit_set(
    alloc: Global,
    role: Role,
    entries: &[Entry],
    deliveries: &Deliveries,
    signed: usize,
    kind: EntryKind,
    text: &[u8],
    set: &SetView,
) -> Result<Change, AdmitFault>
    ensures { Decides result (is_admitted role kind (signed + 1) (kept_in deliveries.now.entries (number_in set.now)) text.now set.now)
        (IsAdded (length entries.now) (kept_in deliveries.now.entries (number_in set.now)) (record { kind = kind; payload = text.now }) set.now) }
{
    let known = deliveries.get(number_of(set));
    let Ok(form) = is_in_form(alloc, kind, signed, text, set) else {
        return Err(AdmitFault::Memory);
    };
    if form {
        return admit(alloc, role, entries.len(), kind, text, known, set);
    }
    Err(AdmitFault::Illegal)
}

/// The same of a set in its written form, where one is asked for.
fn admit(
    alloc: Global,
    role: Role,
    place: usize,
    kind: EntryKind,
    text: &[u8],
    known: Option<&Delivery>,
    set: &SetView,
) -> Result<Change, AdmitFault>
    ensures { Decides result (is_allowed role kind (option_copied known.entry) set.now) (IsAdded place (option_copied known.entry) (record { kind = kind; payload = text.now }) set.now) }
{
    match allowed(alloc, role, kind, known, set) {
        Ok(seen) => match added(alloc, kind, text, place, known, set, seen) {
            Ok(change) => Ok(change),
            Err(_) => Err(AdmitFault::Memory),
        },
        Err(fault) => Err(fault),
    }
}

/// The control number of the next set that is signed, where so many were.
pub(crate) fn next_control(signed: usize) -> Result<u32, Memory>
    ensures value { IfOk result (λ control. control ≡ signed + 1) }
    ensures most { IfOk result (λ control. control ≤ MOST_CONTROL) }
{
    if signed >= MOST_CONTROL_NUMBER as usize {
        return Err(Memory);
    }
    Ok(signed as u32 + 1)
}

/// Whether a set that was signed is in its written form, with the next control number.
fn is_in_form(
    alloc: Global,
    kind: EntryKind,
    signed: usize,
    text: &[u8],
    set: &SetView,
) -> Result<bool, Memory>
    ensures { IfOk result (λ is. is ≡ is_form kind set.now (signed + 1) text.now) }
{
    match kind {
        EntryKind::Took => Ok(true),
        EntryKind::Signed => is_written(alloc, next_control(signed)?, text, set),
    }
}

/// Whether the text is the written form of the set.
fn is_written(alloc: Global, control: u32, text: &[u8], set: &SetView) -> Result<bool, Memory>
    requires { control ≤ MOST_CONTROL }
    ensures { IfOk result (λ is. is ≡ is_set_written set.now control text.now) }
{
    let written = match set {
        SetView::Base(base, _seal) => write_894(alloc, base, control),
        SetView::Answer(answer, _seal) => write_895(alloc, answer, control),
    };
    match written {
        Ok(written) => Ok(written.as_slice() == text),
        Err(WriteFault::Memory) => Err(Memory),
        Err(_) => Ok(false),
    }
}

/// The version behind a set that may be signed or taken, as its delivery stands.
fn allowed(
    alloc: Global,
    role: Role,
    kind: EntryKind,
    known: Option<&Delivery>,
    set: &SetView,
) -> Result<DsdRecord, AdmitFault>
    ensures { Decides result (is_allowed role kind (option_copied known.entry) set.now) (IsMade (option_copied known.entry) set.now) }
{
    match set {
        SetView::Base(base, seal) => allowed_base(alloc, role, kind, known, base, seal.check),
        SetView::Answer(answer, seal) => {
            allowed_answer(alloc, role, kind, known, answer, seal.check)
        }
    }
}

fn allowed_base(
    alloc: Global,
    role: Role,
    kind: EntryKind,
    known: Option<&Delivery>,
    base: &Base,
    check: Check,
) -> Result<DsdRecord, AdmitFault>
    ensures { Decides result (is_base_allowed role kind (option_copied known.entry)) (IsFirst base.now check) }
{
    if !is_role(signer(role, kind), Role::Supplier) {
        return Err(AdmitFault::Illegal);
    }
    match known {
        Some(_delivery) => Err(AdmitFault::Illegal),
        None => Ok(DsdRecord::from_base(alloc, base, check)?),
    }
}

fn allowed_answer(
    alloc: Global,
    role: Role,
    kind: EntryKind,
    known: Option<&Delivery>,
    answer: &Answer895,
    check: Check,
) -> Result<DsdRecord, AdmitFault>
    ensures { Decides result (is_answer_allowed role kind (option_copied known.entry) answer.now) (IsBehind (option_copied known.entry) answer.now check) }
{
    match known {
        Some(delivery) => answered(alloc, role, kind, delivery, answer, check),
        None => Err(AdmitFault::Illegal),
    }
}

/// The version behind an answer that may be signed or taken.
fn answered(
    alloc: Global,
    role: Role,
    kind: EntryKind,
    delivery: &Delivery,
    answer: &Answer895,
    check: Check,
) -> Result<DsdRecord, AdmitFault>
    ensures { Decides result (is_stand_answered role kind delivery.now answer.now) (λ after. after ≡ behind delivery.now.seen answer.now check) }
{
    if !is_role(answer.role(), signer(role, kind)) {
        return Err(AdmitFault::Illegal);
    }
    if delivery.is_accepted() {
        return Err(AdmitFault::Illegal);
    }
    if !is_turn(delivery.is_ours(), kind) {
        return Err(AdmitFault::Illegal);
    }
    match applied(alloc, delivery.seen(), answer, check) {
        Ok(after) => Ok(after),
        Err(fault) => Err(not_applied(fault)),
    }
}

/// Whether an entry of this kind may answer the highest proposal: whether the other end signed that.
fn is_turn(ours: bool, kind: EntryKind) -> bool
    ensures { result ≡ is_turn_of ours kind }
{
    match kind {
        EntryKind::Signed => !ours,
        EntryKind::Took => ours,
    }
}

/// An answer that does not apply may not stand.
fn not_applied(fault: ApplyFault) -> AdmitFault
    ensures { result ≡ as_unapplied fault }
{
    match fault {
        ApplyFault::Memory => AdmitFault::Memory,
        _ => AdmitFault::Illegal,
    }
}
