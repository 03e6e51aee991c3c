//! Signing a set.

ghost use Rattle.std.specs.Prelude.{◌≡◌, ◌≤◌, ◌<◌, [], IfOk, None, Ok, OnOk, Some, length};
ghost use Rattle.std.specs.Option.{option_copied};
ghost use Rattle.dsd_values.specs.declared.level.TheConstants.Level.{MAX as HIGHEST};
ghost use Rattle.dsd_values.specs.declared.limits.TheConstants.{MOST_LINES};
ghost use Rattle.dsd_values.specs.declared.quantity.TheConstants.{MOST_TOTAL_QUANTITY};
ghost use Rattle.transaction_set.specs.SoundLines.{AreSoundLines};
ghost use Rattle.segments.specs.declared.segment_writer.TheConstants.{MOST_CONTROL_NUMBER as MOST_CONTROL};
ghost use Rattle.base_record_894.specs.WrittenText.{written_of as base_written};
ghost use Rattle.adjustment_895.specs.WrittenText.{written_of as answer_written};
ghost use Rattle.dsd_record.specs.Applying.{Applies, applied as version_behind};
ghost use Rattle.dsd_record.specs.ChangedPrice.{IsPriceAfter, price_with};
ghost use Rattle.dsd_record.specs.Naming.{answered_level};
ghost use Rattle.dsd_journal.specs.declared.entry.EntryKind.TheVariants.{Signed as IsSigned};
ghost use Rattle.delivery_book.specs.Answering.{IsAcceptance, IsAdjustment, answer_to as answer_made_to};
ghost use Rattle.delivery_book.specs.Changes.{IsChange};
ghost use Rattle.delivery_book.specs.Index.{AreRules};
ghost use Rattle.delivery_book.specs.Outcomes.{Judges};
ghost use Rattle.delivery_book.specs.Refusals.{◌else_try◌, accept_fault, adjust_fault, priced_fault, propose_fault, write_fault};
ghost use Rattle.delivery_book.specs.Signatures.{IsAccepting, IsAcceptingAt, IsAdjusting, IsAdjustingKnown, IsAnswerAdded, IsBaseAdded, IsLevelLeft, IsPriced, IsSignedAnswer, IsSignedBase, IsWrittenAnswer, IsWrittenBase, as_unwritten, pricing_fault, stand_accept_fault, stand_adjust_fault};
ghost use Rattle.delivery_book.specs.Signing.{next_control as control_after};
ghost use Rattle.delivery_book.specs.StandFaults.{stand_answer_fault, stand_level_fault, stand_offer_fault};

use crate::admitting::next_control;
use crate::change::Change;
use crate::delivery::{Deliveries, Delivery};
use crate::fault::RuleFault;
use crate::sides::is_role;
use crate::versions::applied;
use adjustment_895::{Answer895, AnswerHead, write_sealed_895};
use base_record_894::{Base, write_sealed_894};
use dsd_journal::{Entry, EntryKind};
use dsd_pricing::{Totals, WriteFault};
use dsd_record::{ApplyFault, ChangeFault, DsdRecord};
use dsd_values::{Check, DeliveryNumber, Level, Lines, Memory, Role, SetText, Signature, Word};
use std::alloc::Global;

/// What a base record adds that this end signs, or why it does not sign it.
pub(crate) fn proposing(
    alloc: Global,
    role: Role,
    entries: &[Entry],
    deliveries: &Deliveries,
    signed: usize,
    base: &Base,
) -> Result<Change, RuleFault>
    requires rules { AreRules role entries.now deliveries.now.entries signed }
    ensures { Judges result (propose_fault role entries.now base.now) (λ change. IsChange role entries.now change × ((change.entry.kind ≡ IsSigned) × (base_written base.now (control_after entries.now) ≡ Ok change.entry.payload))) }
{
    match next_control(signed) {
        Ok(control) => {
            let known = deliveries.get(base.number());
            offer(alloc, role, entries.len(), known, control, base)
        }
        Err(_) => Err(RuleFault::Memory),
    }
}

/// Signs a base record with this control number, as its delivery stands.
fn offer(
    alloc: Global,
    role: Role,
    place: usize,
    known: Option<&Delivery>,
    control: u32,
    base: &Base,
) -> Result<Change, RuleFault>
    requires { control ≤ MOST_CONTROL }
    ensures { Judges result (stand_offer_fault role (option_copied known.entry) else_try write_fault (base_written base.now control)) (IsSignedBase place (option_copied known.entry) control base.now) }
{
    match check_offer(role, known) {
        Ok(()) => propose(alloc, place, known, control, base),
        Err(fault) => Err(fault),
    }
}

/// Signs a base record.
fn propose(
    alloc: Global,
    place: usize,
    known: Option<&Delivery>,
    control: u32,
    base: &Base,
) -> Result<Change, RuleFault>
    requires { control ≤ MOST_CONTROL }
    ensures { Judges result (write_fault (base_written base.now control)) (IsSignedBase place (option_copied known.entry) control base.now) }
{
    match write_base(alloc, base, control) {
        Ok((text, check)) => signed_base(alloc, place, known, base, text, check),
        Err(fault) => Err(fault),
    }
}

/// What a base record of this text and integrity value adds, which this end signs.
fn signed_base(
    alloc: Global,
    place: usize,
    known: Option<&Delivery>,
    base: &Base,
    text: SetText,
    check: Check,
) -> Result<Change, RuleFault>
    ensures { Judges result None (IsBaseAdded place (option_copied known.entry) base.now check text) }
{
    let Ok(seen) = DsdRecord::from_base(alloc, base, check) else {
        return Err(RuleFault::Memory);
    };
    let entry = Entry {
        kind: EntryKind::Signed,
        payload: text,
    };
    match Change::new(alloc, entry, place, base.number(), known, false, seen) {
        Ok(change) => Ok(change),
        Err(_) => Err(RuleFault::Memory),
    }
}

/// Refuses to propose a delivery at the receiver, and one that is known.
fn check_offer(role: Role, known: Option<&Delivery>) -> Result<(), RuleFault>
    ensures { Judges result (stand_offer_fault role (option_copied known.entry)) (λ _. Unit {0}) }
{
    if is_role(role, Role::Receiver) {
        return Err(RuleFault::NotOurTurn(Level::new(0)));
    }
    match known {
        Some(delivery) => Err(RuleFault::AlreadySigned(delivery.seen().level())),
        None => Ok(()),
    }
}

/// Writes a base record, and answers its integrity value too.
fn write_base(alloc: Global, base: &Base, control: u32) -> Result<(SetText, Check), RuleFault>
    requires { control ≤ MOST_CONTROL }
    ensures { Judges result (write_fault (base_written base.now control)) (IsWrittenBase base.now control) }
{
    match write_sealed_894(alloc, base, control) {
        Ok(sealed) => Ok(sealed),
        Err(fault) => Err(unwritten(fault)),
    }
}

/// A refusal to write as one of the rules.
fn unwritten(fault: WriteFault) -> RuleFault
    ensures { result ≡ as_unwritten fault }
{
    match fault {
        WriteFault::Memory => RuleFault::Memory,
        fault => RuleFault::Write(fault),
    }
}

/// What an acceptance of a delivery's highest proposal adds, or why this end does not sign it.
pub(crate) fn accepting(
    alloc: Global,
    role: Role,
    entries: &[Entry],
    deliveries: &Deliveries,
    signed: usize,
    number: &DeliveryNumber,
    signature: &Signature,
) -> Result<Change, RuleFault>
    requires rules { AreRules role entries.now deliveries.now.entries signed }
    ensures { Judges result (accept_fault role entries.now number.now signature.now) (λ change. IsChange role entries.now change × ((change.entry.kind ≡ IsSigned) × IsAcceptance role entries.now number.now signature.now change.entry.payload)) }
{
    match next_control(signed) {
        Ok(control) => {
            let known = deliveries.get(number);
            accept_known(alloc, role, entries.len(), known, control, signature)
        }
        Err(_) => Err(RuleFault::Memory),
    }
}

/// Signs an acceptance with this control number, as the delivery stands.
fn accept_known(
    alloc: Global,
    role: Role,
    place: usize,
    known: Option<&Delivery>,
    control: u32,
    signature: &Signature,
) -> Result<Change, RuleFault>
    requires { control ≤ MOST_CONTROL }
    ensures { Judges result (stand_accept_fault role control (option_copied known.entry) signature.now) (IsAccepting role place (option_copied known.entry) control signature.now) }
{
    match answerable(known) {
        Ok(delivery) => accept(alloc, role, place, delivery, control, signature),
        Err(fault) => Err(fault),
    }
}

/// Signs an acceptance of a delivery.
fn accept(
    alloc: Global,
    role: Role,
    place: usize,
    delivery: &Delivery,
    control: u32,
    signature: &Signature,
) -> Result<Change, RuleFault>
    requires { control ≤ MOST_CONTROL }
    ensures { Judges result (write_fault (answer_written (answer_made_to role delivery.now.seen [] delivery.now.seen.totals signature.now) control)) (IsAcceptingAt role place delivery.now control signature.now) }
{
    let answer = acceptance(alloc, role, delivery.seen(), signature);
    sign(alloc, place, delivery, control, &answer)
}

/// This end's acceptance of a version.
fn acceptance(alloc: Global, role: Role, seen: &DsdRecord, signature: &Signature) -> Answer895
    ensures value { result ≡ answer_made_to role seen.now [] seen.now.totals signature.now }
    ensures price { IsPriceAfter seen.now [] seen.now.totals }
{
    // That a version has few lines and a price is known once these are lent.
    let _ = seen.line_count();
    let _ = seen.lines();
    answer_to(role, seen, Lines::new(alloc), seen.totals(), signature)
}

/// What an adjustment of a delivery's highest proposal adds, or why this end does not sign it.
pub(crate) fn adjusting(
    alloc: Global,
    role: Role,
    entries: &[Entry],
    deliveries: &Deliveries,
    signed: usize,
    number: &DeliveryNumber,
    changes: &Lines,
    signature: &Signature,
) -> Result<Change, RuleFault>
    requires rules { AreRules role entries.now deliveries.now.entries signed }
    requires some { 0 < length changes.now }
    requires sound { AreSoundLines changes.now }
    ensures { Judges result (adjust_fault role entries.now number.now changes.now signature.now) (λ change. IsChange role entries.now change × ((change.entry.kind ≡ IsSigned) × IsAdjustment role entries.now number.now changes.now signature.now change.entry.payload)) }
{
    match next_control(signed) {
        Ok(control) => {
            let known = deliveries.get(number);
            adjust_known(
                alloc,
                role,
                entries.len(),
                known,
                control,
                changes,
                signature,
            )
        }
        Err(_) => Err(RuleFault::Memory),
    }
}

/// Signs an adjustment with this control number, as the delivery stands.
fn adjust_known(
    alloc: Global,
    role: Role,
    place: usize,
    known: Option<&Delivery>,
    control: u32,
    changes: &Lines,
    signature: &Signature,
) -> Result<Change, RuleFault>
    requires some { 0 < length changes.now }
    requires sound { AreSoundLines changes.now }
    requires control { control ≤ MOST_CONTROL }
    ensures { Judges result (stand_adjust_fault role control (option_copied known.entry) changes.now signature.now) (IsAdjustingKnown role place (option_copied known.entry) control changes.now signature.now) }
{
    match adjustable(known) {
        Ok(delivery) => adjust(alloc, role, place, delivery, control, changes, signature),
        Err(fault) => Err(fault),
    }
}

/// Signs an adjustment of a delivery.
fn adjust(
    alloc: Global,
    role: Role,
    place: usize,
    delivery: &Delivery,
    control: u32,
    changes: &Lines,
    signature: &Signature,
) -> Result<Change, RuleFault>
    requires level { delivery.now.seen.level < HIGHEST }
    requires some { 0 < length changes.now }
    requires sound { AreSoundLines changes.now }
    requires control { control ≤ MOST_CONTROL }
    ensures { Judges result (priced_fault role control delivery.now.seen changes.now signature.now (price_with delivery.now.seen changes.now)) (IsAdjusting role place delivery.now control changes.now signature.now) }
{
    match priced(alloc, delivery.seen(), changes) {
        Ok(totals) => adjust_at(
            alloc, role, place, delivery, control, changes, totals, signature,
        ),
        Err(fault) => Err(fault),
    }
}

/// The same at the price of the lines that then stand.
fn adjust_at(
    alloc: Global,
    role: Role,
    place: usize,
    delivery: &Delivery,
    control: u32,
    changes: &Lines,
    totals: Totals,
    signature: &Signature,
) -> Result<Change, RuleFault>
    requires level { IsLevelLeft changes.now delivery.now.seen.level }
    requires sound { AreSoundLines changes.now }
    requires few { length changes.now ≤ MOST_LINES }
    requires quantity { totals.quantity ≤ MOST_TOTAL_QUANTITY }
    requires control { control ≤ MOST_CONTROL }
    requires price { IsPriceAfter delivery.now.seen changes.now totals }
    ensures { Judges result (write_fault (answer_written (answer_made_to role delivery.now.seen changes.now totals signature.now) control)) (IsSignedAnswer place delivery.now control (answer_made_to role delivery.now.seen changes.now totals signature.now)) }
{
    let Ok(lines) = changes.try_copy(alloc) else {
        return Err(RuleFault::Memory);
    };
    let answer = answer_to(role, delivery.seen(), lines, totals, signature);
    sign(alloc, place, delivery, control, &answer)
}

/// The delivery, where it is known, not accepted, and the other end's proposal is its highest.
fn answerable(known: Option<&Delivery>) -> Result<&Delivery, RuleFault>
    ensures { Judges result (stand_answer_fault (option_copied known.entry)) (λ delivery. option_copied known.entry ≡ Some delivery.now) }
{
    let Some(delivery) = known else {
        return Err(RuleFault::NoDelivery);
    };
    if delivery.is_accepted() {
        return Err(RuleFault::AlreadyFinal(delivery.seen().check()));
    }
    if delivery.is_ours() {
        return Err(RuleFault::NotOurTurn(delivery.seen().level()));
    }
    Ok(delivery)
}

/// The same where a level is left besides.
fn adjustable(known: Option<&Delivery>) -> Result<&Delivery, RuleFault>
    ensures exact { Judges result (stand_level_fault (option_copied known.entry)) (λ delivery. option_copied known.entry ≡ Some delivery.now) }
    ensures below { IfOk result (λ delivery. delivery.now.seen.level < HIGHEST) }
{
    let delivery = answerable(known)?;
    if delivery.seen().level().get() >= Level::MAX {
        return Err(RuleFault::LevelLimit);
    }
    Ok(delivery)
}

/// What a version comes to with changes.
fn priced(alloc: Global, seen: &DsdRecord, changes: &Lines) -> Result<Totals, RuleFault>
    requires sound { AreSoundLines changes.now }
    ensures exact { Judges result (pricing_fault (price_with seen.now changes.now)) (IsPriced seen.now changes.now) }
    ensures price { IfOk result (IsPriceAfter seen.now changes.now) }
    ensures few { OnOk result (length changes.now ≤ MOST_LINES) }
    ensures small { IfOk result (λ totals. totals.quantity ≤ MOST_TOTAL_QUANTITY) }
{
    match seen.price_after(alloc, changes) {
        Ok(totals) => Ok(totals),
        Err(ChangeFault::Limit(lines)) => Err(RuleFault::Apply(ApplyFault::Limit(lines))),
        Err(ChangeFault::Price(fault)) => Err(RuleFault::Write(WriteFault::Price(fault))),
        Err(ChangeFault::Memory) => Err(RuleFault::Memory),
    }
}

/// This end's answer to a version.
fn answer_to(
    role: Role,
    seen: &DsdRecord,
    lines: Lines,
    totals: Totals,
    signature: &Signature,
) -> Answer895
    requires level { IsLevelLeft lines seen.now.level }
    requires sound { AreSoundLines lines }
    requires few { length lines ≤ MOST_LINES }
    requires quantity { totals.quantity ≤ MOST_TOTAL_QUANTITY }
    ensures { result ≡ answer_made_to role seen.now lines totals signature.now }
{
    let head = AnswerHead {
        role,
        flag: seen.flag(),
        number: seen.number().copy(),
        check: seen.check(),
        level: level_of_answer(seen.level(), &lines),
        receiver_number: Word::empty(),
    };
    Answer895::new(head, lines, totals, signature.copy())
}

/// The level of an answer with these lines to a proposal of this level.
fn level_of_answer(level: Level, lines: &Lines) -> Level
    requires { IsLevelLeft lines.now level }
    ensures { result ≡ answered_level lines.now level }
{
    if lines.as_slice().is_empty() {
        level
    } else {
        Level::new(level.get() + 1)
    }
}

/// What an answer of this end adds, which applies to the highest proposal of its delivery.
fn sign(
    alloc: Global,
    place: usize,
    delivery: &Delivery,
    control: u32,
    answer: &Answer895,
) -> Result<Change, RuleFault>
    requires applies { Applies delivery.now.seen answer.now }
    requires control { control ≤ MOST_CONTROL }
    ensures { Judges result (write_fault (answer_written answer.now control)) (IsSignedAnswer place delivery.now control answer.now) }
{
    match write_answer(alloc, answer, control) {
        Ok((text, check)) => signed_answer(alloc, place, delivery, answer, text, check),
        Err(fault) => Err(fault),
    }
}

/// What an answer of this text and integrity value adds, which this end signs.
fn signed_answer(
    alloc: Global,
    place: usize,
    delivery: &Delivery,
    answer: &Answer895,
    text: SetText,
    check: Check,
) -> Result<Change, RuleFault>
    requires { Applies delivery.now.seen answer.now }
    ensures { Judges result None (IsAnswerAdded place delivery.now answer.now check text) }
{
    let Ok(seen) = applied_for_sure(alloc, delivery.seen(), answer, check) else {
        return Err(RuleFault::Memory);
    };
    let entry = Entry {
        kind: EntryKind::Signed,
        payload: text,
    };
    let accepts = answer.is_acknowledgement();
    match Change::new(
        alloc,
        entry,
        place,
        answer.number(),
        Some(delivery),
        accepts,
        seen,
    ) {
        Ok(change) => Ok(change),
        Err(_) => Err(RuleFault::Memory),
    }
}

/// Writes an answer, and answers its integrity value too.
fn write_answer(
    alloc: Global,
    answer: &Answer895,
    control: u32,
) -> Result<(SetText, Check), RuleFault>
    requires { control ≤ MOST_CONTROL }
    ensures { Judges result (write_fault (answer_written answer.now control)) (IsWrittenAnswer answer.now control) }
{
    match write_sealed_895(alloc, answer, control) {
        Ok(sealed) => Ok(sealed),
        Err(fault) => Err(unwritten(fault)),
    }
}

/// The version behind an answer that applies.
fn applied_for_sure(
    alloc: Global,
    seen: &DsdRecord,
    answer: &Answer895,
    check: Check,
) -> Result<DsdRecord, Memory>
    requires { Applies seen.now answer.now }
    ensures { IfOk result (λ after. after ≡ version_behind seen.now answer.now check) }
{
    match applied(alloc, seen, answer, check) {
        Ok(after) => Ok(after),
        Err(_) => Err(Memory),
    }
}
