//! Why a set is not taken, by how its delivery stands.

ghost use Rattle.std.specs.Prelude.{◌≡◌, None, true, not};
ghost use Rattle.std.specs.Option.{option_copied};
ghost use Rattle.dsd_values.specs.declared.role.Role.TheVariants.{Supplier as TheSupplier};
ghost use Rattle.dsd_record.specs.Applying.{applied as after_answer, apply_fault};
ghost use Rattle.delivery_book.specs.Index.{IsBehind, IsFirst, IsMade};
ghost use Rattle.delivery_book.specs.Outcomes.{Judges};
ghost use Rattle.delivery_book.specs.Refusals.{◌else_try◌, as_apply, is_right_level as right_level, is_role as is_this_role, when};
ghost use Rattle.delivery_book.specs.StandFaults.{as_rule, named_by_stand, offered, stale_by, stand_fault, stand_named_fault};
ghost use Rattle.delivery_book.specs.declared.fault.RuleFault.TheVariants.{WrongSide as AtWrongSide};

use crate::delivery::Delivery;
use crate::fault::RuleFault;
use crate::sides::{is_right_level, is_role, level_named};
use crate::versions::applied;
use adjustment_895::Answer895;
use base_record_894::Base;
use dsd_record::{ApplyFault, DsdRecord, SetView};
use dsd_values::{Check, Role};
use std::alloc::Global;

/// The version behind a set that this end takes, or why it does not take it.
pub(crate) fn judge(
    alloc: Global,
    role: Role,
    known: Option<&Delivery>,
    set: &SetView,
) -> Result<DsdRecord, RuleFault>
    ensures { Judges result (stand_fault role (option_copied known.entry) set.now) (IsMade (option_copied known.entry) set.now) }
{
    match set {
        SetView::Base(base, seal) => judge_base(alloc, role, known, base, seal.check),
        SetView::Answer(answer, seal) => judge_answer(alloc, role, known, answer, seal.check),
    }
}

fn judge_base(
    alloc: Global,
    role: Role,
    known: Option<&Delivery>,
    base: &Base,
    check: Check,
) -> Result<DsdRecord, RuleFault>
    ensures { Judges result (when (is_this_role role TheSupplier) AtWrongSide else_try stale_by (option_copied known.entry)) (IsFirst base.now check) }
{
    if is_role(role, Role::Supplier) {
        return Err(RuleFault::WrongSide);
    }
    match known {
        Some(delivery) => Err(RuleFault::Stale(delivery.seen().level())),
        None => Ok(DsdRecord::from_base(alloc, base, check)?),
    }
}

fn judge_answer(
    alloc: Global,
    role: Role,
    known: Option<&Delivery>,
    answer: &Answer895,
    check: Check,
) -> Result<DsdRecord, RuleFault>
    ensures { Judges result (when (is_this_role answer.now.role role) AtWrongSide else_try (when (not (right_level answer.now)) AtWrongSide else_try stand_named_fault (option_copied known.entry) answer.now)) (IsBehind (option_copied known.entry) answer.now check) }
{
    if is_role(answer.role(), role) {
        return Err(RuleFault::WrongSide);
    }
    if !is_right_level(answer) {
        return Err(RuleFault::WrongSide);
    }
    match known {
        Some(delivery) => version_behind(alloc, delivery, answer, check),
        None => Err(RuleFault::UnknownSet(answer.check())),
    }
}

/// Refuses an answer as its delivery stands, and else gives the version behind it.
fn version_behind(
    alloc: Global,
    delivery: &Delivery,
    answer: &Answer895,
    check: Check,
) -> Result<DsdRecord, RuleFault>
    ensures { Judges result (named_by_stand (offered answer.now delivery.now) delivery.now answer.now) (λ after. after ≡ after_answer delivery.now.seen answer.now check) }
{
    let Some(offer) = delivery
        .history()
        .offer(level_named(answer), answer.check())
    else {
        return Err(RuleFault::UnknownSet(answer.check()));
    };
    let seen = delivery.seen();
    if delivery.is_accepted() {
        return Err(RuleFault::AlreadyFinal(seen.check()));
    }
    if offer.level.get() < seen.level().get() {
        return Err(RuleFault::Stale(seen.level()));
    }
    applied_or_refused(alloc, seen, answer, check)
}

fn applied_or_refused(
    alloc: Global,
    seen: &DsdRecord,
    answer: &Answer895,
    check: Check,
) -> Result<DsdRecord, RuleFault>
    ensures { Judges result (as_apply (apply_fault seen.now answer.now)) (λ after. after ≡ after_answer seen.now answer.now check) }
{
    match applied(alloc, seen, answer, check) {
        Ok(after) => Ok(after),
        Err(fault) => Err(rule_fault(fault)),
    }
}

fn rule_fault(fault: ApplyFault) -> RuleFault
    ensures { result ≡ as_rule fault }
{
    match fault {
        ApplyFault::Memory => RuleFault::Memory,
        fault => RuleFault::Apply(fault),
    }
}
