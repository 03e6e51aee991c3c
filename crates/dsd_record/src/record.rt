//! One version of a delivery.

mod applying;

ghost use Rattle.std.specs.Prelude.{◌≡◌, ◌<◌, ◌≤◌, ◌↔◌, IfOk, Ok, IsSome, IsTrue, Some, length, slice_get};
ghost use Rattle.std.specs.Option.{option_copied};
ghost use Rattle.indexmap.specs.IndexMap.{values};
ghost use Rattle.dsd_pricing.specs.Pricing.{totals_of};
ghost use Rattle.dsd_values.specs.declared.limits.TheConstants.{MOST_LINES as MOST};
ghost use Rattle.transaction_set.specs.Reasons.{has_line};
ghost use Rattle.dsd_record.specs.Chain.{chain_from, version_of};
ghost use Rattle.dsd_record.specs.LineChanges.{line_under, numbered};
ghost use Rattle.dsd_record.specs.Version.{IsVersion};

use crate::changes::shared_lines;
use base_record_894::Base;
use dsd_pricing::Totals;
use dsd_values::{Check, Day, DeliveryNumber, DsdNumber, Extras, Flag, Level, Line, Memory};
use indexmap::IndexMap;
use std::alloc::Global;
use std::marker::Model;
use std::rc::Rc;

/// One version of a delivery: the record as it stands after its base and the adjustments so far.
///
/// Copies of a version share its lines and its extras.
#[derive(Debug, Drop)]
pub struct DsdRecord {
    flag: Flag,
    number: DeliveryNumber,
    day: Day,
    lines: Rc<IndexMap<DsdNumber, Line>>,
    extras: Rc<Extras>,
    totals: Totals,
    level: Level,
    check: Check,
}

impl Model for DsdRecord {
    ghost use Rattle.std.specs.Prelude.{◌≡◌};
    ghost use Rattle.indexmap.specs.IndexMap.{values};
    ghost use Rattle.dsd_record.specs.LineChanges.{numbered};
    ghost use Rattle.dsd_record.specs.Version.{IsVersion, Version};

    ghost Value = { Version };

    ghost view = { λ r. record { flag = r.flag; number = r.number; day = r.day; lines = values r.lines.value; extras = r.extras.value; totals = r.totals; level = r.level; check = r.check } };

    ghost invariant = { λ r. (r.lines.value.entries ≡ numbered (values r.lines.value)) × IsVersion (record { flag = r.flag; number = r.number; day = r.day; lines = values r.lines.value; extras = r.extras.value; totals = r.totals; level = r.level; check = r.check }) };
}

impl DsdRecord {
    /// The version of level 0 that a base record with this integrity value makes.
    pub fn from_base(alloc: Global, base: &Base, check: Check) -> Result<DsdRecord, Memory>
        ensures { IfOk result (λ made. version_of (chain_from base.now check) ≡ Some made) }
    {
        let none = IndexMap::new(alloc);
        Ok(DsdRecord {
            flag: base.flag(),
            number: base.number().copy(),
            day: base.day(),
            lines: shared_lines(alloc, &none, base.lines())?,
            extras: Rc::new(alloc, base.extras().try_copy(alloc)?)?,
            totals: stated(base),
            level: Level::new(0),
            check,
        })
    }

    /// Whether goods are delivered or returned.
    pub fn flag(&self) -> Flag
        ensures { result ≡ self.now.flag }
    {
        self.flag
    }

    pub fn number(&self) -> &DeliveryNumber
        ensures { result.now ≡ self.now.number }
    {
        &self.number
    }

    /// The day of the delivery.
    pub fn day(&self) -> Day
        ensures { result ≡ self.now.day }
    {
        self.day
    }

    /// What stands at the level of the record.
    pub fn extras(&self) -> &Extras
        ensures { result.now ≡ self.now.extras }
    {
        self.extras.as_ref()
    }

    /// What its rows come to.
    pub fn totals(&self) -> Totals
        ensures value { result ≡ self.now.totals }
        ensures price { totals_of self.now.lines self.now.extras ≡ Ok result }
    {
        self.totals
    }

    /// How many adjustments have made it.
    pub fn level(&self) -> Level
        ensures { result ≡ self.now.level }
    {
        self.level
    }

    /// The integrity value of the set that made it.
    pub fn check(&self) -> Check
        ensures { result ≡ self.now.check }
    {
        self.check
    }

    /// The lines under their numbers, in their order.
    pub fn lines(&self) -> &IndexMap<DsdNumber, Line>
        ensures value { values result.now ≡ self.now.lines }
        ensures under { result.now.entries ≡ numbered self.now.lines }
        ensures version { IsVersion self.now }
    {
        self.lines.as_ref()
    }

    pub fn line_count(&self) -> usize
        ensures value { result ≡ length self.now.lines }
        ensures few { result ≤ MOST }
    {
        self.lines().len()
    }

    /// The line at a place, the first at 0.
    pub fn line(&self, index: usize) -> Option<&Line>
        ensures found { IsSome result ↔ (index < length self.now.lines) }
        ensures value { option_copied result ≡ slice_get self.now.lines index }
    {
        let (_, line) = self.lines().get_index(index)?;
        Some(line)
    }

    /// The line with a number.
    pub fn line_of(&self, dsd: DsdNumber) -> Option<&Line>
        ensures found { IsSome result ↔ IsTrue (has_line dsd self.now.lines) }
        ensures value { option_copied result ≡ line_under dsd self.now.lines }
    {
        self.lines().get(&dsd)
    }

    /// An equal record.
    pub fn try_copy(&self, _alloc: Global) -> Result<DsdRecord, Memory>
        ensures { IfOk result (λ copy. copy ≡ self.now) }
    {
        Ok(DsdRecord {
            flag: self.flag,
            number: self.number.copy(),
            day: self.day,
            lines: self.lines.clone()?,
            extras: self.extras.clone()?,
            totals: self.totals,
            level: self.level,
            check: self.check,
        })
    }
}

/// The totals of a base record.
fn stated(base: &Base) -> Totals
    ensures { totals_of base.now.lines base.now.extras ≡ Ok result }
{
    Totals {
        quantity: base.quantity(),
        amount: base.amount(),
    }
}
