//! Allowances and charges.

ghost use Rattle.std.specs.Prelude.{◌≡◌, IfOk};

use crate::cents::Cents;
use crate::cost::Cost;
use crate::fault::Memory;
use crate::kept::Kept;
use crate::percent::Percent;
use crate::quantity::Quantity;
use crate::word::Word;
use std::alloc::Global;
use std::marker::Model;

/// What raises or lowers an amount: the elements of a G72 in their order.
#[derive(Debug, Drop)]
pub struct Allowance {
    pub code: Word,
    /// Names a `Method`.
    pub method: Word,
    pub number: Word,
    pub exception: Word,
    pub rate: Option<Cost>,
    pub quantity: Option<Quantity>,
    pub unit: Word,
    pub total: Option<Cents>,
    pub percent: Option<Percent>,
    /// The elements behind the percent, joined by `*`.
    pub tail: Kept,
}

impl Allowance {
    pub fn try_copy(&self, alloc: Global) -> Result<Allowance, Memory>
        ensures { IfOk result (λ copy. copy ≡ self.now) }
    {
        Ok(Allowance {
            code: self.code.copy(),
            method: self.method.copy(),
            number: self.number.copy(),
            exception: self.exception.copy(),
            rate: self.rate,
            quantity: self.quantity,
            unit: self.unit.copy(),
            total: self.total,
            percent: self.percent,
            tail: self.tail.try_copy(alloc)?,
        })
    }
}

/// An allowance that stands apart from the list that it is in: so the other extras of a list are small.
#[derive(Debug, Drop)]
pub struct HeldAllowance {
    allowance: Box<Allowance>,
}

impl Model for HeldAllowance {
    ghost use Rattle.dsd_values.specs.declared.allowance.Allowance.{Allowance as Item};

    ghost Value = { Item };

    ghost view = { λ held. held.allowance.value };
}

impl HeldAllowance {
    pub fn new(alloc: Global, allowance: Allowance) -> Result<HeldAllowance, Memory>
        ensures { IfOk result (λ held. held ≡ allowance) }
    {
        let allowance = Box::new(alloc, allowance)?;
        Ok(HeldAllowance { allowance })
    }

    pub fn get(&self) -> &Allowance
        ensures { result.now ≡ self.now }
    {
        &self.allowance
    }

    pub fn try_copy(&self, alloc: Global) -> Result<HeldAllowance, Memory>
        ensures { IfOk result (λ copy. copy ≡ self.now) }
    {
        HeldAllowance::new(alloc, self.allowance.try_copy(alloc)?)
    }
}
