//! The base record of a delivery.

ghost use Rattle.std.specs.Prelude.{◌≡◌, ◌≤◌, IfOk, false, length, pos};
ghost use Rattle.dsd_pricing.specs.Pricing.{priced, quantities as sum_of_quantities, totals_of};
ghost use Rattle.dsd_values.specs.declared.limits.TheConstants.{MOST_LINES};
ghost use Rattle.transaction_set.specs.SoundLines.{AreSoundExtras, AreSoundLines};
ghost use Rattle.base_record_894.specs.BaseRecord.{amount_of as cents_of_rows};
ghost use Rattle.base_record_894.specs.Making.{record_made, unless_unpriced};
ghost use Rattle.base_record_894.specs.ReadParts.{record_of, seal_of};
ghost use Rattle.base_record_894.specs.RecordText.{IsBase};
ghost use Rattle.base_record_894.specs.WrittenText.{stated_totals};

use crate::head::{BaseHead, Head};
use crate::notes::Notes;
use crate::parts::Parts;
use dsd_pricing::{PriceFault, amount_of, quantities};
use dsd_values::{Cents, Day, DeliveryNumber, Extras, Flag, Kept, Lines, Memory, Signature, Word};
use std::alloc::Global;
use std::marker::Model;
use transaction_set::{Closed, Seal, StatedTotals};

/// What a supplier states of a delivery: a value that some text of a set 894 spells, however long its segments are.
#[derive(Debug, Drop)]
pub struct Base {
    head: Head,
    references: Notes,
    lines: Lines,
    extras: Extras,
    deposit: Option<Cents>,
    signature: Signature,
}

impl Model for Base {
    ghost use Rattle.base_record_894.specs.BaseRecord.{BaseRecord};
    ghost use Rattle.base_record_894.specs.RecordText.{IsBase};

    ghost Value = { BaseRecord };

    ghost view = { λ b. record { flag = b.head.flag; number = b.head.number; day = b.head.day; receiver_duns = b.head.receiver_duns; receiver_place = b.head.receiver_place; supplier_duns = b.head.supplier_duns; supplier_place = b.head.supplier_place; tail = b.head.tail; references = b.references; lines = b.lines; extras = b.extras; deposit = b.deposit; signature = b.signature } };

    ghost invariant = { λ b. IsBase (record { flag = b.head.flag; number = b.head.number; day = b.head.day; receiver_duns = b.head.receiver_duns; receiver_place = b.head.receiver_place; supplier_duns = b.head.supplier_duns; supplier_place = b.head.supplier_place; tail = b.head.tail; references = b.references; lines = b.lines; extras = b.extras; deposit = b.deposit; signature = b.signature }) };
}

/// The record and the seal of what was read.
pub fn seal_up(parts: Parts) -> (Base, Seal)
    requires { IsBase (record_of parts) }
    ensures base { result.0 ≡ record_of parts }
    ensures seal { result.1 ≡ seal_of parts }
{
    let Parts { head, closed } = parts;
    let Closed {
        control,
        references,
        lines,
        extras,
        totals,
        signature,
        check,
    } = closed;
    let base = Base {
        head,
        references: Notes::from_texts(references),
        lines,
        extras,
        deposit: totals.deposit,
        signature,
    };
    (base, Seal { control, check })
}

impl Base {
    /// The record of this head, these rows and this signature, where the rows have a price. Nothing stands behind its head, and it has no
    /// reference and no deposit.
    pub fn new(
        alloc: Global,
        head: BaseHead,
        lines: Lines,
        extras: Extras,
        signature: Signature,
    ) -> Result<Base, PriceFault>
        requires sound { AreSoundLines lines }
        requires few { length lines ≤ MOST_LINES }
        requires beside { AreSoundExtras false extras }
        ensures { result ≡ unless_unpriced (totals_of lines extras) (record_made head lines extras signature) }
    {
        // What a signature keeps is known once its mark is lent.
        let _ = signature.mark();
        match amount_of(lines.as_slice(), extras.as_slice()) {
            Ok(_) => Ok(Base {
                head: head.with_no_tail(),
                references: Notes::new(alloc),
                lines,
                extras,
                deposit: None,
                signature,
            }),
            Err(fault) => Err(fault),
        }
    }

    /// Whether the delivery is charged or credited.
    pub fn flag(&self) -> Flag
        ensures { result ≡ self.now.flag }
    {
        self.head.flag
    }

    pub fn number(&self) -> &DeliveryNumber
        ensures { result.now ≡ self.now.number }
    {
        &self.head.number
    }

    /// The day of the delivery.
    pub fn day(&self) -> Day
        ensures { result ≡ self.now.day }
    {
        self.head.day
    }

    /// The receiver's DUNS number.
    pub fn receiver_duns(&self) -> &Word
        ensures { result.now ≡ self.now.receiver_duns }
    {
        &self.head.receiver_duns
    }

    /// The receiver's place.
    pub fn receiver_place(&self) -> &Word
        ensures { result.now ≡ self.now.receiver_place }
    {
        &self.head.receiver_place
    }

    /// The supplier's DUNS number.
    pub fn supplier_duns(&self) -> &Word
        ensures { result.now ≡ self.now.supplier_duns }
    {
        &self.head.supplier_duns
    }

    /// The supplier's place.
    pub fn supplier_place(&self) -> &Word
        ensures { result.now ≡ self.now.supplier_place }
    {
        &self.head.supplier_place
    }

    /// The elements of the head behind the listed ones.
    pub fn tail(&self) -> &Kept
        ensures { result.now ≡ self.now.tail }
    {
        &self.head.tail
    }

    pub fn references(&self) -> &Notes
        ensures { result.now ≡ self.now.references }
    {
        &self.references
    }

    /// The sum of the quantities of the lines.
    pub fn quantity(&self) -> u32
        ensures { result ≡ sum_of_quantities self.now.lines }
    {
        quantities(self.lines.as_slice())
    }

    /// What the rows come to.
    pub fn amount(&self) -> Cents
        ensures value { result ≡ cents_of_rows self.now }
        ensures price { pos result ≡ priced self.now.lines self.now.extras }
    {
        match amount_of(self.lines.as_slice(), self.extras.as_slice()) {
            Ok(totals) => totals.amount,
            Err(_) => unreachable!(),
        }
    }

    /// The totals that it states.
    pub(crate) fn stated(&self) -> StatedTotals
        ensures value { result ≡ stated_totals self.now }
        ensures spelled { IsBase self.now }
    {
        StatedTotals {
            quantity: self.quantity(),
            amount: self.amount(),
            deposit: self.deposit,
        }
    }

    pub fn lines(&self) -> &Lines
        ensures { result.now ≡ self.now.lines }
    {
        &self.lines
    }

    /// What stands at the level of the record.
    pub fn extras(&self) -> &Extras
        ensures value { result.now ≡ self.now.extras }
        ensures spelled { IsBase self.now }
    {
        &self.extras
    }

    /// Carried, without effect on the amount.
    pub fn deposit(&self) -> Option<Cents>
        ensures { result ≡ self.now.deposit }
    {
        self.deposit
    }

    pub fn signature(&self) -> &Signature
        ensures { result.now ≡ self.now.signature }
    {
        &self.signature
    }

    /// An equal record.
    pub fn try_copy(&self, alloc: Global) -> Result<Base, Memory>
        ensures { IfOk result (λ copy. copy ≡ self.now) }
    {
        Ok(Base {
            head: self.head.try_copy(alloc)?,
            references: self.references.try_copy(alloc)?,
            lines: self.lines.try_copy(alloc)?,
            extras: self.extras.try_copy(alloc)?,
            deposit: self.deposit,
            signature: self.signature.copy(),
        })
    }
}
