//! An answer to a delivery.

ghost use Rattle.std.specs.Prelude.{◌≡◌, ◌≤◌, IfOk, None, Some, MatchOption, length};
ghost use Rattle.dsd_values.specs.declared.limits.TheConstants.{MOST_LINES};
ghost use Rattle.dsd_values.specs.declared.quantity.TheConstants.{MOST_TOTAL_QUANTITY};
ghost use Rattle.transaction_set.specs.SoundLines.{AreSoundLines};
ghost use Rattle.adjustment_895.specs.Grammar.{IsLevelled, has_none, notes as texts_of};
ghost use Rattle.adjustment_895.specs.Making.{answer_made};
ghost use Rattle.adjustment_895.specs.ReadParts.{answer_of, first_note as first_of, seal_of};
ghost use Rattle.adjustment_895.specs.AnswerText.{IsAnswer};
ghost use Rattle.adjustment_895.specs.WrittenText.{stated_totals};

use crate::head::AnswerHead;
use crate::parts::Parts;
use dsd_pricing::Totals;
use dsd_values::{
    Cents, Check, DeliveryNumber, Flag, Kept, Level, Lines, Memory, Role, Signature, Word,
};
use std::alloc::Global;
use std::marker::Model;
use transaction_set::{Closed, Seal, StatedTotals};

/// An acknowledgement, or an adjustment with its lines: a value that some text of a set 895 spells, however long its segments are.
#[derive(Debug, Drop)]
pub struct Answer895 {
    head: AnswerHead,
    note: Option<Kept>,
    lines: Lines,
    totals: StatedTotals,
    signature: Signature,
}

impl Model for Answer895 {
    ghost use Rattle.adjustment_895.specs.AnswerRecord.{AnswerRecord};
    ghost use Rattle.adjustment_895.specs.AnswerText.{IsAnswer};

    ghost Value = { AnswerRecord };

    ghost view = { λ a. record { role = a.head.role; flag = a.head.flag; number = a.head.number; check = a.head.check; level = a.head.level; receiver_number = a.head.receiver_number; note = a.note; lines = a.lines; quantity = a.totals.quantity; amount = a.totals.amount; deposit = a.totals.deposit; signature = a.signature } };

    ghost invariant = { λ a. IsAnswer (record { role = a.head.role; flag = a.head.flag; number = a.head.number; check = a.head.check; level = a.head.level; receiver_number = a.head.receiver_number; note = a.note; lines = a.lines; quantity = a.totals.quantity; amount = a.totals.amount; deposit = a.totals.deposit; signature = a.signature }) };
}

/// The answer and the seal of what was read.
pub fn seal_up(parts: Parts) -> (Answer895, Seal)
    requires { IsAnswer (answer_of parts) }
    ensures answer { result.0 ≡ answer_of parts }
    ensures seal { result.1 ≡ seal_of parts }
{
    let Parts { head, closed } = parts;
    let Closed {
        control,
        references,
        lines,
        totals,
        signature,
        check,
        ..
    } = closed;
    let answer = Answer895 {
        head,
        note: first_note(references),
        lines,
        totals,
        signature,
    };
    (answer, Seal { control, check })
}

/// The first of these texts.
fn first_note(texts: Vec<Kept>) -> Option<Kept>
    ensures { result ≡ first_of texts.items }
{
    texts.into_iter().next()
}

impl Answer895 {
    /// The answer of this head, these lines and totals, and this signature. It has no note and no deposit.
    pub fn new(head: AnswerHead, lines: Lines, totals: Totals, signature: Signature) -> Answer895
        requires sound { AreSoundLines lines }
        requires few { length lines ≤ MOST_LINES }
        requires levelled { IsLevelled lines head.level }
        requires quantity { totals.quantity ≤ MOST_TOTAL_QUANTITY }
        ensures { result ≡ answer_made head lines totals signature }
    {
        // What the types keep is known once their values are lent.
        let _ = head.number.as_slice();
        let _ = head.check.get();
        let _ = head.level.get();
        let _ = head.receiver_number.as_slice();
        let _ = totals.amount.get();
        let _ = signature.mark();
        let Totals { quantity, amount } = totals;
        Answer895 {
            head,
            note: None,
            lines,
            totals: StatedTotals {
                quantity,
                amount,
                deposit: None,
            },
            signature,
        }
    }

    /// Who signs.
    pub fn role(&self) -> Role
        ensures { result ≡ self.now.role }
    {
        self.head.role
    }

    /// Whether the delivery is charged or credited.
    pub fn flag(&self) -> Flag
        ensures { result ≡ self.now.flag }
    {
        self.head.flag
    }

    pub fn number(&self) -> &DeliveryNumber
        ensures { result.now ≡ self.now.number }
    {
        &self.head.number
    }

    /// The integrity value of the set that is answered.
    pub fn check(&self) -> Check
        ensures { result ≡ self.now.check }
    {
        self.head.check
    }

    /// Of an adjustment its own level, of an acknowledgement the accepted one.
    pub fn level(&self) -> Level
        ensures { result ≡ self.now.level }
    {
        self.head.level
    }

    /// The receiver's number.
    pub fn receiver_number(&self) -> &Word
        ensures { result.now ≡ self.now.receiver_number }
    {
        &self.head.receiver_number
    }

    /// Whether it accepts a version: whether it has no lines.
    pub fn is_acknowledgement(&self) -> bool
        ensures { result ≡ has_none self.now.lines }
    {
        self.lines.as_slice().is_empty()
    }

    /// The note of the head, as it is kept.
    pub fn note(&self) -> Option<&Kept>
        ensures { MatchOption result (self.now.note ≡ None) (λ text. self.now.note ≡ Some text.now) }
    {
        self.note.as_ref()
    }

    /// The note of the head, or nothing.
    pub(crate) fn notes(&self) -> &[Kept]
        ensures { result.now ≡ texts_of self.now.note }
    {
        self.note.as_slice()
    }

    pub fn lines(&self) -> &Lines
        ensures value { result.now ≡ self.now.lines }
        ensures spelled { IsAnswer self.now }
    {
        &self.lines
    }

    /// The sum of the quantities as it is stated.
    pub fn quantity(&self) -> u32
        ensures { result ≡ self.now.quantity }
    {
        self.totals.quantity
    }

    /// The amount as it is stated.
    pub fn amount(&self) -> Cents
        ensures { result ≡ self.now.amount }
    {
        self.totals.amount
    }

    /// The totals that it states.
    pub(crate) fn stated(&self) -> StatedTotals
        ensures value { result ≡ stated_totals self.now }
        ensures spelled { IsAnswer self.now }
    {
        self.totals
    }

    /// Carried, without effect on the amount.
    pub fn deposit(&self) -> Option<Cents>
        ensures { result ≡ self.now.deposit }
    {
        self.totals.deposit
    }

    pub fn signature(&self) -> &Signature
        ensures { result.now ≡ self.now.signature }
    {
        &self.signature
    }

    /// An equal answer.
    pub fn try_copy(&self, alloc: Global) -> Result<Answer895, Memory>
        ensures { IfOk result (λ copy. copy ≡ self.now) }
    {
        Ok(Answer895 {
            head: self.head.copy(),
            note: copy_note(alloc, &self.note)?,
            lines: self.lines.try_copy(alloc)?,
            totals: self.totals,
            signature: self.signature.copy(),
        })
    }
}

fn copy_note(alloc: Global, note: &Option<Kept>) -> Result<Option<Kept>, Memory>
    ensures { IfOk result (λ copy. copy ≡ note.now) }
{
    match note {
        Some(text) => Ok(Some(text.try_copy(alloc)?)),
        None => Ok(None),
    }
}
