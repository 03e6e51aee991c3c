//! An answer applied to a version.

ghost use Rattle.std.specs.Prelude.{◌≡◌, ◌≢◌, [], All, Ok, OnErr, OnOk, true, false};
ghost use Rattle.adjustment_895.specs.Grammar.{has_none};
ghost use Rattle.dsd_values.specs.Answers.{UnlessMemory};
ghost use Rattle.transaction_set.specs.Extras.{AreExtras, HasExtras};
ghost use Rattle.dsd_record.specs.Applying.{Applies, Refuses, adjusted, applied, apply_fault, is_same_flag, lines_after, naming_fault, refused_by, rows_fault, totals_fault};
ghost use Rattle.dsd_record.specs.Chain.{GoesOn};
ghost use Rattle.dsd_record.specs.LineChanges.{numbered};
ghost use Rattle.dsd_record.specs.Naming.{answered_level};

use super::DsdRecord;
use crate::changes::shared_lines;
use crate::fault::ApplyFault;
use adjustment_895::Answer895;
use dsd_pricing::{Totals, quantities, sum_of};
use dsd_values::{Check, DsdNumber, Extra, Flag, Level, Line, MOST_LINES};
use indexmap::IndexMap;
use std::rc::Rc;

impl DsdRecord {
    /// Takes an answer, sealed with this integrity value. The lines of an adjustment take the places of those with their numbers or go last,
    /// and a quantity of 0 leaves its line. An acknowledgement changes nothing.
    pub fn apply(&mut self, answer: &Answer895, check: Check) -> Result<(), ApplyFault>
        // It is refused for its first fault, and changes the version as its lines say where it has none.
        ensures exact { Refuses result (apply_fault self.old answer.now) (λ _. self.new ≡ applied self.old answer.now check) }
        ensures applies { OnOk result (Applies self.old answer.now) }

        // One that applies is taken, unless memory runs out.
        ensures only { Applies self.old answer.now → UnlessMemory ApplyFault.Memory result (Ok tt) }
        ensures err { OnErr result (self.new ≡ self.old) }

        // The version of a chain of proposals is then that of the chain with this adjustment.
        ensures chain { answer.now.lines ≢ [] → OnOk result (GoesOn self.old self.new (record { answer = answer.now; check = check })) }
    {
        // What is stated is an amount that a price can be.
        let _ = answer.amount();
        self.apply_by_faults(answer, check)
    }

    /// Takes the answer, or refuses it for its first fault.
    fn apply_by_faults(&mut self, answer: &Answer895, check: Check) -> Result<(), ApplyFault>
        ensures exact { Refuses result (apply_fault self.old answer.now) (λ _. self.new ≡ applied self.old answer.now check) }
        ensures err { OnErr result (self.new ≡ self.old) }
    {
        self.check_names(answer)?;
        if answer.is_acknowledgement() {
            return self.check_kept(answer);
        }
        let after = self.changed(answer)?;
        self.take(after, answer, check);
        Ok(())
    }

    /// Refuses an answer that does not name the proposal that made this version.
    fn check_names(&self, answer: &Answer895) -> Result<(), ApplyFault>
        ensures { result ≡ refused_by (naming_fault self.now answer.now) }
    {
        if !same_flag(answer.flag(), self.flag)
            || answer.number().as_slice() != self.number.as_slice()
        {
            return Err(ApplyFault::WrongDelivery);
        }
        let (kept, said) = (self.level, answer.level());
        if said.get() != level_of_answer(answer, kept) {
            return Err(ApplyFault::WrongLevel { kept, said });
        }
        let (kept, said) = (self.check, answer.check());
        if said != kept {
            return Err(ApplyFault::WrongCheck { kept, said });
        }
        Ok(())
    }

    /// Refuses an acknowledgement that states other totals than the kept ones.
    fn check_kept(&self, answer: &Answer895) -> Result<(), ApplyFault>
        requires { has_none answer.now.lines ≡ true }
        ensures { result ≡ refused_by (rows_fault answer.now (lines_after self.now answer.now) self.now.extras) }
    {
        let Totals { quantity, amount } = self.totals;
        compare(answer, quantity, i128::from(amount.get()))
    }

    /// The lines behind an adjustment, which states what they come to.
    fn changed(&self, answer: &Answer895) -> Result<Rc<IndexMap<DsdNumber, Line>>, ApplyFault>
        ensures { Refuses result (rows_fault answer.now (lines_after self.now answer.now) self.now.extras) (λ after. after.value.entries ≡ numbered (lines_after self.now answer.now)) }
    {
        let before = self.lines();
        let after = shared_lines(*before.allocator(), before, answer.lines())?;
        check_rows(
            answer,
            after.as_ref().values().as_slice(),
            self.extras().as_slice(),
        )?;
        Ok(after)
    }

    /// Makes this the version with these lines.
    fn take(&mut self, after: Rc<IndexMap<DsdNumber, Line>>, answer: &Answer895, check: Check)
        requires lines { after.value.entries ≡ numbered (lines_after self.old answer.now) }
        requires applies { Applies self.old answer.now }
        ensures { self.new ≡ adjusted self.old answer.now check }
    {
        // What the answer spells makes its lines right.
        let _ = answer.lines();
        self.lines = after;
        self.totals = Totals {
            quantity: answer.quantity(),
            amount: answer.amount(),
        };
        self.level = answer.level();
        self.check = check;
    }
}

fn same_flag(a: Flag, b: Flag) -> bool
    ensures { result ≡ is_same_flag a b }
{
    a == b
}

/// The level that an answer of this form to a proposal of this level states.
fn level_of_answer(answer: &Answer895, kept: Level) -> u8
    ensures { result ≡ answered_level answer.now.lines kept }
{
    if answer.is_acknowledgement() {
        kept.get()
    } else {
        kept.get() + 1
    }
}

/// Refuses rows that are too many, or that do not come to what the answer states.
fn check_rows(answer: &Answer895, lines: &[Line], extras: &[Extra]) -> Result<(), ApplyFault>
    requires behind { All HasExtras lines.now }
    requires beside { AreExtras false extras.now }
    ensures { result ≡ refused_by (rows_fault answer.now lines.now extras.now) }
{
    if lines.len() > MOST_LINES {
        return Err(ApplyFault::Limit(lines.len()));
    }
    compare(answer, quantities(lines), sum_of(lines, extras))
}

/// Refuses totals that are not these, the quantity first.
fn compare(answer: &Answer895, quantity: u32, sum: i128) -> Result<(), ApplyFault>
    ensures { result ≡ refused_by (totals_fault answer.now quantity sum) }
{
    if answer.quantity() != quantity {
        return Err(ApplyFault::TotalsDiffer {
            said: u64::from(answer.quantity()),
            computed: i128::from(quantity),
        });
    }
    let said = answer.amount().get();
    if i128::from(said) != sum {
        return Err(ApplyFault::TotalsDiffer {
            said,
            computed: sum,
        });
    }
    Ok(())
}
