//! The rows of a draft.

ghost use Rattle.std.specs.Prelude.{◌≡◌, ◌<◌, ◌≤◌, false, length, OnOk, [], ◌∷◌, ◌++◌};
ghost use Rattle.dsd_values.specs.declared.limits.TheConstants.{MOST_ALLOWANCES as MOST_BESIDE, MOST_LINES as MOST};
ghost use Rattle.transaction_set.specs.Reasons.{has_line, last_extras};
ghost use Rattle.transaction_set.specs.SoundLines.{AreSoundExtras, AreSoundLines, IsPlainAllowance, IsPlainLine};
ghost use Rattle.plain_lines.specs.Refusing.{Steps};
ghost use Rattle.handheld_core.specs.DraftRows.{AreRows, allowed, beside, with_allowance, with_item};

use crate::allowance::read_allowance;
use crate::item::read_item;
use dsd_record::{DraftFault, DraftReason};
use dsd_values::{
    Allowance, DsdNumber, Extra, Extras, HeldAllowance, Line, Lines, MOST_ALLOWANCES, MOST_LINES,
    Memory,
};
use plain_lines::{PlainLine, refuse};
use std::alloc::Global;
use std::marker::Model;

/// Items with their allowances, and the allowances of the record.
#[derive(Debug, Drop)]
pub(crate) struct DraftRows {
    extras: Extras,
    lines: Lines,
}

impl Model for DraftRows {
    ghost use Rattle.handheld_core.specs.DraftRows.{AreRows, Rows};

    ghost Value = { Rows };

    ghost view = { λ rows. record { extras = rows.extras; lines = rows.lines } };

    ghost invariant = { λ rows. AreRows (record { extras = rows.extras; lines = rows.lines }) };
}

impl DraftRows {
    pub(crate) fn new(alloc: Global) -> DraftRows
        ensures { result ≡ record { extras = []; lines = [] } }
    {
        DraftRows {
            extras: Extras::new(alloc),
            lines: Lines::new(alloc),
        }
    }

    /// Takes a line that says an item.
    pub(crate) fn take_item(
        &mut self,
        alloc: Global,
        line: &PlainLine<'_>,
    ) -> Result<(), DraftFault>
        ensures { Steps result self.new (with_item self.old line.now) }
    {
        if self.len() >= MOST_LINES {
            return Err(refuse(line, DraftReason::Limit));
        }
        let item = read_item(alloc, line)?;
        if self.has(item.dsd) {
            return Err(refuse(line, DraftReason::Twice));
        }
        match self.push_item(item) {
            Ok(()) => Ok(()),
            Err(_) => Err(DraftFault::Memory),
        }
    }

    /// Takes a line that says an allowance, behind the last item or at the level of the record.
    pub(crate) fn take_allowance(
        &mut self,
        alloc: Global,
        in_line: bool,
        line: &PlainLine<'_>,
    ) -> Result<(), DraftFault>
        ensures { Steps result self.new (with_allowance in_line self.old line.now) }
    {
        if self.beside(in_line) >= MOST_ALLOWANCES {
            return Err(refuse(line, DraftReason::Limit));
        }
        let allowance = read_allowance(in_line, line)?;
        match self.push_allowance(alloc, in_line, allowance) {
            Ok(()) => Ok(()),
            Err(_) => Err(DraftFault::Memory),
        }
    }

    /// How many items there are.
    fn len(&self) -> usize
        ensures value { result ≡ length self.now.lines }
        ensures rows { AreRows self.now }
    {
        self.lines.as_slice().len()
    }

    /// Whether an item has this number.
    fn has(&self, dsd: DsdNumber) -> bool
        ensures { result ≡ has_line dsd self.now.lines }
    {
        has_number(self.lines.as_slice(), dsd)
    }

    /// How many allowances one more would stand beside.
    fn beside(&self, in_line: bool) -> usize
        ensures { result ≡ length (beside in_line self.now) }
    {
        if in_line {
            last_count(self.lines.as_slice())
        } else {
            self.extras.as_slice().len()
        }
    }

    /// Adds an item behind which nothing stands yet.
    fn push_item(&mut self, item: Line) -> Result<(), Memory>
        requires plain { IsPlainLine item }
        requires bare { item.extras ≡ [] }
        requires apart { has_line item.dsd self.old.lines ≡ false }
        requires room { length self.old.lines < MOST }
        ensures { OnOk result (self.new ≡ record self.old { lines = self.old.lines ++ item ∷ [] }) }
    {
        self.lines.push(item)
    }

    /// Adds an allowance behind the last item, or at the level of the record.
    fn push_allowance(
        &mut self,
        alloc: Global,
        in_line: bool,
        allowance: Allowance,
    ) -> Result<(), Memory>
        requires plain { IsPlainAllowance in_line allowance }
        requires room { length (beside in_line self.old) < MOST_BESIDE }
        ensures { OnOk result (self.new ≡ allowed in_line self.old allowance) }
    {
        let extra = Extra::Allow(HeldAllowance::new(alloc, allowance)?);
        if in_line {
            self.lines.push_extra(extra)
        } else {
            self.extras.push(extra)
        }
    }

    /// The extras of the record and the lines.
    pub(crate) fn into_parts(self) -> (Extras, Lines)
        ensures extras { result.0 ≡ self.extras }
        ensures lines { result.1 ≡ self.lines }
        ensures beside { AreSoundExtras false self.extras }
        ensures sound { AreSoundLines self.lines }
        ensures few { length self.lines ≤ MOST }
    {
        (self.extras, self.lines)
    }
}

/// Whether one of these lines has this number.
fn has_number(lines: &[Line], dsd: DsdNumber) -> bool
    ensures { result ≡ has_line dsd lines.now }
{
    lines.iter().any(|line| line.dsd == dsd)
}

/// How many extras stand behind the last line.
#[tactic(auto, using(transaction_set::proofs::Behind::last_extras_last))]
fn last_count(lines: &[Line]) -> usize
    ensures { result ≡ length (last_extras lines.now) }
{
    match lines.split_last() {
        Some((line, _)) => line.extras.as_slice().len(),
        None => 0,
    }
}
