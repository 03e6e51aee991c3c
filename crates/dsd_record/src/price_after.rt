//! What a version would come to with changes.

ghost use Rattle.std.specs.Prelude.{◌≡◌, ◌≤◌, All, IfErr, IfOk, OnOk, false, length};
ghost use Rattle.dsd_values.specs.Answers.{UnlessMemory};
ghost use Rattle.dsd_values.specs.declared.limits.TheConstants.{MOST_LINES as MOST};
ghost use Rattle.dsd_values.specs.declared.quantity.TheConstants.{MOST_TOTAL_QUANTITY};
ghost use Rattle.transaction_set.specs.Extras.{AreExtras, HasExtras};
ghost use Rattle.dsd_record.specs.ChangedPrice.{IsPriceAfter, IsRefused, price_with, totals_within};
ghost use Rattle.transaction_set.specs.SoundLines.{AreSoundLines};
ghost use Rattle.dsd_record.specs.declared.price_after.ChangeFault.TheVariants.{Memory as WantOfMemory};

use crate::changes::changed_lines;
use crate::record::DsdRecord;
use dsd_pricing::{PriceFault, Totals, amount_of};
use dsd_values::{Extra, Line, Lines, MOST_LINES, Memory};
use std::alloc::Global;
use thiserror::Error;

/// Why changes have no price, tried in the order of the variants.
#[derive(Clone, Copy, Debug, PartialEq, Eq, Error)]
pub enum ChangeFault {
    /// So many lines would stand.
    #[error("{0} lines are too many")]
    Limit(usize),
    /// The lines would have no price.
    #[error("{0}")]
    Price(PriceFault),
    /// There was no memory.
    #[error("no memory")]
    Memory,
}

impl From<Memory> for ChangeFault {
    ghost from_gives = { λ _ fault. fault ≡ WantOfMemory };

    fn from(_memory: Memory) -> ChangeFault {
        ChangeFault::Memory
    }
}

impl DsdRecord {
    /// The totals that its rows would have with each of these lines in the place of the one with its number, or last.
    pub fn price_after(&self, alloc: Global, changes: &Lines) -> Result<Totals, ChangeFault>
        requires sound { AreSoundLines changes.now }
        ensures exact { UnlessMemory ChangeFault.Memory result (price_with self.now changes.now) }

        // What is answered, and what is refused, in the words of each.
        ensures found { IfOk result (IsPriceAfter self.now changes.now) }
        ensures refused { IfErr result (IsRefused self.now changes.now) }

        // An answer may state these lines and totals.
        ensures few { OnOk result (length changes.now ≤ MOST) }
        ensures small { IfOk result (λ totals. totals.quantity ≤ MOST_TOTAL_QUANTITY) }
    {
        // What a version keeps makes its lines sound.
        let _ = self.lines();
        self.totals_after(alloc, changes)
    }

    /// The same by the lines that then stand.
    fn totals_after(&self, alloc: Global, changes: &Lines) -> Result<Totals, ChangeFault>
        requires sound { AreSoundLines changes.now }
        ensures { UnlessMemory ChangeFault.Memory result (price_with self.now changes.now) }
    {
        let after = changed_lines(alloc, self.lines(), changes)?;
        totals_in(after.values().as_slice(), self.extras().as_slice())
    }
}

/// The totals of these rows, where they are not too many.
fn totals_in(lines: &[Line], extras: &[Extra]) -> Result<Totals, ChangeFault>
    requires behind { All HasExtras lines.now }
    requires beside { AreExtras false extras.now }
    ensures { result ≡ totals_within lines.now extras.now }
{
    if lines.len() > MOST_LINES {
        return Err(ChangeFault::Limit(lines.len()));
    }
    match amount_of(lines, extras) {
        Ok(totals) => Ok(totals),
        Err(fault) => Err(ChangeFault::Price(fault)),
    }
}
