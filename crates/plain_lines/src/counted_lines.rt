//! Counted lines under their numbers.

ghost use Rattle.std.specs.Prelude.{◌≡◌, ◌<◌, [], ◌∷◌, ◌++◌, false, length, OnOk};
ghost use Rattle.dsd_values.specs.declared.limits.TheConstants.{MOST_LINES as MOST};
ghost use Rattle.plain_lines.specs.Counting.{AreCounts, counted_under, counts_with, is_counted};
ghost use Rattle.plain_lines.specs.Refusing.{Steps};

use crate::counted::{Counted, read_counted};
use crate::line::PlainLine;
use crate::refusing::refuse;
use dsd_record::{DraftFault, DraftReason};
use dsd_values::{DsdNumber, MOST_LINES, Memory};
use indexmap::IndexMap;
use std::alloc::Global;
use std::marker::Model;

/// Counted lines in their order, no more than a delivery has lines, and no number twice.
#[derive(Debug, Drop)]
pub struct CountedLines {
    counts: IndexMap<DsdNumber, Counted>,
}

impl Model for CountedLines {
    ghost use Rattle.std.specs.Prelude.{◌≡◌, ◌≤◌, List, length};
    ghost use Rattle.indexmap.specs.IndexMap.{values};
    ghost use Rattle.dsd_values.specs.declared.limits.TheConstants.{MOST_LINES};
    ghost use Rattle.plain_lines.specs.Counting.{AreCounts, counts_numbered};
    ghost use Rattle.plain_lines.specs.declared.counted.Counted.{Counted as Item};

    ghost Value = { List Item };

    ghost view = { λ counts. values counts.counts };

    ghost invariant = { λ counts. (counts.counts.entries ≡ counts_numbered (values counts.counts)) × AreCounts (values counts.counts) };
}

impl CountedLines {
    pub fn new(alloc: Global) -> CountedLines
        ensures { result ≡ [] }
    {
        CountedLines {
            counts: IndexMap::new(alloc),
        }
    }

    /// The counted lines in their order.
    pub fn as_slice(&self) -> &[Counted]
        ensures value { result.now ≡ self.now }
        ensures counts { AreCounts self.now }
    {
        self.counts.values().as_slice()
    }

    /// What was counted under a number.
    pub fn get(&self, dsd: DsdNumber) -> Option<Counted>
        ensures { result ≡ counted_under dsd self.now }
    {
        self.counts.get(&dsd).copied()
    }

    /// Whether something was counted under a number.
    fn has(&self, dsd: DsdNumber) -> bool
        ensures { result ≡ is_counted dsd self.now }
    {
        self.get(dsd).is_some()
    }

    /// Takes one more line of a text.
    pub fn take_line(&mut self, line: &PlainLine<'_>) -> Result<(), DraftFault>
        ensures { Steps result self.new (counts_with self.old line.now) }
    {
        if self.counts.len() >= MOST_LINES {
            return Err(refuse(line, DraftReason::Limit));
        }
        let counted = read_counted(line)?;
        if self.has(counted.dsd) {
            return Err(refuse(line, DraftReason::Twice));
        }
        Ok(self.push(counted)?)
    }

    /// Adds one behind the others.
    fn push(&mut self, counted: Counted) -> Result<(), Memory>
        requires apart { is_counted counted.dsd self.old ≡ false }
        requires room { length self.old < MOST }
        ensures { OnOk result (self.new ≡ self.old ++ counted ∷ []) }
    {
        // What the types keep is known once their numbers are asked for.
        let _ = counted.dsd.get();
        let _ = counted.quantity.get();
        let _ = counted.cost.get();
        self.counts.insert(counted.dsd, counted)?;
        Ok(())
    }
}
