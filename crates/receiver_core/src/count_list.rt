//! Counts in their order, under the numbers of their deliveries.

ghost use Rattle.std.specs.Prelude.{◌≡◌, ◌<◌, ◌≤◌, [], ◌∷◌, ◌++◌, false, length, OnOk};
ghost use Rattle.std.specs.Option.{option_copied};
ghost use Rattle.receiver_core.specs.CountTexts.{AreCounts, count_under, is_known};
ghost use Rattle.receiver_core.specs.declared.counts.TheConstants.{MOST_COUNTS as MOST};

use crate::count::Count;
use dsd_values::{DeliveryNumber, Memory};
use indexmap::IndexMap;
use std::alloc::Global;
use std::marker::Model;

/// Counts, no more than a text may have, and no delivery counted twice.
#[derive(Debug, Drop)]
pub(crate) struct CountList {
    counts: IndexMap<DeliveryNumber, Count>,
}

impl Model for CountList {
    ghost use Rattle.std.specs.Prelude.{◌≡◌, List};
    ghost use Rattle.indexmap.specs.IndexMap.{values};
    ghost use Rattle.receiver_core.specs.CountTexts.{AreCounts, numbered};
    ghost use Rattle.receiver_core.specs.declared.count.Count.{Count as Item};

    ghost Value = { List Item };

    ghost view = { λ counts. values counts.counts };

    ghost invariant = { λ counts. (counts.counts.entries ≡ numbered (values counts.counts)) × AreCounts (values counts.counts) };
}

impl CountList {
    pub(crate) fn new(alloc: Global) -> CountList
        ensures { result ≡ [] }
    {
        CountList {
            counts: IndexMap::new(alloc),
        }
    }

    pub(crate) fn len(&self) -> usize
        ensures value { result ≡ length self.now }
        ensures counts { AreCounts self.now }
    {
        self.counts.len()
    }

    /// What was counted of the delivery with this number.
    pub(crate) fn count_of(&self, number: &DeliveryNumber) -> Option<&Count>
        ensures { option_copied result ≡ count_under number.now self.now }
    {
        self.counts.get(number)
    }

    /// Whether something was counted of the delivery with this number.
    pub(crate) fn knows(&self, number: &DeliveryNumber) -> bool
        ensures { result ≡ is_known number.now self.now }
    {
        self.count_of(number).is_some()
    }

    /// Adds one behind the others.
    pub(crate) fn push(&mut self, count: Count) -> Result<(), Memory>
        requires apart { is_known count.number self.old ≡ false }
        requires room { length self.old < MOST }
        ensures { OnOk result (self.new ≡ self.old ++ count ∷ []) }
    {
        // What was counted keeps its numbers apart.
        let _ = count.lines.as_slice();
        self.counts.insert(count.number.copy(), count)?;
        Ok(())
    }
}
