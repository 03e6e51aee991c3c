//! Drafts in their order, under the numbers of their deliveries.

ghost use Rattle.std.specs.Prelude.{◌≡◌, ◌<◌, ◌≤◌, ◌↔◌, [], ◌∷◌, ◌++◌, false, length, slice_get, IsSome, OnOk};
ghost use Rattle.std.specs.Option.{option_copied};
ghost use Rattle.handheld_core.specs.DraftTexts.{AreDrafts, draft_under, is_known};
ghost use Rattle.handheld_core.specs.declared.drafts.TheConstants.{MOST_DRAFTS as MOST};

use crate::draft::Draft;
use dsd_values::{DeliveryNumber, Memory};
use indexmap::IndexMap;
use std::alloc::Global;
use std::marker::Model;

/// Drafts, no more than a text may have, and no delivery drafted twice.
#[derive(Debug, Drop)]
pub(crate) struct DraftList {
    drafts: IndexMap<DeliveryNumber, Draft>,
}

impl Model for DraftList {
    ghost use Rattle.std.specs.Prelude.{◌≡◌, List};
    ghost use Rattle.indexmap.specs.IndexMap.{values};
    ghost use Rattle.handheld_core.specs.DraftTexts.{AreDrafts, numbered};
    ghost use Rattle.handheld_core.specs.declared.draft.Draft.{Draft as Item};

    ghost Value = { List Item };

    ghost view = { λ drafts. values drafts.drafts };

    ghost invariant = { λ drafts. (drafts.drafts.entries ≡ numbered (values drafts.drafts)) × AreDrafts (values drafts.drafts) };
}

impl DraftList {
    pub(crate) fn new(alloc: Global) -> DraftList
        ensures { result ≡ [] }
    {
        DraftList {
            drafts: IndexMap::new(alloc),
        }
    }

    pub(crate) fn len(&self) -> usize
        ensures value { result ≡ length self.now }
        ensures drafts { AreDrafts self.now }
    {
        self.drafts.len()
    }

    /// The draft at a place, the first at 0.
    pub(crate) fn draft_at(&self, index: usize) -> Option<&Draft>
        ensures found { IsSome result ↔ (index < length self.now) }
        ensures value { option_copied result ≡ slice_get self.now index }
    {
        let (_, draft) = self.drafts.get_index(index)?;
        Some(draft)
    }

    /// The draft of the delivery with this number.
    pub(crate) fn draft_of(&self, number: &DeliveryNumber) -> Option<&Draft>
        ensures { option_copied result ≡ draft_under number.now self.now }
    {
        self.drafts.get(number)
    }

    /// Whether there is a draft of the delivery with this number.
    pub(crate) fn knows(&self, number: &DeliveryNumber) -> bool
        ensures { result ≡ is_known number.now self.now }
    {
        self.draft_of(number).is_some()
    }

    /// Adds one behind the others.
    pub(crate) fn push(&mut self, draft: Draft) -> Result<(), Memory>
        requires apart { is_known draft.base.number self.old ≡ false }
        requires room { length self.old < MOST }
        ensures { OnOk result (self.new ≡ self.old ++ draft ∷ []) }
    {
        // Some text spells the base record, and the counters keep their numbers apart.
        let _ = draft.base.extras();
        let _ = draft.counters.as_slice();
        self.drafts.insert(draft.base.number().copy(), draft)?;
        Ok(())
    }
}
