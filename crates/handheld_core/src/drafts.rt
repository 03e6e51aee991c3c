//! The drafts of a supplier.

ghost use Rattle.std.specs.Prelude.{◌≡◌, ◌<◌, ◌↔◌, length, slice_get, IfOk, IsSome};
ghost use Rattle.std.specs.Option.{option_copied};
ghost use Rattle.handheld_core.specs.DraftTexts.{AreDrafts, draft_under};

use crate::draft::Draft;
use crate::draft_list::DraftList;
use dsd_values::{DeliveryNumber, Memory};
use std::alloc::Global;
use std::marker::Model;
use std::rc::Rc;

/// The most drafts of a text.
pub const MOST_DRAFTS: usize = 200;

/// What a supplier proposes, delivery by delivery. Copies share it.
#[derive(Debug, Drop)]
pub struct Drafts {
    list: Rc<DraftList>,
}

impl Model for Drafts {
    ghost use Rattle.std.specs.Prelude.{List};
    ghost use Rattle.handheld_core.specs.declared.draft.Draft.{Draft as Item};

    ghost Value = { List Item };

    ghost view = { λ drafts. drafts.list.value };
}

impl Drafts {
    /// Drafts that copies share from now on.
    pub(crate) fn share(alloc: Global, list: DraftList) -> Result<Drafts, Memory>
        ensures { IfOk result (λ drafts. drafts ≡ list) }
    {
        Ok(Drafts {
            list: Rc::new(alloc, list)?,
        })
    }

    fn list(&self) -> &DraftList
        ensures { result.now ≡ self.now }
    {
        self.list.as_ref()
    }

    pub(crate) fn len(&self) -> usize
        ensures value { result ≡ length self.now }
        ensures drafts { AreDrafts self.now }
    {
        self.list().len()
    }

    /// The draft at a place, the first at 0.
    pub(crate) fn draft_at(&self, index: usize) -> Option<&Draft>
        ensures found { IsSome result ↔ (index < length self.now) }
        ensures value { option_copied result ≡ slice_get self.now index }
    {
        self.list().draft_at(index)
    }

    /// The draft of the delivery with this number.
    pub fn draft_of(&self, number: &DeliveryNumber) -> Option<&Draft>
        ensures { option_copied result ≡ draft_under number.now self.now }
    {
        self.list().draft_of(number)
    }

    /// The same drafts, shared.
    pub fn try_clone(&self) -> Result<Drafts, Memory>
        ensures { IfOk result (λ shared. shared ≡ self.now) }
    {
        Ok(Drafts {
            list: self.list.clone()?,
        })
    }
}
