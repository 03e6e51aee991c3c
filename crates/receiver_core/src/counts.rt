//! The counts of a receiver.

ghost use Rattle.std.specs.Prelude.{◌≡◌, length, IfOk};
ghost use Rattle.std.specs.Option.{option_copied};
ghost use Rattle.receiver_core.specs.CountTexts.{AreCounts, count_under};

use crate::count::Count;
use crate::count_list::CountList;
use dsd_values::{DeliveryNumber, Memory};
use std::alloc::Global;
use std::marker::Model;
use std::rc::Rc;

/// The most counts of a text.
pub const MOST_COUNTS: usize = 200;

/// What was counted, delivery by delivery. Copies share it.
#[derive(Debug, Drop)]
pub struct Counts {
    list: Rc<CountList>,
}

impl Model for Counts {
    ghost use Rattle.std.specs.Prelude.{List};
    ghost use Rattle.receiver_core.specs.declared.count.Count.{Count as Item};

    ghost Value = { List Item };

    ghost view = { λ counts. counts.list.value };
}

impl Counts {
    /// Counts that copies share from now on.
    pub(crate) fn share(alloc: Global, list: CountList) -> Result<Counts, Memory>
        ensures { IfOk result (λ counts. counts ≡ list) }
    {
        Ok(Counts {
            list: Rc::new(alloc, list)?,
        })
    }

    fn list(&self) -> &CountList
        ensures { result.now ≡ self.now }
    {
        self.list.as_ref()
    }

    pub(crate) fn len(&self) -> usize
        ensures value { result ≡ length self.now }
        ensures counts { AreCounts self.now }
    {
        self.list().len()
    }

    /// What was counted of the delivery with this number.
    pub fn count_of(&self, number: &DeliveryNumber) -> Option<&Count>
        ensures { option_copied result ≡ count_under number.now self.now }
    {
        self.list().count_of(number)
    }

    /// The same counts, shared.
    pub fn try_clone(&self) -> Result<Counts, Memory>
        ensures { IfOk result (λ shared. shared ≡ self.now) }
    {
        Ok(Counts {
            list: self.list.clone()?,
        })
    }
}
