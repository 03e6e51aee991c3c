//! Lists of kept texts.

ghost use Rattle.std.specs.Prelude.{◌≡◌, [], ◌∷◌, ◌++◌, IfOk, OnOk, OnErr};

use dsd_values::{Kept, Memory};
use std::alloc::Global;
use std::marker::Model;

/// The references of a base record, each an N9 as it is kept.
#[derive(Debug, Drop)]
pub struct Notes {
    items: Vec<Kept>,
}

impl Model for Notes {
    ghost use Rattle.std.specs.Prelude.{List, ℕ};

    ghost Value = { List (List ℕ) };

    ghost view = { λ n. n.items.items };
}

impl Notes {
    pub(crate) fn new(alloc: Global) -> Self
        ensures { result ≡ [] }
    {
        Notes {
            items: Vec::new(alloc),
        }
    }

    /// The notes of these texts.
    pub(crate) fn from_texts(items: Vec<Kept>) -> Notes
        ensures { result ≡ items.items }
    {
        Notes { items }
    }

    fn push(&mut self, item: Kept) -> Result<(), Memory>
        ensures ok { OnOk result (self.new ≡ self.old ++ item ∷ []) }
        ensures err { OnErr result (self.new ≡ self.old) }
    {
        self.items.push(item)?;
        Ok(())
    }

    pub fn as_slice(&self) -> &[Kept]
        ensures { result.now ≡ self.now }
    {
        self.items.as_slice()
    }

    /// An equal list.
    pub fn try_copy(&self, alloc: Global) -> Result<Notes, Memory>
        ensures { IfOk result (λ copy. copy ≡ self.now) }
    {
        let mut copy = Notes::new(alloc);
        for item in self.items.iter() {
            copy.push(item.try_copy(alloc)?)?;
        }
        Ok(copy)
    }
}
