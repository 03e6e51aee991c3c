//! What follows a line, or stands at record level.

ghost use Rattle.std.specs.Prelude.{◌≡◌, [], ◌∷◌, ◌++◌, IfOk, OnErr, OnOk};

use crate::allowance::HeldAllowance;
use crate::fault::Memory;
use crate::kept::Kept;
use std::alloc::Global;
use std::marker::Model;

/// An allowance, or a note that changes no price.
#[derive(Debug, Drop)]
pub enum Extra {
    Allow(HeldAllowance),
    /// The id and the elements of the note's segment, joined by `*`.
    Note(Kept),
}

impl Extra {
    pub fn try_copy(&self, alloc: Global) -> Result<Extra, Memory>
        ensures { IfOk result (λ copy. copy ≡ self.now) }
    {
        match self {
            Extra::Allow(allowance) => Ok(Extra::Allow(allowance.try_copy(alloc)?)),
            Extra::Note(note) => Ok(Extra::Note(note.try_copy(alloc)?)),
        }
    }
}

/// How many extras a list has room for once it has one.
const FIRST_ROOM: usize = 8;

/// A list of extras.
#[derive(Debug, Drop)]
pub struct Extras {
    items: Vec<Extra>,
}

impl Model for Extras {
    ghost use Rattle.std.specs.Prelude.{List};
    ghost use Rattle.dsd_values.specs.declared.extra.Extra.{Extra as Item};

    ghost Value = { List Item };

    ghost view = { λ extras. extras.items.items };
}

impl Extras {
    pub fn new(alloc: Global) -> Extras
        ensures { result ≡ [] }
    {
        Extras {
            items: Vec::new(alloc),
        }
    }

    // Inlined, as each call around it is: so an extra is written once, in its place.
    #[inline(always)]
    pub fn push(&mut self, item: Extra) -> Result<(), Memory>
        ensures ok { OnOk result (self.new ≡ self.old ++ item ∷ []) }
        ensures err { OnErr result (self.new ≡ self.old) }
    {
        // An extra is seldom alone: where lists grew by steps, the first few would be moved.
        if self.items.is_empty() {
            self.items.reserve(FIRST_ROOM)?;
        }
        self.items.push(item)?;
        Ok(())
    }

    pub fn as_slice(&self) -> &[Extra]
        ensures { result.now ≡ self.now }
    {
        self.items.as_slice()
    }

    pub fn try_copy(&self, alloc: Global) -> Result<Extras, Memory>
        ensures { IfOk result (λ copy. copy ≡ self.now) }
    {
        let mut items = Vec::with_capacity(alloc, self.items.len())?;
        for item in self.items.iter() {
            items.push_reserved(item.try_copy(alloc)?);
        }
        Ok(Extras { items })
    }
}
