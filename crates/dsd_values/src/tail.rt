//! What follows the last element that has a name.

ghost use Rattle.std.specs.Prelude.{◌≡◌, ◌≤◌, [], IfOk, length};
ghost use Rattle.dsd_values.specs.declared.limits.TheConstants.{KEPT_BYTES as MOST};

use crate::fault::Memory;
use crate::kept::Kept;
use std::alloc::Global;
use std::marker::Model;
use std::rc::Rc;

/// The elements behind the last one that has a name, joined by `*`: a text of at most 512 bytes, which most items have not. Copies share it.
#[derive(Debug, Drop)]
pub struct Tail {
    held: Option<Rc<Kept>>,
}

impl Model for Tail {
    ghost use Rattle.std.specs.Prelude.{ℕ, List, []};
    ghost use Rattle.std.specs.Option.{option_map_or};

    ghost Value = { List ℕ };

    ghost view = { λ tail. option_map_or (λ held. held.value) tail.held [] };
}

impl Tail {
    /// The empty tail, which takes no memory.
    pub fn none() -> Tail
        ensures { result ≡ [] }
    {
        Tail { held: None }
    }

    /// The tail that is this text. An empty one takes no memory.
    #[inline(always)]
    pub fn new(alloc: Global, text: Kept) -> Result<Tail, Memory>
        ensures { IfOk result (λ tail. tail ≡ text) }
    {
        if text.as_slice().is_empty() {
            return Ok(Tail::none());
        }
        Ok(Tail {
            held: Some(Rc::new(alloc, text)?),
        })
    }

    pub fn as_slice(&self) -> &[u8]
        ensures value { result.now ≡ self.now }
        ensures short { length result.now ≤ MOST }
    {
        match &self.held {
            Some(text) => text.as_slice(),
            None => b"",
        }
    }

    /// The same tail, shared.
    pub fn try_copy(&self) -> Result<Tail, Memory>
        ensures { IfOk result (λ copy. copy ≡ self.now) }
    {
        let Some(text) = &self.held else {
            return Ok(Tail::none());
        };
        Ok(Tail {
            held: Some(text.clone()?),
        })
    }
}
