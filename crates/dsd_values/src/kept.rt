//! Texts that are kept as they came.

ghost use Rattle.std.specs.Prelude.{◌≡◌, ◌≤◌, [], IfOk, length};
ghost use Rattle.dsd_values.specs.Answers.{UnlessMemory};
ghost use Rattle.dsd_values.specs.HeldText.{held_text};
ghost use Rattle.dsd_values.specs.Reading.{kept_of};

use crate::fault::{KeptFault, Memory};
use crate::limits::KEPT_BYTES;
use arrayvec::ArrayVec;
use std::alloc::{AllocError, Global};
use std::marker::Model;

/// The most bytes of a text that takes no memory. Most notes and references are as short.
const SHORT_BYTES: usize = 24;

/// Where a text is kept.
#[derive(Debug, Drop)]
enum Held {
    Short(ArrayVec<u8, SHORT_BYTES>),
    Long(Vec<u8>),
}

/// A text of at most 512 bytes.
#[derive(Debug, Drop)]
pub struct Kept {
    held: Held,
}

impl Model for Kept {
    ghost use Rattle.std.specs.Prelude.{◌≤◌, ℕ, List, length};
    ghost use Rattle.dsd_values.specs.declared.limits.TheConstants.{KEPT_BYTES};

    ghost Value = { List ℕ };

    ghost use Rattle.dsd_values.specs.HeldText.{held_text};

    ghost view = { λ kept. held_text kept.held };

    ghost invariant = { λ kept. length (held_text kept.held) ≤ KEPT_BYTES };
}

impl Kept {
    pub fn new(alloc: Global, text: &[u8]) -> Result<Kept, KeptFault>
        ensures exact { UnlessMemory KeptFault.Memory result (kept_of text.now) }
    {
        if text.len() > KEPT_BYTES {
            return Err(KeptFault::Long(text.len()));
        }
        let held = hold(alloc, text)?;
        Ok(Kept { held })
    }

    /// The empty text, which takes no memory.
    pub fn empty() -> Kept
        ensures { result ≡ [] }
    {
        Kept {
            held: Held::Short(ArrayVec::new()),
        }
    }

    pub fn as_slice(&self) -> &[u8]
        ensures value { result.now ≡ self.now }
        ensures short { length result.now ≤ KEPT_BYTES }
    {
        match &self.held {
            Held::Short(text) => text.as_slice(),
            Held::Long(text) => text.as_slice(),
        }
    }

    pub fn try_copy(&self, alloc: Global) -> Result<Kept, Memory>
        ensures { IfOk result (λ copy. copy ≡ self.now) }
    {
        let held = hold(alloc, self.as_slice())?;
        Ok(Kept { held })
    }
}

/// Keeps a text: a short one in its place.
fn hold(alloc: Global, text: &[u8]) -> Result<Held, AllocError>
    ensures { IfOk result (λ held. held_text held ≡ text.now) }
{
    if text.len() > SHORT_BYTES {
        return Ok(Held::Long(Vec::from_slice(alloc, text)?));
    }
    let mut short = ArrayVec::new();
    let _ = short.try_extend_from_slice(text);
    Ok(Held::Short(short))
}
