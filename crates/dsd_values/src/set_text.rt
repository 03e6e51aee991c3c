//! The text of a set.

ghost use Rattle.std.specs.Prelude.{◌≡◌, [], ◌∷◌, ◌++◌, IfOk, OnErr, OnOk};

use crate::fault::Memory;
use std::alloc::Global;
use std::marker::Model;

/// The bytes of a set.
#[derive(Debug, Drop)]
pub struct SetText {
    bytes: Vec<u8>,
}

impl Model for SetText {
    ghost use Rattle.std.specs.Prelude.{ℕ, List};

    ghost Value = { List ℕ };

    ghost view = { λ text. text.bytes.items };
}

impl SetText {
    pub fn new(alloc: Global) -> SetText
        ensures { result ≡ [] }
    {
        SetText {
            bytes: Vec::new(alloc),
        }
    }

    /// The text of these bytes.
    pub fn from_bytes(bytes: Vec<u8>) -> SetText
        ensures { result ≡ bytes.items }
    {
        SetText { bytes }
    }

    pub fn push(&mut self, item: u8) -> Result<(), Memory>
        ensures ok { OnOk result (self.new ≡ self.old ++ item ∷ []) }
        ensures err { OnErr result (self.new ≡ self.old) }
    {
        self.bytes.push(item)?;
        Ok(())
    }

    pub fn as_slice(&self) -> &[u8]
        ensures { result.now ≡ self.now }
    {
        self.bytes.as_slice()
    }

    pub fn try_copy(&self, alloc: Global) -> Result<SetText, Memory>
        ensures { IfOk result (λ copy. copy ≡ self.now) }
    {
        let bytes = Vec::from_slice(alloc, self.bytes.as_slice())?;
        Ok(SetText { bytes })
    }
}
