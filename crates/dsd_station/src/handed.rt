ghost use Rattle.std.specs.Prelude.{◌≡◌, IfOk};

use std::alloc::{AllocError, Global};
use std::marker::Model;

/// Bytes that a call was handed, kept as they were.
#[derive(Drop)]
pub struct Handed {
    bytes: Vec<u8>,
}

impl Model for Handed {
    ghost use Rattle.std.specs.Prelude.{ℕ, List};

    ghost Value = { List ℕ };

    ghost view = { λ handed. handed.bytes.items };
}

impl Handed {
    pub fn new(alloc: Global, bytes: &[u8]) -> Result<Handed, AllocError>
        ensures { IfOk result (λ handed. handed ≡ bytes.now) }
    {
        Ok(Handed {
            bytes: bytes.to_vec(alloc)?,
        })
    }

    pub fn as_slice(&self) -> &[u8]
        ensures { result.now ≡ self.now }
    {
        &self.bytes
    }
}
