//! Signatures.

ghost use Rattle.std.specs.Prelude.{◌≡◌, ◌<◌, ◌≤◌, length};
ghost use Rattle.dsd_values.specs.SignatureRecord.{IsSignature};

use crate::limits::MARK_BYTES;
use crate::word::Word;
use std::marker::Model;

/// What an operator signs with.
#[derive(Debug, Drop)]
pub struct Signature {
    mark: Word,
    name: Word,
}

impl Model for Signature {
    ghost use Rattle.dsd_values.specs.SignatureRecord.{IsSignature, SignatureRecord};

    ghost Value = { SignatureRecord };

    ghost view = { λ s. record { mark = s.mark; name = s.name } };

    ghost invariant = { λ s. IsSignature (record { mark = s.mark; name = s.name }) };
}

impl Signature {
    pub fn new(mark: Word, name: Word) -> Signature
        requires filled { 0 < length mark }
        requires short { length mark ≤ MARK_BYTES }
        ensures { result ≡ record { mark = mark; name = name } }
    {
        // What a word holds is known once its text is lent.
        let _ = mark.as_slice();
        let _ = name.as_slice();
        Signature { mark, name }
    }

    /// 1 to 12 characters.
    pub fn mark(&self) -> &Word
        ensures value { result.now ≡ self.now.mark }
        ensures invariant { IsSignature self.now }
    {
        &self.mark
    }

    /// The name, empty where none is given.
    pub fn name(&self) -> &Word
        ensures { result.now ≡ self.now.name }
    {
        &self.name
    }

    /// An equal signature.
    pub fn copy(&self) -> Signature
        ensures { result ≡ self.now }
    {
        Signature {
            mark: self.mark.copy(),
            name: self.name.copy(),
        }
    }
}
