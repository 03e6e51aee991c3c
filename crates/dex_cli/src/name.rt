//! Names of files.

ghost use Rattle.std.specs.Prelude.{◌≡◌, ◌↔◌, IfOk, IsErrOf, IsTrue};
ghost use Rattle.dex_cli.specs.Names.{IsName};

use crate::fault::WordsFault;
use std::alloc::Global;
use std::marker::Model;

/// The name of a file, as a word gives it: it is not empty and does not begin with `-`.
#[derive(Debug, Drop)]
pub struct Name {
    text: String,
}

impl Model for Name {
    ghost use Rattle.std.specs.Prelude.{ℕ, List, string_bytes};
    ghost use Rattle.dex_cli.specs.Names.{IsName};

    ghost Value = { List ℕ };

    ghost view = { λ name. string_bytes name.text };

    ghost invariant = { λ name. IsName (string_bytes name.text) };
}

impl Name {
    pub fn as_str(&self) -> &str
        ensures value { result.now ≡ self.now }
        ensures name { IsName self.now }
    {
        self.text.as_str()
    }
}

/// The name that a word is.
pub fn read_name(alloc: Global, word: &str) -> Result<Name, WordsFault>
    ensures found { IfOk result (λ name. name ≡ word.now) }
    ensures name { IfOk result IsName }
    ensures refused { IsErrOf result WordsFault.Refused → IsName word.now → ⊥ }
    ensures memory { IsErrOf result WordsFault.Memory → IsName word.now }
{
    if !is_name(word) {
        return Err(WordsFault::Refused);
    }
    let text = String::from_str(alloc, word)?;
    Ok(Name { text })
}

/// Whether a word is a name.
pub fn is_name(word: &str) -> bool
    ensures { IsTrue result ↔ IsName word.now }
{
    match word.as_bytes() {
        [] => false,
        [first, ..] => *first != b'-',
    }
}
