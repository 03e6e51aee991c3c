//! The words of `show`.

ghost use Rattle.std.specs.Prelude.{ℕ, List, IfOk, IsErrOf, map, string_bytes};
ghost use Rattle.dex_cli.specs.Words.{SpellsShow};

use crate::fault::WordsFault;
use crate::name::{Name, read_name};
use std::alloc::Global;

/// The journal that the words of a `show` name.
pub fn read_show(alloc: Global, words: &[String]) -> Result<Name, WordsFault>
    ensures found { IfOk result (λ journal. SpellsShow journal (map string_bytes words.now)) }
    ensures refused { IsErrOf result WordsFault.Refused → (journal : List ℕ) → SpellsShow journal (map string_bytes words.now) → ⊥ }
    ensures memory { IsErrOf result WordsFault.Memory → (journal : List ℕ) × SpellsShow journal (map string_bytes words.now) }
{
    match words {
        [job, journal] if job.as_str() == "show" => read_name(alloc, journal.as_str()),
        _ => Err(WordsFault::Refused),
    }
}
