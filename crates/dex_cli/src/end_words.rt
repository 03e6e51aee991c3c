//! The words of `handheld` and `receiver`.

ghost use Rattle.std.specs.Prelude.{IfOk, IsErrOf, [], ◌∷◌, map, string_bytes};
ghost use Rattle.dex_cli.specs.EndWords.{AreNames, IsLedBy};
ghost use Rattle.dex_cli.specs.declared.end_words.EndNames.{EndNames as NamesValue};

use crate::fault::WordsFault;
use crate::name::{Name, is_name, read_name};
use std::alloc::Global;

/// What an end runs on.
#[derive(Debug, Drop)]
pub struct EndNames {
    pub journal: Name,
    pub port: Name,
}

/// The journal and the port that the words of a job name, which this word leads.
pub fn read_end(alloc: Global, words: &[String], first: &str) -> Result<EndNames, WordsFault>
    ensures found { IfOk result (λ names. IsLedBy first.now names (map string_bytes words.now)) }
    ensures refused { IsErrOf result WordsFault.Refused → (names : NamesValue) → IsLedBy first.now names (map string_bytes words.now) → ⊥ }
    ensures memory { IsErrOf result WordsFault.Memory → (names : NamesValue) × IsLedBy first.now names (map string_bytes words.now) }
{
    match words {
        [job, journal, port] => {
            read_led(alloc, job.as_str(), journal.as_str(), port.as_str(), first)
        }
        _ => Err(WordsFault::Refused),
    }
}

/// The same of three words.
fn read_led(
    alloc: Global,
    job: &str,
    journal: &str,
    port: &str,
    first: &str,
) -> Result<EndNames, WordsFault>
    ensures found { IfOk result (λ names. IsLedBy first.now names (job.now ∷ journal.now ∷ port.now ∷ [])) }
    ensures refused { IsErrOf result WordsFault.Refused → (names : NamesValue) → IsLedBy first.now names (job.now ∷ journal.now ∷ port.now ∷ []) → ⊥ }
    ensures memory { IsErrOf result WordsFault.Memory → (names : NamesValue) × IsLedBy first.now names (job.now ∷ journal.now ∷ port.now ∷ []) }
{
    if job != first {
        return Err(WordsFault::Refused);
    }
    read_names(alloc, journal, port)
}

fn read_names(alloc: Global, journal: &str, port: &str) -> Result<EndNames, WordsFault>
    ensures found { IfOk result (λ names. AreNames names journal.now port.now) }
    ensures refused { IsErrOf result WordsFault.Refused → (names : NamesValue) → AreNames names journal.now port.now → ⊥ }
    ensures memory { IsErrOf result WordsFault.Memory → (names : NamesValue) × AreNames names journal.now port.now }
{
    if !is_name(port) {
        return Err(WordsFault::Refused);
    }
    match read_name(alloc, journal) {
        Ok(journal) => match read_name(alloc, port) {
            Ok(port) => Ok(EndNames { journal, port }),
            Err(fault) => Err(fault),
        },
        Err(fault) => Err(fault),
    }
}
