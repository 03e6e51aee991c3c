//! The words of `format`.

ghost use Rattle.std.specs.Prelude.{◌≡◌, ◌≢◌, IfOk, IfSome, IsNone, IsErrOf, map, string_bytes};
ghost use Rattle.dsd_journal.specs.Headers.{IsId};
ghost use Rattle.dsd_journal.specs.declared.header.Header.{Header as HeaderValue};
ghost use Rattle.dsd_values.specs.declared.role.Role.{Role as RoleValue};
ghost use Rattle.dex_cli.specs.FormatWords.{role_word, SpellsHeader, SpellsNew, SpellsFormat};
ghost use Rattle.dex_cli.specs.declared.format_words.NewJournal.{NewJournal as NewValue};

use crate::fault::WordsFault;
use crate::name::{Name, read_name};
use dsd_journal::Header;
use dsd_values::{CommId, Role, read_comm_id};
use std::alloc::Global;

/// A journal that is to be made.
#[derive(Debug, Drop)]
pub struct NewJournal {
    pub header: Header,
    pub journal: Name,
}

/// The journal that the words of a `format` ask for.
pub fn read_format(alloc: Global, words: &[String]) -> Result<NewJournal, WordsFault>
    ensures found { IfOk result (λ new. SpellsFormat new (map string_bytes words.now)) }
    ensures refused { IsErrOf result WordsFault.Refused → (new : NewValue) → SpellsFormat new (map string_bytes words.now) → ⊥ }
    ensures memory { IsErrOf result WordsFault.Memory → (new : NewValue) × SpellsFormat new (map string_bytes words.now) }
{
    match words {
        [job, role, own, peer, journal] if job.as_str() == "format" => read_new(
            alloc,
            role.as_str(),
            own.as_str(),
            peer.as_str(),
            journal.as_str(),
        ),
        _ => Err(WordsFault::Refused),
    }
}

fn read_new(
    alloc: Global,
    role: &str,
    own: &str,
    peer: &str,
    journal: &str,
) -> Result<NewJournal, WordsFault>
    ensures found { IfOk result (λ new. SpellsNew new role.now own.now peer.now journal.now) }
    ensures refused { IsErrOf result WordsFault.Refused → (new : NewValue) → SpellsNew new role.now own.now peer.now journal.now → ⊥ }
    ensures memory { IsErrOf result WordsFault.Memory → (new : NewValue) × SpellsNew new role.now own.now peer.now journal.now }
{
    let Some(header) = read_header(role, own, peer) else {
        return Err(WordsFault::Refused);
    };
    match read_name(alloc, journal) {
        Ok(journal) => Ok(NewJournal { header, journal }),
        Err(fault) => Err(fault),
    }
}

fn read_header(role: &str, own: &str, peer: &str) -> Option<Header>
    ensures found { IfSome result (λ header. SpellsHeader header role.now own.now peer.now) }
    ensures none { IsNone result → (header : HeaderValue) → SpellsHeader header role.now own.now peer.now → ⊥ }
{
    let Some(role) = read_end(role) else {
        return None;
    };
    let Some(own) = read_id(own) else {
        return None;
    };
    let Some(peer) = read_id(peer) else {
        return None;
    };
    Some(Header { role, own, peer })
}

/// The role of the end that a word names.
fn read_end(word: &str) -> Option<Role>
    ensures found { IfSome result (λ role. word.now ≡ role_word role) }
    ensures none { IsNone result → (role : RoleValue) → word.now ≢ role_word role }
{
    if word == "handheld" {
        return Some(Role::Supplier);
    }
    if word == "receiver" {
        return Some(Role::Receiver);
    }
    None
}

fn read_id(word: &str) -> Option<CommId>
    ensures found { IfSome result (λ id. (word.now ≡ id) × IsId id) }
    ensures none { IsNone result → IsId word.now → ⊥ }
{
    match read_comm_id(word.as_bytes()) {
        Ok(id) => Some(id),
        Err(_) => None,
    }
}
