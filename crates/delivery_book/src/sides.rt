//! Which end signs what.

ghost use Rattle.std.specs.Prelude.{◌≡◌};
ghost use Rattle.adjustment_895.specs.AnswerText.{IsAnswer};
ghost use Rattle.delivery_book.specs.Deeds.{other_role as role_beside, signer as signer_of_kind, signer_of as signer_of_level};
ghost use Rattle.delivery_book.specs.Refusals.{is_right_level as right_level, is_role as is_this_role, level_named as named_level};

use adjustment_895::Answer895;
use dsd_journal::EntryKind;
use dsd_values::Role;

pub(crate) fn is_role(a: Role, b: Role) -> bool
    ensures { result ≡ is_this_role a b }
{
    a == b
}

pub(crate) fn other_role(role: Role) -> Role
    ensures { result ≡ role_beside role }
{
    match role {
        Role::Supplier => Role::Receiver,
        Role::Receiver => Role::Supplier,
    }
}

/// Who signed the set of an entry.
pub(crate) fn signer(role: Role, kind: EntryKind) -> Role
    ensures { result ≡ signer_of_kind role kind }
{
    match kind {
        EntryKind::Signed => role,
        EntryKind::Took => other_role(role),
    }
}

/// The level of the proposal that an answer names.
pub(crate) fn level_named(answer: &Answer895) -> u8
    ensures { result ≡ named_level answer.now }
{
    // An adjustment has a level above 0.
    let _ = answer.lines();
    if answer.is_acknowledgement() {
        answer.level().get()
    } else {
        answer.level().get() - 1
    }
}

/// Whether the level is one of the end that signed, or for an acceptance one of the other end.
pub(crate) fn is_right_level(answer: &Answer895) -> bool
    ensures { result ≡ right_level answer.now }
{
    is_role(signer_of(level_named(answer)), other_role(answer.role()))
}

#[tactic(auto, using(crate::proofs::Parity::even_level, crate::proofs::Parity::odd_level))]
fn signer_of(level: u8) -> Role
    ensures { result ≡ signer_of_level level }
{
    if level % 2 == 0 {
        Role::Supplier
    } else {
        Role::Receiver
    }
}
