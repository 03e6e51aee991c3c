//! What stands at record level, and how many allowances stand somewhere.

ghost use Rattle.std.specs.Prelude.{◌≡◌, [], ◌∷◌, ◌++◌, false, OnOk, OnErr};
ghost use Rattle.transaction_set.specs.Extras.{AreExtras, IsSized, allowances as count_of, is_allowance as allows};
ghost use Rattle.transaction_set.specs.Numbers.{HasRoom};

use dsd_values::{Extra, Extras, Memory};
use std::alloc::Global;
use std::marker::Model;

/// How many of these extras are allowances.
pub fn allowances(extras: &[Extra]) -> usize
    ensures { result ≡ count_of extras.now }
{
    extras.iter().filter(|extra| is_allowance(extra)).count()
}

fn is_allowance(extra: &Extra) -> bool
    ensures { result ≡ allows extra.now }
{
    matches!(extra, Extra::Allow(_))
}

/// The extras of a record that is being read.
#[derive(Drop)]
pub struct RecordExtras {
    extras: Extras,
}

impl Model for RecordExtras {
    ghost use Rattle.std.specs.Prelude.{List, false};
    ghost use Rattle.dsd_values.specs.declared.extra.Extra.{Extra as Item};
    ghost use Rattle.transaction_set.specs.Extras.{AreExtras};

    ghost Value = { List Item };

    ghost view = { λ held. held.extras };

    ghost invariant = { λ held. AreExtras false held.extras };
}

impl RecordExtras {
    pub fn new(alloc: Global) -> RecordExtras
        ensures { result ≡ [] }
    {
        RecordExtras {
            extras: Extras::new(alloc),
        }
    }

    /// How many allowances stand at record level.
    pub fn allowances(&self) -> usize
        ensures { result ≡ count_of self.now }
    {
        allowances(self.extras.as_slice())
    }

    #[inline(always)]
    #[tactic(auto, using(crate::proofs::Behind::extras_push))]
    pub fn push(&mut self, extra: Extra) -> Result<(), Memory>
        requires sized { IsSized false extra }
        requires room { HasRoom extra self.old }
        ensures ok { OnOk result (self.new ≡ self.old ++ extra ∷ []) }
        ensures err { OnErr result (self.new ≡ self.old) }
    {
        self.extras.push(extra)
    }

    pub fn as_slice(&self) -> &[Extra]
        ensures value { result.now ≡ self.now }
        ensures right { AreExtras false result.now }
    {
        self.extras.as_slice()
    }

    pub fn into_extras(self) -> Extras
        ensures { result ≡ self }
    {
        self.extras
    }
}
