//! `check set`: the verdict on one set.

ghost use Rattle.std.specs.Prelude.{◌≡◌, ◌+◌, ◌<◌, ◌≤◌, ◌^◌, ◌++◌, ℕ, List, [], length, IfOk, OnOk};
ghost use Rattle.dex_cli.specs.Verdicts.{ChecksSet};
ghost use Rattle.dex_cli.specs.declared.job.TheConstants.{INPUT_BYTES};
ghost use Rattle.dex_cli.specs.declared.words.CheckKind.TheVariants as checks;
ghost use Rattle.set_stream.specs.StreamedSets.{IsStreamOf, comes_to};

use crate::checking::Checking;
use crate::refusal::{Reason, Refusal};
use crate::summary::summary_of;
use crate::verdict::Verdict;
use dsd_station::Taker;
use dsd_values::Memory;
use set_stream::SetStream;
use std::alloc::{AllocError, Global};
use transaction_set::SetFault;

/// The set so far.
#[derive(Drop)]
pub struct SetChecking {
    set: SetStream,
}

impl SetChecking {
    /// Nothing was taken.
    pub fn new(alloc: Global) -> SetChecking
        ensures begun { IsStreamOf [] result.set }
        ensures reach { comes_to result.set ≡ 0 }
    {
        SetChecking {
            set: SetStream::new(alloc),
        }
    }
}

impl Taker for SetChecking {
    ghost holds = { λ checking input. IsStreamOf input checking.set };

    ghost reach = { λ checking. comes_to checking.set };

    fn take(&mut self, piece: &[u8]) -> Result<(), Memory>
        requires { comes_to self.old.set + length piece.now < 2 ^ 64 }
        ensures holds { OnOk result ((before : List ℕ) → IsStreamOf before self.old.set → IsStreamOf (before ++ piece.now) self.new.set) }
        ensures reach { OnOk result (comes_to self.new.set ≤ comes_to self.old.set + length piece.now) }
    {
        self.set.take(piece)
    }
}

impl Checking for SetChecking {
    ghost kind = { checks.Set };

    fn finish(self) -> Result<Verdict, AllocError>
        ensures { (input : List ℕ) → IsStreamOf input self.set → length input ≤ INPUT_BYTES → IfOk result (ChecksSet input) }
    {
        match self.set.finish() {
            Ok(set) => Ok(Verdict::Set(summary_of(set))),
            Err(SetFault::Refused { place, reason }) => Ok(Verdict::Refused(Refusal {
                place,
                reason: Reason::Set(reason),
            })),
            Err(SetFault::Memory) => Err(AllocError),
        }
    }
}
