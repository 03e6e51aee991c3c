//! Checks that take their input in pieces.

ghost use Rattle.std.specs.Prelude.{◌≡◌, ◌⊎◌, ◌+◌, ◌<◌, ◌≤◌, ℕ, List, [], length, IfOk, OnErr};
ghost use Rattle.dsd_station.specs.Causes.{TakesUpTo};
ghost use Rattle.dex_cli.specs.Verdicts.{Checks, IsChecked, IsUnread, read_of};
ghost use Rattle.dex_cli.specs.declared.job.TheConstants.{INPUT_BYTES as MOST};
ghost use Rattle.dex_cli.specs.declared.words.CheckKind.{CheckKind};

use crate::job::INPUT_BYTES;
use crate::refusal::{Reason, Refusal};
use crate::verdict::Verdict;
use dsd_station::{ReadFault, Source, Taker, read_through};
use std::alloc::AllocError;
use transaction_set::SetReason;

/// A check that takes its input in pieces.
pub trait Checking: Taker + Drop {
    /// Which check it is.
    ghost kind: { CheckKind };

    /// The verdict on what was taken.
    fn finish(self) -> Result<Verdict, AllocError>
        ensures { (input : List ℕ) → Self.holds self input → length input ≤ MOST → IfOk result (Checks kind input) };
}

/// The verdict of a check on the input that the source gives. The source is read to its end or its limit, whatever the
/// check has found by then.
pub fn check_by<S: Source, C: Checking>(
    source: &mut S,
    mut checking: C,
) -> Result<Verdict, AllocError>
    requires begun { C.holds checking [] }
    requires reach { C.reach checking ≡ 0 }
    ensures told { IfOk result (λ verdict. let read = read_of S.left S.faults source.old source.new in IsUnread read verdict ⊎ IsChecked C.kind read verdict) }
    ensures taken { OnErr result (TakesUpTo (MOST + 1) (S.left source.old) (S.left source.new)) }
    ensures later { S.faults source.old ≤ S.faults source.new }
{
    match read_through(source, &mut checking, INPUT_BYTES + 1) {
        Ok(count) => judge(checking, count),
        Err(ReadFault::Failed) => Ok(Verdict::SourceFault),
        Err(ReadFault::Memory) => Err(AllocError),
    }
}

/// The verdict of a check that has taken so many bytes.
fn judge<C: Checking>(checking: C, count: usize) -> Result<Verdict, AllocError>
    ensures { (input : List ℕ) → C.holds checking input → length input ≡ count → IfOk result (Checks C.kind input) }
{
    if count > INPUT_BYTES {
        return Ok(too_long());
    }
    checking.finish()
}

/// The verdict on an input that is longer than any may be.
pub fn too_long() -> Verdict
    ensures { (kind : CheckKind) (input : List ℕ) → MOST < length input → Checks kind input result }
{
    Verdict::Refused(Refusal {
        place: INPUT_BYTES,
        reason: Reason::Set(SetReason::Limit),
    })
}
