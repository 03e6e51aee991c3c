//! The version behind a set.

ghost use Rattle.std.specs.Prelude.{◌≡◌, IfOk};
ghost use Rattle.dsd_record.specs.Applying.{Refuses, applied as version_behind, apply_fault};

use adjustment_895::Answer895;
use dsd_record::{ApplyFault, DsdRecord};
use dsd_values::Check;
use std::alloc::Global;

/// The version behind an answer, or why it does not apply.
pub(crate) fn applied(
    alloc: Global,
    seen: &DsdRecord,
    answer: &Answer895,
    check: Check,
) -> Result<DsdRecord, ApplyFault>
    ensures { Refuses result (apply_fault seen.now answer.now) (λ after. after ≡ version_behind seen.now answer.now check) }
{
    let Ok(mut after) = seen.try_copy(alloc) else {
        return Err(ApplyFault::Memory);
    };
    match after.apply(answer, check) {
        Ok(()) => Ok(after),
        Err(fault) => Err(fault),
    }
}
