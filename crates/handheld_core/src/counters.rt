//! The lines that a proposal is countered with.

ghost use Rattle.std.specs.Prelude.{◌≡◌, IfOk};
ghost use Rattle.dsd_record.specs.LineChanges.{line_under};
ghost use Rattle.handheld_core.specs.Choosing.{counter_by, countered};

use dsd_record::DsdRecord;
use dsd_values::{Line, Lines, Memory};
use plain_lines::{Counted, CountedLines};
use std::alloc::Global;

/// All counters as lines, in their order.
pub(crate) fn countered_lines(
    alloc: Global,
    counters: &CountedLines,
    seen: &DsdRecord,
) -> Result<Lines, Memory>
    ensures { IfOk result (λ lines. lines ≡ countered seen.now.lines counters.now) }
{
    let mut lines = Lines::new(alloc);
    for counted in counters.as_slice() {
        lines.push(counter_line(alloc, *counted, seen)?)?;
    }
    Ok(lines)
}

/// A line of the proposal with the countered quantity and cost, or else a new one.
fn counter_line(alloc: Global, counted: Counted, seen: &DsdRecord) -> Result<Line, Memory>
    ensures { IfOk result (λ line. line ≡ counter_by (line_under counted.dsd seen.now.lines) counted) }
{
    match seen.line_of(counted.dsd) {
        Some(line) => counted.recounted(alloc, line),
        None => Ok(counted.new_line(alloc)),
    }
}
