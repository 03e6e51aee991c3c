//! The lines of a record that differ from what was counted.

ghost use Rattle.std.specs.Prelude.{◌≡◌, ◌++◌, not, IfOk, OnOk, Option};
ghost use Rattle.transaction_set.specs.Reasons.{has_line};
ghost use Rattle.receiver_core.specs.Choosing.{added, change_of as line_change, changes_of as all_changes, differing};

use dsd_record::DsdRecord;
use dsd_values::{DsdNumber, Line, Lines, Memory, Quantity};
use plain_lines::{Counted, CountedLines};
use std::alloc::Global;

/// All lines that differ, as they were counted: those of the record in its order, and then the others in the order of the count.
pub(crate) fn changes_of(
    alloc: Global,
    counts: &CountedLines,
    seen: &DsdRecord,
) -> Result<Lines, Memory>
    ensures { IfOk result (λ changes. changes ≡ all_changes counts.now seen.now.lines) }
{
    let mut changes = Lines::new(alloc);
    push_differing(
        alloc,
        &mut changes,
        counts,
        seen.lines().values().as_slice(),
    )?;
    push_added(alloc, &mut changes, counts, seen)?;
    Ok(changes)
}

/// Adds the lines of a record that differ.
fn push_differing(
    alloc: Global,
    changes: &mut Lines,
    counts: &CountedLines,
    lines: &[Line],
) -> Result<(), Memory>
    ensures { OnOk result (changes.new ≡ changes.old ++ differing counts.now lines.now) }
{
    for line in lines {
        if let Some(change) = change_of(alloc, counts.get(line.dsd), line)? {
            changes.push(change)?;
        }
    }
    Ok(())
}

/// A line as it was counted, where it differs.
fn change_of(alloc: Global, counted: Option<Counted>, line: &Line) -> Result<Option<Line>, Memory>
    ensures { IfOk result (λ change. change ≡ line_change counted line.now) }
{
    match counted {
        Some(counted) => counted_change(alloc, counted, line),
        None => uncounted_change(alloc, line),
    }
}

/// A line with the quantity and the cost that were counted, where one of them differs.
fn counted_change(alloc: Global, counted: Counted, line: &Line) -> Result<Option<Line>, Memory>
    ensures { IfOk result (λ change. change ≡ line_change (Some counted) line.now) }
{
    if line.quantity == counted.quantity && line.cost == counted.cost {
        Ok(None)
    } else {
        Ok(Some(counted.recounted(alloc, line)?))
    }
}

/// A line that was not counted, at quantity 0, where it has another.
fn uncounted_change(alloc: Global, line: &Line) -> Result<Option<Line>, Memory>
    ensures { IfOk result (λ change. change ≡ line_change None line.now) }
{
    if line.quantity.get() == 0 {
        return Ok(None);
    }
    let mut change = line.try_copy(alloc)?;
    change.quantity = Quantity::new(0);
    Ok(Some(change))
}

/// Adds the lines that were counted and are not in the record.
fn push_added(
    alloc: Global,
    changes: &mut Lines,
    counts: &CountedLines,
    seen: &DsdRecord,
) -> Result<(), Memory>
    ensures { OnOk result (changes.new ≡ changes.old ++ added seen.now.lines counts.now) }
{
    for counted in counts.as_slice() {
        if lacks(seen, counted.dsd) {
            changes.push(counted.new_line(alloc))?;
        }
    }
    Ok(())
}

/// Whether no line of a record has this number.
fn lacks(seen: &DsdRecord, dsd: DsdNumber) -> bool
    ensures { result ≡ not (has_line dsd seen.now.lines) }
{
    seen.line_of(dsd).is_none()
}
