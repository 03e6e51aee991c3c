//! Lines after changes.

ghost use Rattle.std.specs.Prelude.{◌≡◌, IfOk, OnOk};
ghost use Rattle.indexmap.specs.IndexMap.{values};
ghost use Rattle.transaction_set.specs.Grammar.{AreApart};
ghost use Rattle.dsd_record.specs.LineChanges.{changed, numbered};

use dsd_values::{DsdNumber, Line, Lines, Memory};
use indexmap::IndexMap;
use std::alloc::Global;
use std::rc::Rc;

/// The lines with each change in the place of the line with its number, or last.
pub(crate) fn changed_lines(
    alloc: Global,
    lines: &IndexMap<DsdNumber, Line>,
    changes: &Lines,
) -> Result<IndexMap<DsdNumber, Line>, Memory>
    requires { AreApart (values lines.now) }
    ensures under { IfOk result (λ after. after.entries ≡ numbered (changed (values lines.now) changes.now)) }
    ensures list { IfOk result (λ after. values after ≡ changed (values lines.now) changes.now) }
{
    let changes = changes.as_slice();
    // Most changes take the place of a line, and a map that needs more room grows.
    let room = lines.len().max(changes.len());
    let mut after = IndexMap::with_capacity(alloc, room)?;
    put_lines(alloc, &mut after, lines.values().as_slice())?;
    put_lines(alloc, &mut after, changes)?;
    Ok(after)
}

/// The same, for versions that share them.
pub(crate) fn shared_lines(
    alloc: Global,
    lines: &IndexMap<DsdNumber, Line>,
    changes: &Lines,
) -> Result<Rc<IndexMap<DsdNumber, Line>>, Memory>
    requires { AreApart (values lines.now) }
    ensures under { IfOk result (λ after. after.value.entries ≡ numbered (changed (values lines.now) changes.now)) }
    ensures list { IfOk result (λ after. values after.value ≡ changed (values lines.now) changes.now) }
{
    let after = changed_lines(alloc, lines, changes)?;
    Ok(Rc::new(alloc, after)?)
}

/// Puts copies of these lines among those of the map: each in the place of the one with its number, or last.
fn put_lines(
    alloc: Global,
    lines: &mut IndexMap<DsdNumber, Line>,
    changes: &[Line],
) -> Result<(), Memory>
    requires { lines.old.entries ≡ numbered (values lines.old) }
    ensures { OnOk result (lines.new.entries ≡ numbered (changed (values lines.old) changes.now)) }
{
    for change in changes {
        lines.insert(change.dsd, change.try_copy(alloc)?)?;
    }
    Ok(())
}
