//! Items of a draft.

ghost use Rattle.std.specs.Prelude.{◌≡◌};
ghost use Rattle.handheld_core.specs.DraftRows.{item_in};

use dsd_record::DraftFault;
use dsd_values::{
    Details, Extras, Line, Tail, read_cost, read_dsd, read_filled_word, read_quantity, read_word,
};
use plain_lines::{PlainLine, value};
use std::alloc::Global;

/// What the five words behind the leading one say.
pub(crate) fn read_item(alloc: Global, line: &PlainLine<'_>) -> Result<Line, DraftFault>
    ensures { result ≡ item_in line.now }
{
    let dsd = value(line, 1, read_dsd(line.word(1)))?;
    let quantity = value(line, 2, read_quantity(line.word(2)))?;
    let unit = value(line, 3, read_filled_word(line.word(3)))?;
    let upc = value(line, 4, read_word(line.word(4)))?;
    let cost = value(line, 5, read_cost(line.word(5)))?;
    Ok(Line {
        dsd,
        quantity,
        unit,
        upc,
        details: Details::none(),
        cost,
        tail: Tail::none(),
        extras: Extras::new(alloc),
    })
}
