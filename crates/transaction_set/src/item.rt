//! Items: a line of a delivery, read from its segment.

ghost use Rattle.std.specs.Prelude.{◌≡◌, [], IfOk, Ok};
ghost use Rattle.dsd_values.specs.Answers.{UnlessMemory};
ghost use Rattle.dsd_values.specs.declared.line.Line.{Line as Read};
ghost use Rattle.transaction_set.specs.Grammar.{IsItem};
ghost use Rattle.segments.specs.Elements.{Reads};
ghost use Rattle.transaction_set.specs.Tables.{item_fault, line_in};

use dsd_values::{DetailTexts, Details, Extras, Line, Tail, Word};
use segments::{
    ItemFault, Segment, cost_at, dsd_at, filled_text_at, quantity_at, tail_at, word_text_at,
};
use std::alloc::Global;

/// The line of a G83 or a G89: its ten elements, and the tail behind them. The id of the segment is not looked at.
pub fn read_item(alloc: Global, segment: &Segment<'_>) -> Result<Line, ItemFault>
    ensures exact { Reads result (item_fault segment.now) (λ line. line ≡ line_in segment.now) }

    // What is read says so, and what says so is read.
    ensures found { IfOk result (λ line. IsItem line segment.now × (line.extras ≡ [])) }
    ensures only { (line : Read) → IsItem line segment.now → line.extras ≡ [] → UnlessMemory ItemFault.Memory result (Ok line) }
{
    parse_item(alloc, segment)
}

fn parse_item(alloc: Global, segment: &Segment<'_>) -> Result<Line, ItemFault>
    ensures { Reads result (item_fault segment.now) (λ line. line ≡ line_in segment.now) }
{
    let dsd = dsd_at(segment, 1)?;
    let quantity = quantity_at(segment, 2)?;
    let unit = filled_text_at(segment, 3)?;
    let upc = word_text_at(segment, 4)?;
    let qualifier = word_text_at(segment, 5)?;
    let id = word_text_at(segment, 6)?;
    let case_code = word_text_at(segment, 7)?;
    let cost = cost_at(segment, 8)?;
    let pack = word_text_at(segment, 9)?;
    let label = word_text_at(segment, 10)?;
    let texts = DetailTexts {
        qualifier,
        id,
        case_code,
        pack,
        label,
    };
    let details = Details::new(alloc, &texts)?;
    let tail = Tail::new(alloc, tail_at(alloc, segment, 11)?)?;
    // The words are made last, each in its place: one that is made at its element is moved at each step behind it.
    Ok(Line {
        dsd,
        quantity,
        unit: Word::new(unit),
        upc: Word::new(upc),
        details,
        cost,
        tail,
        extras: Extras::new(alloc),
    })
}
