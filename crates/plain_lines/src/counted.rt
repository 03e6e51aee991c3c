//! What was counted of a line of a delivery.

ghost use Rattle.std.specs.Prelude.{◌≡◌, ◌≤◌, IfOk};
ghost use Rattle.plain_lines.specs.Counting.{counted_in, new_line as line_of, recounted as line_by};

use crate::line::PlainLine;
use crate::refusing::value;
use dsd_record::DraftFault;
use dsd_values::{
    Cost, Details, DsdNumber, Extras, Line, Memory, Quantity, Tail, Word, read_cost, read_dsd,
    read_quantity,
};
use std::alloc::Global;

/// A quantity and a cost under the number of a line.
#[derive(Clone, Copy, Debug, PartialEq, Eq)]
pub struct Counted {
    pub dsd: DsdNumber,
    pub quantity: Quantity,
    pub cost: Cost,
}

/// What the three words behind the leading one say.
pub fn read_counted(line: &PlainLine<'_>) -> Result<Counted, DraftFault>
    ensures { result ≡ counted_in line.now }
{
    let dsd = value(line, 1, read_dsd(line.word(1)))?;
    let quantity = value(line, 2, read_quantity(line.word(2)))?;
    let cost = value(line, 3, read_cost(line.word(3)))?;
    Ok(Counted {
        dsd,
        quantity,
        cost,
    })
}

impl Counted {
    /// A line with this quantity and cost. Its other fields and its extras stay.
    pub fn recounted(self, alloc: Global, line: &Line) -> Result<Line, Memory>
        ensures { IfOk result (λ counted. counted ≡ line_by self line.now) }
    {
        let mut counted = line.try_copy(alloc)?;
        counted.quantity = self.quantity;
        counted.cost = self.cost;
        Ok(counted)
    }

    /// A line that the delivery did not have.
    pub fn new_line(self, alloc: Global) -> Line
        ensures { result ≡ line_of self }
    {
        Line {
            dsd: self.dsd,
            quantity: self.quantity,
            unit: Word::new(b"EA"),
            upc: Word::empty(),
            details: Details::none(),
            cost: self.cost,
            tail: Tail::none(),
            extras: Extras::new(alloc),
        }
    }
}
