//! Lines of a delivery.

ghost use Rattle.std.specs.Prelude.{◌≡◌, [], ◌∷◌, ◌++◌, IfOk, OnErr, OnOk};
ghost use Rattle.dsd_values.specs.Behind.{with_extra};

use crate::cost::Cost;
use crate::details::Details;
use crate::dsd_number::DsdNumber;
use crate::extra::{Extra, Extras};
use crate::fault::Memory;
use crate::quantity::Quantity;
use crate::tail::Tail;
use crate::word::Word;
use std::alloc::Global;
use std::marker::Model;

/// One product of a delivery: the elements of a G83 or a G89 in their order, and what follows it.
#[derive(Debug, Drop)]
pub struct Line {
    pub dsd: DsdNumber,
    pub quantity: Quantity,
    pub unit: Word,
    pub upc: Word,
    pub details: Details,
    pub cost: Cost,
    /// The elements behind the label, joined by `*`.
    pub tail: Tail,
    pub extras: Extras,
}

impl Line {
    pub fn try_copy(&self, alloc: Global) -> Result<Line, Memory>
        ensures { IfOk result (λ copy. copy ≡ self.now) }
    {
        Ok(Line {
            dsd: self.dsd,
            quantity: self.quantity,
            unit: self.unit.copy(),
            upc: self.upc.copy(),
            details: self.details.try_copy()?,
            cost: self.cost,
            tail: self.tail.try_copy()?,
            extras: self.extras.try_copy(alloc)?,
        })
    }
}

/// A list of lines.
#[derive(Debug, Drop)]
pub struct Lines {
    items: Vec<Line>,
}

impl Model for Lines {
    ghost use Rattle.std.specs.Prelude.{List};
    ghost use Rattle.dsd_values.specs.declared.line.Line.{Line as Item};

    ghost Value = { List Item };

    ghost view = { λ lines. lines.items.items };
}

impl Lines {
    pub fn new(alloc: Global) -> Lines
        ensures { result ≡ [] }
    {
        Lines {
            items: Vec::new(alloc),
        }
    }

    pub fn push(&mut self, item: Line) -> Result<(), Memory>
        ensures ok { OnOk result (self.new ≡ self.old ++ item ∷ []) }
        ensures err { OnErr result (self.new ≡ self.old) }
    {
        // A line is large: the list grows to four times its length, so that lines are seldom moved.
        let count = self.items.len();
        if count == self.items.capacity() {
            self.items.reserve(count.saturating_mul(3))?;
        }
        self.items.push(item)?;
        Ok(())
    }

    /// Adds an extra behind the last line, where there is one.
    #[inline(always)]
    #[tactic(auto, using(crate::proofs::Behinds::with_extra_at, crate::proofs::Behinds::with_extra_none))]
    pub fn push_extra(&mut self, extra: Extra) -> Result<(), Memory>
        ensures ok { OnOk result (self.new ≡ with_extra extra self.old) }
        ensures err { OnErr result (self.new ≡ self.old) }
    {
        let count = self.items.len();
        if count == 0 {
            return Ok(());
        }
        self.items[count - 1].extras.push(extra)
    }

    pub fn as_slice(&self) -> &[Line]
        ensures { result.now ≡ self.now }
    {
        self.items.as_slice()
    }

    pub fn try_copy(&self, alloc: Global) -> Result<Lines, Memory>
        ensures { IfOk result (λ copy. copy ≡ self.now) }
    {
        let mut items = Vec::with_capacity(alloc, self.items.len())?;
        for item in self.items.iter() {
            items.push_reserved(item.try_copy(alloc)?);
        }
        Ok(Lines { items })
    }
}
