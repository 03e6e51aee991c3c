//! The lines of a set that is being read, and which DSD numbers they have.

ghost use Rattle.std.specs.Prelude.{◌≡◌, ◌+◌, ◌<◌, ◌≤◌, [], ◌∷◌, ◌++◌, true, false, get_or, length, ℕ, All, IfOk, OnOk, OnErr};
ghost use Rattle.dsd_values.specs.Behind.{with_extra};
ghost use Rattle.transaction_set.specs.Extras.{HasExtras, IsSized, allowances as count_of};
ghost use Rattle.transaction_set.specs.Numbers.{HasRoom};
ghost use Rattle.transaction_set.specs.Reasons.{has_line, last_extras};

use crate::extras::allowances;
use dsd_values::{DsdNumber, Extra, Line, Lines, MOST_LINES, Memory};
use std::alloc::Global;
use std::marker::Model;

/// How far past a number the table grows, so that it grows seldom.
const ROOM: usize = 64;

/// Lines in their order, and for each DSD number whether one of them has it: so a new number is found to be new
/// without a walk over the lines. The table ends past the greatest number that it was asked to hold.
#[derive(Drop)]
pub struct NumberedLines {
    lines: Lines,
    stands: Vec<bool>,
}

impl Model for NumberedLines {
    ghost use Rattle.std.specs.Prelude.{List};
    ghost use Rattle.dsd_values.specs.declared.line.Line.{Line as Item};
    ghost use Rattle.transaction_set.specs.Numbers.{IsTable};

    ghost Value = { List Item };

    ghost view = { λ n. n.lines };

    ghost invariant = { λ n. IsTable n.lines n.stands.items };
}

impl NumberedLines {
    pub fn new(alloc: Global) -> Result<NumberedLines, Memory>
        ensures { IfOk result (λ lines. lines ≡ []) }
    {
        Ok(NumberedLines {
            lines: Lines::new(alloc),
            stands: Vec::new(alloc),
        })
    }

    pub fn len(&self) -> usize
        ensures value { result ≡ length self.now }
        ensures few { result ≤ MOST_LINES }
    {
        self.lines.as_slice().len()
    }

    /// Whether a line has this number.
    pub fn has(&self, dsd: DsdNumber) -> bool
        ensures { result ≡ has_line dsd self.now }
    {
        matches!(self.stands.get(usize::from(dsd.get())), Some(true))
    }

    /// Adds a line behind which nothing stands yet.
    pub fn push(&mut self, line: Line) -> Result<(), Memory>
        requires room { length self.old < MOST_LINES }
        requires bare { line.extras ≡ [] }
        ensures ok { OnOk result (self.new ≡ self.old ++ line ∷ []) }
        ensures err { OnErr result (self.new ≡ self.old) }
    {
        let number = usize::from(line.dsd.get());
        reach(&mut self.stands, number)?;
        self.lines.push(line)?;
        self.stands[number] = true;
        Ok(())
    }

    /// How many allowances stand behind the last line.
    #[tactic(auto, using(crate::proofs::Behind::last_extras_last))]
    pub fn last_allowances(&self) -> usize
        ensures { result ≡ count_of (last_extras self.now) }
    {
        match self.lines.as_slice().split_last() {
            Some((line, _)) => allowances(line.extras.as_slice()),
            None => 0,
        }
    }

    /// Adds an extra behind the last line.
    #[inline(always)]
    pub fn push_extra(&mut self, extra: Extra) -> Result<(), Memory>
        requires sized { IsSized true extra }
        requires room { HasRoom extra (last_extras self.old) }
        ensures ok { OnOk result (self.new ≡ with_extra extra self.old) }
        ensures err { OnErr result (self.new ≡ self.old) }
    {
        self.lines.push_extra(extra)
    }

    pub fn as_slice(&self) -> &[Line]
        ensures value { result.now ≡ self.now }
        ensures few { length result.now ≤ MOST_LINES }
        ensures behind { All HasExtras result.now }
    {
        self.lines.as_slice()
    }

    pub fn into_lines(self) -> Lines
        ensures { result ≡ self }
    {
        self.lines
    }
}

/// Makes a table long enough for this number.
fn reach(stands: &mut Vec<bool>, number: usize) -> Result<(), Memory>
    requires { number < 10_000 }
    ensures long { OnOk result (number < length stands.new.items) }
    ensures same { (n : ℕ) → get_or stands.new.items n false ≡ get_or stands.old.items n false }
{
    if number >= stands.len() {
        stands.resize(number + ROOM, false)?;
    }
    Ok(())
}
