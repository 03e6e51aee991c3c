//! Reading counts line by line.

ghost use Rattle.std.specs.Prelude.{◌≡◌, List};
ghost use Rattle.dsd_values.specs.Answers.{UnlessMemory};
ghost use Rattle.plain_lines.specs.Refusing.{Steps};
ghost use Rattle.receiver_core.specs.Reading.{IsBegun, answer_of, count_step, finished, going_on as with_lines, in_part, is_between as is_whole, nothing, with_end, with_item};
ghost use Rattle.receiver_core.specs.declared.count.Count.{Count};
ghost use Rattle.receiver_core.specs.declared.reading.Part.TheVariants as parts;

use crate::count::Count;
use crate::count_list::CountList;
use crate::counts::{Counts, MOST_COUNTS};
use dsd_record::{DraftFault, DraftReason};
use dsd_values::{DeliveryNumber, Signature, ValueFault, read_delivery_number};
use plain_lines::{CountedLines, PlainLine, misplaced, read_signature, refuse, value};
use std::alloc::Global;
use std::marker::Model;
use std::mem;

/// The part of a count that is not whole.
#[derive(Debug, Drop)]
enum Part {
    Between,
    Headed(DeliveryNumber),
    Signed(DeliveryNumber, Signature),
    Lines(Count),
}

/// Counts so far. Each line is taken by itself, so that counts can stand among other lines.
#[derive(Debug, Drop)]
pub struct CountsSoFar {
    done: CountList,
    part: Part,
}

impl Model for CountsSoFar {
    ghost use Rattle.receiver_core.specs.Reading.{IsRightPart, SoFar};

    ghost Value = { SoFar };

    ghost view = { λ so_far. record { done = so_far.done; part = so_far.part } };

    ghost invariant = { λ so_far. IsRightPart so_far.part so_far.done };
}

impl CountsSoFar {
    pub fn new(alloc: Global) -> CountsSoFar
        ensures { result ≡ nothing }
    {
        CountsSoFar {
            done: CountList::new(alloc),
            part: Part::Between,
        }
    }

    /// Whether no count has begun that is not whole.
    pub fn is_between(&self) -> bool
        ensures { result ≡ is_whole self.now.part }
    {
        matches!(self.part, Part::Between)
    }

    /// Takes one more line.
    #[tactic(auto, unfolding(crate::specs::Reading::count_step))]
    fn take_line(self, alloc: Global, line: &PlainLine<'_>) -> Result<CountsSoFar, DraftFault>
        ensures { UnlessMemory DraftFault.Memory result (count_step self line.now) }
    {
        let CountsSoFar { done, part } = self;
        match part {
            Part::Between => begin(done, line),
            Part::Headed(number) => sign(done, number, line),
            Part::Signed(number, signature) => answer(alloc, done, number, signature, line),
            Part::Lines(count) => count_line(done, count, line),
        }
    }

    /// Takes one more line. A counted line goes into the open count where that is, and nothing moves.
    #[tactic(auto, unfolding(crate::specs::Reading::count_step))]
    pub fn take(&mut self, alloc: Global, line: &PlainLine<'_>) -> Result<(), DraftFault>
        ensures { Steps result self.new (count_step self.old line.now) }
    {
        match &mut self.part {
            Part::Lines(count) if line.leads(b"ITEM") => take_item(count, line),
            _ => self.take_moved(alloc, line),
        }
    }

    /// Takes one more line, whatever it is.
    fn take_moved(&mut self, alloc: Global, line: &PlainLine<'_>) -> Result<(), DraftFault>
        ensures { Steps result self.new (count_step self.old line.now) }
    {
        let so_far = mem::replace(self, CountsSoFar::new(alloc));
        match so_far.take_line(alloc, line) {
            Ok(next) => {
                *self = next;
                Ok(())
            }
            Err(fault) => Err(fault),
        }
    }

    /// The counts, where the text does not end inside one; it ends at this place.
    pub fn finish(self, alloc: Global, end: usize) -> Result<Counts, DraftFault>
        ensures { UnlessMemory DraftFault.Memory result (finished end self) }
    {
        let CountsSoFar { done, part } = self;
        match part {
            Part::Between => Ok(Counts::share(alloc, done)?),
            _ => Err(DraftFault::Refused {
                place: end,
                reason: DraftReason::Line,
            }),
        }
    }
}

/// Takes the number of a delivery.
fn begin(done: CountList, line: &PlainLine<'_>) -> Result<CountsSoFar, DraftFault>
    ensures { result ≡ in_part parts.Between done line.now }
{
    if let Some(reason) = misplaced(line, b"COUNT", 2) {
        return Err(refuse(line, reason));
    }
    if done.len() >= MOST_COUNTS {
        return Err(refuse(line, DraftReason::Limit));
    }
    let number = value(line, 1, read_delivery_number(line.word(1)))?;
    if done.knows(&number) {
        return Err(refuse(line, DraftReason::Twice));
    }
    Ok(CountsSoFar {
        done,
        part: Part::Headed(number),
    })
}

/// Takes what the answers are signed with.
fn sign(
    done: CountList,
    number: DeliveryNumber,
    line: &PlainLine<'_>,
) -> Result<CountsSoFar, DraftFault>
    requires { IsBegun number done }
    ensures { result ≡ in_part (parts.Headed number) done line.now }
{
    if let Some(reason) = misplaced(line, b"SIGN", 2) {
        return Err(refuse(line, reason));
    }
    let signature = read_signature(line)?;
    Ok(CountsSoFar {
        done,
        part: Part::Signed(number, signature),
    })
}

/// Takes whether counters are accepted.
fn answer(
    alloc: Global,
    done: CountList,
    number: DeliveryNumber,
    signature: Signature,
    line: &PlainLine<'_>,
) -> Result<CountsSoFar, DraftFault>
    requires { IsBegun number done }
    ensures { result ≡ in_part (parts.Signed number signature) done line.now }
{
    if let Some(reason) = misplaced(line, b"COUNTER", 2) {
        return Err(refuse(line, reason));
    }
    let counters = value(line, 1, read_answer(line.word(1)))?;
    Ok(CountsSoFar {
        done,
        part: Part::Lines(Count {
            number,
            signature,
            counters,
            lines: CountedLines::new(alloc),
        }),
    })
}

/// `YES` or `NO`.
fn read_answer(text: &[u8]) -> Result<bool, ValueFault>
    ensures { result ≡ answer_of text.now }
{
    if text.is_empty() {
        Err(ValueFault::Empty)
    } else if text == b"YES".as_slice() {
        Ok(true)
    } else if text == b"NO".as_slice() {
        Ok(false)
    } else {
        Err(ValueFault::OutOfRange)
    }
}

/// Takes a counted line, or the end of a count.
fn count_line(
    done: CountList,
    count: Count,
    line: &PlainLine<'_>,
) -> Result<CountsSoFar, DraftFault>
    requires { IsBegun count.number done }
    ensures { UnlessMemory DraftFault.Memory result (in_part (parts.Lines count) done line.now) }
{
    if line.leads(b"ITEM") {
        count_item(done, count, line)
    } else {
        end_count(done, count, line)
    }
}

/// Takes a counted line, and goes on.
fn count_item(
    done: CountList,
    mut count: Count,
    line: &PlainLine<'_>,
) -> Result<CountsSoFar, DraftFault>
    requires { IsBegun count.number done }
    ensures { UnlessMemory DraftFault.Memory result (with_item done count line.now) }
{
    match take_item(&mut count, line) {
        Ok(()) => Ok(CountsSoFar {
            done,
            part: Part::Lines(count),
        }),
        Err(fault) => Err(fault),
    }
}

/// Takes a counted line.
fn take_item(count: &mut Count, line: &PlainLine<'_>) -> Result<(), DraftFault>
    ensures item { (done : List Count) → Steps result (with_lines done count.new) (with_item done count.old line.now) }
    ensures number { count.new.number ≡ count.old.number }
{
    if let Some(reason) = misplaced(line, b"ITEM", 4) {
        return Err(refuse(line, reason));
    }
    match count.lines.take_line(line) {
        Ok(()) => Ok(()),
        Err(fault) => Err(fault),
    }
}

/// Takes the end of a count.
fn end_count(
    mut done: CountList,
    count: Count,
    line: &PlainLine<'_>,
) -> Result<CountsSoFar, DraftFault>
    requires { IsBegun count.number done }
    ensures { UnlessMemory DraftFault.Memory result (with_end done count line.now) }
{
    if let Some(reason) = misplaced(line, b"END", 1) {
        return Err(refuse(line, reason));
    }
    match done.push(count) {
        Ok(()) => Ok(CountsSoFar {
            done,
            part: Part::Between,
        }),
        Err(_) => Err(DraftFault::Memory),
    }
}
