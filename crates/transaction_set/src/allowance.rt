//! Allowances and charges, read from their segments.

ghost use Rattle.std.specs.Prelude.{◌≡◌, None, IfOk, Ok};
ghost use Rattle.dsd_values.specs.Answers.{UnlessMemory};
ghost use Rattle.dsd_values.specs.Methods.{counts as changes_price};
ghost use Rattle.dsd_values.specs.Reading.{cost_of, percent_of, quantity_of};
ghost use Rattle.dsd_values.specs.declared.allowance.Allowance.{Allowance as Item};
ghost use Rattle.transaction_set.specs.Allowances.{HasSize, IsAllowance, allowance_fault, allowance_in, is_left_out as left_out, lacks_quantity as lacks_its_quantity, lacks_size as lacks_its_size, missing};
ghost use Rattle.segments.specs.Elements.{Reads, at_element, optional, said};
ghost use Rattle.segments.specs.Views.{element_of};

use dsd_values::{
    Allowance, Cost, HeldAllowance, Method, Percent, Quantity, ValueFault, Word, read_percent,
};
use segments::{
    ItemFault, Segment, cost_at, filled_text_at, in_element, optional_cents_at, quantity_at,
    tail_at, word_text_at,
};
use std::alloc::Global;

/// The allowance of a G72 in a line or at record level: its nine elements, and the tail behind them. What must be there goes by the
/// presence of a text. The id of the segment is not looked at.
pub fn read_allowance(
    alloc: Global,
    segment: &Segment<'_>,
    in_line: bool,
) -> Result<HeldAllowance, ItemFault>
    ensures exact { Reads result (allowance_fault in_line segment.now) (λ allowance. allowance ≡ allowance_in segment.now) }

    // What is read says so, and what says so is read.
    ensures found { IfOk result (λ allowance. IsAllowance in_line allowance segment.now) }
    ensures only { (allowance : Item) → IsAllowance in_line allowance segment.now → UnlessMemory ItemFault.Memory result (Ok allowance) }

    // So it has a price wherever it changes one.
    ensures size { IfOk result (λ allowance. HasSize in_line allowance) }
{
    parse_allowance(alloc, segment, in_line)
}

fn parse_allowance(
    alloc: Global,
    segment: &Segment<'_>,
    in_line: bool,
) -> Result<HeldAllowance, ItemFault>
    ensures { Reads result (allowance_fault in_line segment.now) (λ allowance. allowance ≡ allowance_in segment.now) }
{
    let code = filled_text_at(segment, 1)?;
    let method = filled_text_at(segment, 2)?;
    let number = word_text_at(segment, 3)?;
    let exception = word_text_at(segment, 4)?;
    let rate = optional_cost_at(segment, 5)?;
    refuse_missing(6, lacks_quantity(segment, in_line))?;
    let quantity = optional_quantity_at(segment, 6)?;
    let unit = word_text_at(segment, 7)?;
    refuse_missing(8, lacks_size(segment))?;
    let total = optional_cents_at(segment, 8)?;
    let percent = optional_percent_at(segment, 9)?;
    let tail = tail_at(alloc, segment, 10)?;
    // The words are made last, each in its place: one that is made at its element is moved at each step behind it.
    let allowance = Allowance {
        code: Word::new(code),
        method: Word::new(method),
        number: Word::new(number),
        exception: Word::new(exception),
        rate,
        quantity,
        unit: Word::new(unit),
        total,
        percent,
        tail,
    };
    Ok(HeldAllowance::new(alloc, allowance)?)
}

/// Refuses an element that is needed and left out.
fn refuse_missing(element: usize, is_missing: bool) -> Result<(), ItemFault>
    ensures { Reads result (missing element is_missing) (λ _. Unit {0}) }
{
    if is_missing {
        return Err(ItemFault::Value {
            element,
            fault: ValueFault::Empty,
        });
    }
    Ok(())
}

/// Whether the rate counts at record level, and there is no quantity for it.
fn lacks_quantity(segment: &Segment<'_>, in_line: bool) -> bool
    ensures { result ≡ lacks_its_quantity in_line segment.now }
{
    !in_line
        && counts(segment)
        && is_left_out(segment, 8)
        && !is_left_out(segment, 5)
        && is_left_out(segment, 6)
}

/// Whether the method counts, and there is neither rate nor total nor percent.
fn lacks_size(segment: &Segment<'_>) -> bool
    ensures { result ≡ lacks_its_size segment.now }
{
    // The cheapest test that is mostly false comes first.
    is_left_out(segment, 5) && is_left_out(segment, 8) && is_left_out(segment, 9) && counts(segment)
}

/// Whether the method changes a price.
fn counts(segment: &Segment<'_>) -> bool
    ensures { result ≡ changes_price (element_of segment.now 2) }
{
    Method::named(segment.element(2)).changes_price()
}

fn is_left_out(segment: &Segment<'_>, element: usize) -> bool
    ensures { result ≡ left_out segment.now element }
{
    segment.element(element).is_empty()
}

/// A rate that may be left out.
fn optional_cost_at(segment: &Segment<'_>, element: usize) -> Result<Option<Cost>, ItemFault>
    ensures { Reads result (at_element element (optional cost_of (element_of segment.now element))) (λ v. v ≡ said None (optional cost_of (element_of segment.now element))) }
{
    if is_left_out(segment, element) {
        return Ok(None);
    }
    Ok(Some(cost_at(segment, element)?))
}

/// A quantity that may be left out.
fn optional_quantity_at(
    segment: &Segment<'_>,
    element: usize,
) -> Result<Option<Quantity>, ItemFault>
    ensures { Reads result (at_element element (optional quantity_of (element_of segment.now element))) (λ v. v ≡ said None (optional quantity_of (element_of segment.now element))) }
{
    if is_left_out(segment, element) {
        return Ok(None);
    }
    Ok(Some(quantity_at(segment, element)?))
}

/// A percent that may be left out.
fn optional_percent_at(segment: &Segment<'_>, element: usize) -> Result<Option<Percent>, ItemFault>
    ensures { Reads result (at_element element (optional percent_of (element_of segment.now element))) (λ v. v ≡ said None (optional percent_of (element_of segment.now element))) }
{
    if is_left_out(segment, element) {
        return Ok(None);
    }
    Ok(Some(in_element(element, read_percent(segment.element(element)))?))
}
