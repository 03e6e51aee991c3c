//! Writing the script of a route.

ghost use Rattle.std.specs.Prelude.{◌≡◌, ◌≤◌, ◌++◌, IfOk, OnOk};
ghost use Rattle.std.specs.List.{flat_map};
ghost use Rattle.cable_world.specs.ScriptTexts.{Says};
ghost use Rattle.load_route.specs.Deliveries.{first_numbers};
ghost use Rattle.load_route.specs.Route.{route};
ghost use Rattle.load_route.specs.RouteText.{count_text, counted_items_text, counted_text, draft_text, item_text, items_text, script_text};
ghost use Rattle.load_route.specs.declared.deliveries.TheConstants.{MOST_DELIVERIES as MOST, MOST_LINES};

use crate::deliveries::{cost, counted, line_count, quantity};
use dsd_values::{Memory, write_cost};
use end_report::{put, put_bytes, put_named, put_number};
use std::alloc::{AllocError, Global};

/// What stands before the number of a delivery of the route.
const BASE_NUMBER: u64 = 500_000;

/// The text of the script that plays the route of so many deliveries.
pub fn route_text(alloc: Global, count: u32) -> Result<Vec<u8>, Memory>
    requires { count ≤ MOST }
    // It says that script, and so no other.
    ensures { IfOk result (λ text. Says (route count) text.items) }
{
    let mut out = Vec::new(alloc);
    put_script(alloc, &mut out, u64::from(count))?;
    Ok(out)
}

#[tactic(auto, unfolding(crate::specs::RouteText::script_text))]
fn put_script(alloc: Global, out: &mut Vec<u8>, count: u64) -> Result<(), AllocError>
    requires { count ≤ MOST }
    ensures { OnOk result (out.new.items ≡ out.old.items ++ script_text count) }
{
    put(
        out,
        "HANDHELD HH00000001 RR00000001\nRECEIVER RR00000001 HH00000001\nDRAFTS\n",
    )?;
    put_drafts(alloc, out, count)?;
    put(out, "COUNTS\n")?;
    put_counts(alloc, out, count)?;
    put(out, "EVENTS\nCLEAN\n")
}

fn put_drafts(alloc: Global, out: &mut Vec<u8>, count: u64) -> Result<(), AllocError>
    requires { count ≤ MOST }
    ensures { OnOk result (out.new.items ≡ out.old.items ++ flat_map draft_text (first_numbers count)) }
{
    for index in 0..count {
        put_draft(alloc, out, index + 1)?;
    }
    Ok(())
}

/// Writes what the handheld proposes of a delivery.
#[tactic(auto, unfolding(crate::specs::RouteText::draft_text))]
fn put_draft(alloc: Global, out: &mut Vec<u8>, delivery: u64) -> Result<(), AllocError>
    requires { delivery ≤ MOST }
    ensures { OnOk result (out.new.items ≡ out.old.items ++ draft_text delivery) }
{
    put_named(alloc, out, "DRAFT", BASE_NUMBER + delivery)?;
    put(out, " D 20240101 - - - -\nSIGN LOAD\nTOLERANCE 1000000\n")?;
    put_items(alloc, out, delivery)?;
    put(out, "END\n")
}

fn put_items(alloc: Global, out: &mut Vec<u8>, delivery: u64) -> Result<(), AllocError>
    requires { delivery ≤ MOST }
    ensures { OnOk result (out.new.items ≡ out.old.items ++ items_text delivery) }
{
    for index in 0..line_count(delivery) {
        put_item(alloc, out, delivery, index + 1)?;
    }
    Ok(())
}

/// Writes a line that is proposed.
fn put_item(alloc: Global, out: &mut Vec<u8>, delivery: u64, number: u64) -> Result<(), AllocError>
    requires few { delivery ≤ MOST }
    requires inside { number ≤ MOST_LINES }
    ensures { OnOk result (out.new.items ≡ out.old.items ++ item_text delivery number) }
{
    put_named(alloc, out, "ITEM", number)?;
    put(out, " ")?;
    put_number(alloc, out, quantity(delivery, number))?;
    put(out, " EA - ")?;
    put_bytes(out, write_cost(cost(delivery, number)).as_slice())?;
    put(out, "\n")
}

fn put_counts(alloc: Global, out: &mut Vec<u8>, count: u64) -> Result<(), AllocError>
    requires { count ≤ MOST }
    ensures { OnOk result (out.new.items ≡ out.old.items ++ flat_map count_text (first_numbers count)) }
{
    for index in 0..count {
        put_count(alloc, out, index + 1)?;
    }
    Ok(())
}

/// Writes what the receiver counted of a delivery.
#[tactic(auto, unfolding(crate::specs::RouteText::count_text))]
fn put_count(alloc: Global, out: &mut Vec<u8>, delivery: u64) -> Result<(), AllocError>
    requires { delivery ≤ MOST }
    ensures { OnOk result (out.new.items ≡ out.old.items ++ count_text delivery) }
{
    put_named(alloc, out, "COUNT", BASE_NUMBER + delivery)?;
    put(out, "\nSIGN LOAD\nCOUNTER NO\n")?;
    put_counted_items(alloc, out, delivery)?;
    put(out, "END\n")
}

fn put_counted_items(alloc: Global, out: &mut Vec<u8>, delivery: u64) -> Result<(), AllocError>
    requires { delivery ≤ MOST }
    ensures { OnOk result (out.new.items ≡ out.old.items ++ counted_items_text delivery) }
{
    for index in 0..line_count(delivery) {
        put_counted_item(alloc, out, delivery, index + 1)?;
    }
    Ok(())
}

/// Writes a line that was counted.
fn put_counted_item(
    alloc: Global,
    out: &mut Vec<u8>,
    delivery: u64,
    number: u64,
) -> Result<(), AllocError>
    requires few { delivery ≤ MOST }
    requires inside { number ≤ MOST_LINES }
    ensures { OnOk result (out.new.items ≡ out.old.items ++ counted_text delivery number) }
{
    put_named(alloc, out, "ITEM", number)?;
    put(out, " ")?;
    put_number(alloc, out, counted(delivery, number))?;
    put(out, " ")?;
    put_bytes(out, write_cost(cost(delivery, number)).as_slice())?;
    put(out, "\n")
}
