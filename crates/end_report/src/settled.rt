//! What is printed of a delivery.

ghost use Rattle.std.specs.Prelude.{◌≡◌, ◌++◌, OnOk};
ghost use Rattle.std.specs.List.{flat_map};
ghost use Rattle.dsd_values.specs.Writing.{two_digits};
ghost use Rattle.transaction_set.specs.Extras.{HasExtras};
ghost use Rattle.end_report.specs.Reports.{final_name, final_text, flag_text, heading, item_line, item_name, money_text, net_of, open_text, size_text, totals_text, worth_text};

use crate::lines::{put, put_bytes, put_named, put_number, put_signed};
use dsd_pricing::{Totals, sum_of};
use dsd_record::DsdRecord;
use dsd_values::{Cost, DeliveryNumber, Flag, Line, write_day};
use std::alloc::{AllocError, Global};
use std::slice;

/// Prints a final version and each of its lines.
#[tactic(auto, unfolding(crate::specs::Reports::final_text))]
pub fn put_final(alloc: Global, out: &mut Vec<u8>, version: &DsdRecord) -> Result<(), AllocError>
    ensures { OnOk result (out.new.items ≡ out.old.items ++ final_text version.now) }
{
    put_heading(alloc, out, version)?;
    put(out, "\n")?;
    put_items(alloc, out, version)
}

/// Prints a delivery that is not final, and the level of this version.
#[tactic(auto, unfolding(crate::specs::Reports::open_text))]
pub fn put_open(
    alloc: Global,
    out: &mut Vec<u8>,
    number: &DeliveryNumber,
    version: &DsdRecord,
) -> Result<(), AllocError>
    ensures { OnOk result (out.new.items ≡ out.old.items ++ open_text number.now version.now) }
{
    put(out, "OPEN ")?;
    put_bytes(out, number.as_slice())?;
    put(out, " ")?;
    put_named(alloc, out, "LEVEL", u64::from(version.level().get()))?;
    put(out, "\n")
}

/// Prints the line of a final version, without its end.
fn put_heading(alloc: Global, out: &mut Vec<u8>, version: &DsdRecord) -> Result<(), AllocError>
    ensures { OnOk result (out.new.items ≡ out.old.items ++ heading version.now) }
{
    put_name(out, version)?;
    put(out, " ")?;
    put_size(alloc, out, version)?;
    put(out, " ")?;
    put_totals(alloc, out, version.totals())
}

fn put_name(out: &mut Vec<u8>, version: &DsdRecord) -> Result<(), AllocError>
    ensures { OnOk result (out.new.items ≡ out.old.items ++ final_name version.now) }
{
    put(out, "FINAL ")?;
    put_bytes(out, version.number().as_slice())?;
    put(out, " ")?;
    put(out, flag(version.flag()))?;
    put(out, " ")?;
    put_bytes(out, write_day(version.day()).as_slice())
}

/// The letter of a flag.
pub fn flag(flag: Flag) -> &'static str
    ensures { result.now ≡ flag_text flag }
{
    match flag {
        Flag::Debit => "D",
        Flag::Credit => "C",
    }
}

fn put_size(alloc: Global, out: &mut Vec<u8>, version: &DsdRecord) -> Result<(), AllocError>
    ensures { OnOk result (out.new.items ≡ out.old.items ++ size_text version.now) }
{
    put_named(alloc, out, "LEVEL", u64::from(version.level().get()))?;
    put(out, " ")?;
    put_named(alloc, out, "LINES", version.line_count() as u64)
}

fn put_totals(alloc: Global, out: &mut Vec<u8>, totals: Totals) -> Result<(), AllocError>
    ensures { OnOk result (out.new.items ≡ out.old.items ++ totals_text totals) }
{
    put_named(alloc, out, "QUANTITY", u64::from(totals.quantity))?;
    put(out, " ")?;
    put_named(alloc, out, "AMOUNT", totals.amount.get())
}

/// Prints each line of a version.
fn put_items(alloc: Global, out: &mut Vec<u8>, version: &DsdRecord) -> Result<(), AllocError>
    ensures { OnOk result (out.new.items ≡ out.old.items ++ flat_map item_line version.now.lines) }
{
    let lines = version.lines().values().as_slice();
    for item in lines {
        put_item(alloc, out, item)?;
    }
    Ok(())
}

/// Prints a line of a delivery with what it comes to.
#[tactic(auto, unfolding(crate::specs::Reports::item_line))]
fn put_item(alloc: Global, out: &mut Vec<u8>, item: &Line) -> Result<(), AllocError>
    requires { HasExtras item.now }
    ensures { OnOk result (out.new.items ≡ out.old.items ++ item_line item.now) }
{
    put_item_name(alloc, out, item)?;
    put(out, " ")?;
    put_worth(alloc, out, item)?;
    put(out, "\n")
}

fn put_item_name(alloc: Global, out: &mut Vec<u8>, item: &Line) -> Result<(), AllocError>
    ensures { OnOk result (out.new.items ≡ out.old.items ++ item_name item.now) }
{
    put_named(alloc, out, "ITEM", u64::from(item.dsd.get()))?;
    put(out, " ")?;
    put_number(alloc, out, u64::from(item.quantity.get()))
}

/// Prints the cost of a line, and what it comes to.
fn put_worth(alloc: Global, out: &mut Vec<u8>, item: &Line) -> Result<(), AllocError>
    requires { HasExtras item.now }
    ensures { OnOk result (out.new.items ≡ out.old.items ++ worth_text item.now) }
{
    put_money(alloc, out, item.cost)?;
    put(out, " ")?;
    put_signed(alloc, out, net(item))
}

/// What a line comes to in cents.
fn net(item: &Line) -> i128
    requires { HasExtras item.now }
    ensures { result ≡ net_of item.now }
{
    sum_of(slice::from_ref(item), &[])
}

/// Prints a cost in units of money, with four decimals.
fn put_money(alloc: Global, out: &mut Vec<u8>, cost: Cost) -> Result<(), AllocError>
    ensures { OnOk result (out.new.items ≡ out.old.items ++ money_text cost) }
{
    let cost = cost.get();
    put_number(alloc, out, cost / 10_000)?;
    put(out, ".")?;
    put_two(out, (cost % 10_000 / 100) as u8)?;
    put_two(out, (cost % 100) as u8)
}

/// Prints two digits of a number.
pub fn put_two(out: &mut Vec<u8>, number: u8) -> Result<(), AllocError>
    ensures { OnOk result (out.new.items ≡ out.old.items ++ two_digits number) }
{
    put_bytes(out, &[b'0' + number / 10, b'0' + number % 10])
}
