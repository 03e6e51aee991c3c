//! A line for each answer, and for each delivery.

ghost use Rattle.std.specs.Prelude.{◌<◌, length};
ghost use Rattle.delivery_book.specs.Lookups.{numbers_of};

use delivery_book::{RuleFault, Rules};
use dsd_journal::EntryKind;
use std::{io, str};

/// Prints what was added, or why nothing was.
pub fn print_answer(
    rt: &impl Print,
    rules: &Rules,
    answer: Result<(), RuleFault>,
) -> io::Result<()> {
    match answer {
        Ok(()) => print_last(rt, rules),
        Err(fault) => println!(rt; "NO {fault}"),
    }
}

/// Prints the last entry.
fn print_last(rt: &impl Print, rules: &Rules) -> io::Result<()> {
    let count = rules.len();
    if count == 0 {
        return Ok(());
    }
    let text = rules.text(count - 1).as_slice();
    match rules.kind(count - 1) {
        EntryKind::Signed => println!(rt; "SIGNED {:?}", shown(text)),
        EntryKind::Took => println!(rt; "TOOK {:?}", shown(text)),
    }
}

/// Prints how each delivery stands, in their order, and how many entries there are.
pub fn print_deliveries(rt: &impl Print, rules: &Rules) -> io::Result<()> {
    for index in 0..rules.deliveries() {
        print_delivery(rt, rules, index)?;
    }
    println!(rt; "ENTRIES {}", rules.len())
}

fn print_delivery(rt: &impl Print, rules: &Rules, index: usize) -> io::Result<()>
    requires { index < length (numbers_of rules.now.entries) }
{
    let number = rules.number(index);
    let seen = rules.seen(index);
    print!(rt;
        "{} {} {}",
        shown(number.as_slice()),
        seen.level(),
        seen.check()
    )?;
    let totals = seen.totals();
    print!(rt; " {} {}", totals.quantity, totals.amount.get())?;
    if rules.awaits_us(index) {
        print!(rt; " OURS")?;
    }
    if let Some(amount) = rules.own_amount(index) {
        print!(rt; " OWN {}", amount.get())?;
    }
    if let Some(version) = rules.final_of(number) {
        print!(rt; " FINAL {}", version.check())?;
    }
    if let Some(text) = rules.last_signed(index) {
        print!(rt; " LAST {:?}", shown(text.as_slice()))?;
    }
    println!(rt; "")
}

/// The texts of sets are characters of one byte.
fn shown(text: &[u8]) -> &str {
    str::from_utf8(text).unwrap_or("?")
}
