//! A line for each thing that was read. Its fields stand behind stars, which no word can have.

use base_record_894::Base;
use dsd_pricing::Totals;
use dsd_record::{DraftFault, DraftReason, DsdRecord};
use dsd_values::{
    Allowance, Cents, Details, Extra, Extras, Flag, Line, Signature, ValueFault, Word, write_day,
};
use handheld_core::Draft;
use plain_lines::{Counted, CountedLines};
use receiver_core::Count;
use std::io::Write;
use std::{io, str};

/// Prints where a text is refused and why: of a word its number and its fault.
pub fn print_refusal<W: Write>(out: &mut W, fault: DraftFault) -> io::Result<()> {
    match fault {
        DraftFault::Refused { place, reason } => {
            write!(out, "REFUSED {place} ")?;
            print_reason(out, reason)
        }
        DraftFault::Memory => Err(io::Error::from(io::ErrorKind::OutOfMemory)),
    }
}

fn print_reason<W: Write>(out: &mut W, reason: DraftReason) -> io::Result<()> {
    match reason {
        DraftReason::Line => writeln!(out, "LINE"),
        DraftReason::Words => writeln!(out, "WORDS"),
        DraftReason::Limit => writeln!(out, "LIMIT"),
        DraftReason::Value { word, fault } => {
            write!(out, "VALUE {word} ")?;
            print_fault(out, fault)
        }
        DraftReason::Twice => writeln!(out, "TWICE"),
        DraftReason::Price => writeln!(out, "PRICE"),
    }
}

fn print_fault<W: Write>(out: &mut W, fault: ValueFault) -> io::Result<()> {
    match fault {
        ValueFault::Empty => writeln!(out, "EMPTY"),
        ValueFault::TooLong(length) => writeln!(out, "TOOLONG {length}"),
        ValueFault::NotDigit(place) => writeln!(out, "NOTDIGIT {place}"),
        ValueFault::TooManyDecimals(count) => writeln!(out, "DECIMALS {count}"),
        ValueFault::OutOfRange => writeln!(out, "RANGE"),
        ValueFault::NoSuchDay => writeln!(out, "NOSUCHDAY"),
    }
}

/// Prints a draft, from its head to its counters.
pub fn print_draft<W: Write>(out: &mut W, draft: &Draft) -> io::Result<()> {
    print_head(out, &draft.base)?;
    print_signature(out, draft.base.signature())?;
    writeln!(out, "TOLERANCE*{}", draft.tolerance.get())?;
    print_totals(out, draft.base.quantity(), draft.base.amount())?;
    print_extras(out, draft.base.extras())?;
    print_lines(out, draft.base.lines().as_slice())?;
    print_counted(out, &draft.counters)?;
    writeln!(out, "END")
}

fn print_head<W: Write>(out: &mut W, base: &Base) -> io::Result<()> {
    let flag = match base.flag() {
        Flag::Debit => "D",
        Flag::Credit => "C",
    };
    let (number, day) = (shown(base.number().as_slice()), write_day(base.day()));
    write!(out, "DRAFT*{number}*{flag}*{}*", shown(day.as_slice()))?;
    write!(
        out,
        "{}*{}*",
        word(base.receiver_duns()),
        word(base.receiver_place())
    )?;
    writeln!(
        out,
        "{}*{}",
        word(base.supplier_duns()),
        word(base.supplier_place())
    )?;
    print_rest(out, base)
}

/// Prints what a base record may have besides, of which a draft says nothing.
fn print_rest<W: Write>(out: &mut W, base: &Base) -> io::Result<()> {
    write!(out, "REST*{}*", base.references().as_slice().len())?;
    print_some(out, base.deposit().map(|deposit| deposit.get()))?;
    writeln!(out, "{}", shown(base.tail().as_slice()))
}

fn print_signature<W: Write>(out: &mut W, signature: &Signature) -> io::Result<()> {
    writeln!(
        out,
        "SIGN*{}*{}",
        word(signature.mark()),
        word(signature.name())
    )
}

fn print_totals<W: Write>(out: &mut W, quantity: u32, amount: Cents) -> io::Result<()> {
    writeln!(out, "TOTALS*{quantity}*{}", amount.get())
}

/// Prints a count, from its number to its lines.
pub fn print_count<W: Write>(out: &mut W, count: &Count) -> io::Result<()> {
    let counters = if count.counters { "YES" } else { "NO" };
    writeln!(out, "COUNT*{}", shown(count.number.as_slice()))?;
    print_signature(out, &count.signature)?;
    writeln!(out, "COUNTER*{counters}")?;
    print_counted(out, &count.lines)?;
    writeln!(out, "END")
}

fn print_counted<W: Write>(out: &mut W, lines: &CountedLines) -> io::Result<()> {
    for counted in lines.as_slice() {
        print_one_counted(out, *counted)?;
    }
    Ok(())
}

fn print_one_counted<W: Write>(out: &mut W, counted: Counted) -> io::Result<()> {
    let (dsd, quantity, cost) = (
        counted.dsd.get(),
        counted.quantity.get(),
        counted.cost.get(),
    );
    writeln!(out, "COUNTED*{dsd}*{quantity}*{cost}")
}

/// Prints the level of a version, and what it comes to.
pub fn print_version<W: Write>(out: &mut W, seen: &DsdRecord) -> io::Result<()> {
    let Totals { quantity, amount } = seen.totals();
    writeln!(out, "LEVEL*{}", seen.level().get())?;
    print_totals(out, quantity, amount)
}

/// Prints lines, each with its extras behind it.
pub fn print_lines<W: Write>(out: &mut W, lines: &[Line]) -> io::Result<()> {
    for line in lines {
        print_line(out, line)?;
        print_extras(out, &line.extras)?;
    }
    Ok(())
}

fn print_line<W: Write>(out: &mut W, line: &Line) -> io::Result<()> {
    let (dsd, quantity, cost) = (line.dsd.get(), line.quantity.get(), line.cost.get());
    write!(
        out,
        "ITEM*{dsd}*{quantity}*{}*{}*",
        word(&line.unit),
        word(&line.upc)
    )?;
    print_details(out, &line.details, cost)?;
    writeln!(out, "{}", shown(line.tail.as_slice()))
}

/// Prints the details of a line, with the cost where it stands among them.
fn print_details<W: Write>(out: &mut W, details: &Details, cost: u64) -> io::Result<()> {
    let (qualifier, id) = (shown(details.qualifier()), shown(details.id()));
    let (case_code, pack) = (shown(details.case_code()), shown(details.pack()));
    write!(out, "{qualifier}*{id}*")?;
    write!(out, "{case_code}*{cost}*{pack}*")?;
    write!(out, "{}*", shown(details.label()))
}

fn print_extras<W: Write>(out: &mut W, extras: &Extras) -> io::Result<()> {
    for extra in extras.as_slice() {
        match extra {
            Extra::Allow(allowance) => print_allowance(out, allowance.get())?,
            Extra::Note(note) => writeln!(out, "NOTE*{}", shown(note.as_slice()))?,
        }
    }
    Ok(())
}

fn print_allowance<W: Write>(out: &mut W, allowance: &Allowance) -> io::Result<()> {
    write!(
        out,
        "ALLOW*{}*{}*",
        word(&allowance.code),
        word(&allowance.method)
    )?;
    write!(
        out,
        "{}*{}*",
        word(&allowance.number),
        word(&allowance.exception)
    )?;
    print_some(out, allowance.rate.map(|rate| rate.get()))?;
    print_some(
        out,
        allowance.quantity.map(|quantity| u64::from(quantity.get())),
    )?;
    write!(out, "{}*", word(&allowance.unit))?;
    print_some(out, allowance.total.map(|total| total.get()))?;
    print_some(
        out,
        allowance.percent.map(|percent| u64::from(percent.get())),
    )?;
    writeln!(out, "{}", shown(allowance.tail.as_slice()))
}

/// Prints a number where there is one, and a star.
fn print_some<W: Write>(out: &mut W, number: Option<u64>) -> io::Result<()> {
    match number {
        Some(number) => write!(out, "{number}*"),
        None => write!(out, "*"),
    }
}

fn word(word: &Word) -> &str {
    shown(word.as_slice())
}

/// The texts of values are characters of one byte.
fn shown(text: &[u8]) -> &str {
    str::from_utf8(text).unwrap_or("?")
}
