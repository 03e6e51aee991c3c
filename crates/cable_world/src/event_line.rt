//! Lines that say an event.

ghost use Rattle.std.specs.Prelude.{◌≡◌, Ok, position};
ghost use Rattle.dsd_values.specs.Answers.{UnlessMemory};
ghost use Rattle.dsd_values.specs.Reading.{number_of};
ghost use Rattle.dsd_values.specs.declared.fault.ValueFault.TheVariants.{OutOfRange};
ghost use Rattle.dsd_record.specs.declared.draft_fault.DraftFault.TheVariants.{Refused};
ghost use Rattle.dsd_record.specs.declared.draft_fault.DraftReason.TheVariants.{Value};
ghost use Rattle.plain_lines.specs.Refusing.{value_at};
ghost use Rattle.plain_lines.specs.PlainText.{word_of_line};
ghost use Rattle.cable_world.specs.EventReading.{bytes_of, digits_judged, end_in, end_of, event_in, is_no_digit, number_in, pick_of};
ghost use Rattle.cable_world.specs.declared.deed.Deed.TheVariants as deeds;

use crate::deed::Deed;
use crate::event::Event;
use dsd_record::{DraftFault, DraftReason};
use dsd_station::Pick;
use dsd_values::{Kept, Role, ValueFault, read_number};
use hex::FromHexError;
use plain_lines::{PlainLine, refuse, value};
use std::alloc::Global;

/// The most times that `PASS` delivers a frame.
pub const MOST_PASSED: u32 = 100_000;

/// The greatest number of a frame of `AGAIN`.
pub const MOST_AGAIN: u32 = 999_999_999;

/// The most times that `QUIET` says that nothing comes.
pub const MOST_QUIET: u32 = 100;

/// The greatest number of a call that `STOP` or `FAIL` arms.
pub const MOST_ARMED: u32 = 100_000;

/// The most digits of `HEAR`, two for each byte.
pub const MOST_DIGITS: usize = 1_024;

/// What the words behind the leading one say.
pub(crate) fn read_event(
    alloc: Global,
    deed: Deed,
    line: &PlainLine<'_>,
) -> Result<Event, DraftFault>
    ensures { UnlessMemory DraftFault.Memory result (event_in deed line.now) }
{
    match deed {
        Deed::Start => read_start(line),
        Deed::Pass => read_pass(line),
        Deed::Lose => Ok(Event::Lose),
        Deed::Break => Ok(Event::Break),
        Deed::Again => read_again(line),
        Deed::Quiet => read_quiet(line),
        Deed::Unplug => Ok(Event::Unplug),
        Deed::Hear => read_hear(alloc, line),
        Deed::Stop => read_stop(line),
        Deed::Fail => read_fail(line),
        Deed::Clean => Ok(Event::Clean),
    }
}

fn read_start(line: &PlainLine<'_>) -> Result<Event, DraftFault>
    ensures { result ≡ event_in deeds.Start line.now }
{
    let role = read_end(line)?;
    Ok(Event::Start(role))
}

fn read_pass(line: &PlainLine<'_>) -> Result<Event, DraftFault>
    ensures { result ≡ event_in deeds.Pass line.now }
{
    let times = read_number_at(line, 1, MOST_PASSED)?;
    Ok(Event::Pass(times))
}

fn read_again(line: &PlainLine<'_>) -> Result<Event, DraftFault>
    ensures { result ≡ event_in deeds.Again line.now }
{
    let role = read_end(line)?;
    let number = read_number_at(line, 2, MOST_AGAIN)?;
    Ok(Event::Again(role, number))
}

fn read_quiet(line: &PlainLine<'_>) -> Result<Event, DraftFault>
    ensures { result ≡ event_in deeds.Quiet line.now }
{
    let role = read_end(line)?;
    let times = read_number_at(line, 2, MOST_QUIET)?;
    Ok(Event::Quiet(role, times))
}

fn read_hear(alloc: Global, line: &PlainLine<'_>) -> Result<Event, DraftFault>
    ensures { UnlessMemory DraftFault.Memory result (event_in deeds.Hear line.now) }
{
    let role = read_end(line)?;
    let bytes = read_bytes(alloc, line)?;
    Ok(Event::Hear(role, bytes))
}

fn read_stop(line: &PlainLine<'_>) -> Result<Event, DraftFault>
    ensures { result ≡ event_in deeds.Stop line.now }
{
    let role = read_end(line)?;
    let number = read_number_at(line, 2, MOST_ARMED)?;
    let pick = value(line, 3, read_pick(line.word(3)))?;
    Ok(Event::Stop(role, number, pick))
}

fn read_fail(line: &PlainLine<'_>) -> Result<Event, DraftFault>
    ensures { result ≡ event_in deeds.Fail line.now }
{
    let role = read_end(line)?;
    let number = read_number_at(line, 2, MOST_ARMED)?;
    Ok(Event::Fail(role, number))
}

/// Which end the first word behind the leading one names.
fn read_end(line: &PlainLine<'_>) -> Result<Role, DraftFault>
    ensures { result ≡ end_in line.now }
{
    value(line, 1, read_end_letter(line.word(1)))
}

/// `H` for the handheld, `R` for the receiver.
fn read_end_letter(text: &[u8]) -> Result<Role, ValueFault>
    ensures { result ≡ end_of text.now }
{
    match text {
        [] => Err(ValueFault::Empty),
        [b'H'] => Ok(Role::Supplier),
        [b'R'] => Ok(Role::Receiver),
        _ => Err(ValueFault::OutOfRange),
    }
}

/// `KEEP`, `DROP` or `HALF`.
fn read_pick(text: &[u8]) -> Result<Pick, ValueFault>
    ensures { result ≡ pick_of text.now }
{
    if text.is_empty() {
        Err(ValueFault::Empty)
    } else if text == b"KEEP".as_slice() {
        Ok(Pick::Keep)
    } else if text == b"DROP".as_slice() {
        Ok(Pick::Drop)
    } else if text == b"HALF".as_slice() {
        Ok(Pick::Half)
    } else {
        Err(ValueFault::OutOfRange)
    }
}

/// A number from 1 to this in the word with this number.
fn read_number_at(line: &PlainLine<'_>, word: usize, most: u32) -> Result<u32, DraftFault>
    ensures { result ≡ number_in line.now word most }
{
    value(line, word, read_number_to(line.word(word), most))
}

/// A number from 1 to this.
fn read_number_to(text: &[u8], most: u32) -> Result<u32, ValueFault>
    ensures { result ≡ number_of 1 most text.now }
{
    let number = read_number(text)?;
    if number < 1 || number > u64::from(most) {
        return Err(ValueFault::OutOfRange);
    }
    Ok(number as u32)
}

/// The bytes that the digits of the second word behind the leading one name.
fn read_bytes(alloc: Global, line: &PlainLine<'_>) -> Result<Kept, DraftFault>
    ensures { UnlessMemory DraftFault.Memory result (value_at line.now 2 (bytes_of (word_of_line line.now 2))) }
{
    let digits = line.word(2);
    value(line, 2, judge_digits(digits))?;
    match hex::decode(alloc, digits) {
        Ok(bytes) => keep(alloc, &bytes),
        Err(FromHexError::OutOfMemory) => Err(DraftFault::Memory),
        Err(_) => Err(refuse_odd(line)),
    }
}

/// An odd number of digits names no bytes.
fn refuse_odd(line: &PlainLine<'_>) -> DraftFault
    ensures { result ≡ Refused line.now.place (Value 2 OutOfRange) }
{
    refuse(
        line,
        DraftReason::Value {
            word: 2,
            fault: ValueFault::OutOfRange,
        },
    )
}

fn keep(alloc: Global, bytes: &[u8]) -> Result<Kept, DraftFault>
    ensures { UnlessMemory DraftFault.Memory result (Ok bytes.now) }
{
    match Kept::new(alloc, bytes) {
        Ok(kept) => Ok(kept),
        Err(_) => Err(DraftFault::Memory),
    }
}

/// Whether these are digits, some and not too many.
fn judge_digits(text: &[u8]) -> Result<(), ValueFault>
    ensures { result ≡ digits_judged text.now }
{
    if text.is_empty() {
        return Err(ValueFault::Empty);
    }
    if text.len() > MOST_DIGITS {
        return Err(ValueFault::TooLong(text.len()));
    }
    match first_no_digit(text) {
        Some(place) => Err(ValueFault::NotDigit(place)),
        None => Ok(()),
    }
}

fn first_no_digit(text: &[u8]) -> Option<usize>
    ensures { result ≡ position is_no_digit text.now }
{
    text.iter().position(|&byte| !byte.is_ascii_hexdigit())
}
