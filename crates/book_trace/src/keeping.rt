//! The calls at a book over a journal in a file.

ghost use Rattle.std.specs.Prelude.{IsTrue};

use crate::calls::spelled;
use adjustment_895::{Answer895, read_895};
use base_record_894::read_894;
use delivery_book::{Book, BookFault, open_book};
use dsd_station::{FileStation, Station};
use dsd_values::Role;
use std::alloc::Global;
use std::fs::File;
use std::io;
use std::rt::Files;

/// Opens the book that a file holds, stages what each line adds, and makes sure of it at a line without a set.
pub fn keep<R: Files<File = File>>(
    rt: &impl Print,
    alloc: Global,
    files: &R,
    role: Role,
    journal: &str,
    calls: &str,
) -> io::Result<()> {
    let mut station = FileStation::new(files);
    if station.attach(journal, "").is_err() {
        return println!(rt; "NO file");
    }
    match open_book(alloc, &mut station, role) {
        Ok(mut book) => keep_all(rt, alloc, &mut book, &mut station, calls),
        Err(fault) => println!(rt; "NO {fault}"),
    }
}

fn keep_all<R: Files<File = File>>(
    rt: &impl Print,
    alloc: Global,
    book: &mut Book,
    station: &mut FileStation<'_, R>,
    calls: &str,
) -> io::Result<()> {
    for line in calls.lines() {
        if !book.works() {
            return Ok(());
        }
        keep_line(rt, alloc, book, station, line)?;
    }
    Ok(())
}

fn keep_line<R: Files<File = File>>(
    rt: &impl Print,
    alloc: Global,
    book: &mut Book,
    station: &mut FileStation<'_, R>,
    line: &str,
) -> io::Result<()>
    requires { IsTrue book.old.works }
{
    let Some((name, set)) = line.split_once(' ') else {
        return flush(rt, book, station);
    };
    let text = spelled(alloc, set)?;
    match stage(alloc, book, name, &text) {
        Ok(()) => println!(rt; "STAGED {}", book.journal().staged()),
        Err(fault) => println!(rt; "NO {fault}"),
    }
}

fn flush<R: Files<File = File>>(
    rt: &impl Print,
    book: &mut Book,
    station: &mut FileStation<'_, R>,
) -> io::Result<()>
    requires { IsTrue book.old.works }
{
    match book.flush(station) {
        Ok(()) => println!(rt; "ENTRIES {}", book.journal().len()),
        Err(fault) => println!(rt; "NO {fault}"),
    }
}

/// Does one of the four calls.
fn stage(alloc: Global, book: &mut Book, name: &str, text: &[u8]) -> Result<(), BookFault>
    requires { IsTrue book.old.works }
{
    if name == "take" {
        return book.take_later(text);
    }
    if name == "propose" {
        return match read_894(alloc, text) {
            Ok((base, _seal)) => book.propose_later(base),
            Err(fault) => Err(BookFault::Set(fault)),
        };
    }
    match read_895(alloc, text) {
        Ok((answer, _seal)) => sign(book, &answer),
        Err(fault) => Err(BookFault::Set(fault)),
    }
}

/// Signs an answer with the delivery, the lines and the signature of this one.
fn sign(book: &mut Book, answer: &Answer895) -> Result<(), BookFault>
    requires { IsTrue book.old.works }
{
    let lines = answer.lines();
    if lines.as_slice().is_empty() {
        return book.accept_later(answer.number(), answer.signature());
    }
    book.adjust_later(answer.number(), lines, answer.signature())
}
