//! The program `lines_trace`: what texts of drafts and of counts say, where they are refused, and what both ends choose by them, so
//! that readers and choices can be held to a model that is written apart from them.
//!
//! Standard input is parts with a form feed between them. The first line of a part tells what is done with the bytes behind it:
//!
//! | Line | What is done |
//! |---|---|
//! | `DRAFTS`, `COUNTS` | they are read as such a text; the drafts are printed |
//! | `COUNT` | the count of the delivery with this number is printed |
//! | `SET` | a set 894 begins a delivery, and a set 895 is applied to it |
//! | `CHOOSE` | what both ends do on that delivery, where the last own proposal came to so many cents |
//!
//! A refused text is told by its place and its reason, a word by its number and its fault. Behind what is printed of a part stands a form
//! feed.
#![tactic(auto)]

mod printing;

use base_record_894::Base;
use dsd_record::{Choice, Decider, DsdRecord, SetView, set_of};
use dsd_values::{read_cents, read_delivery_number};
use handheld_core::Drafts;
use printing::{print_count, print_draft, print_lines, print_refusal, print_version};
use receiver_core::Counts;
use std::alloc::Global;
use std::io::{BufRead, BufReader, BufWriter, Write};
use std::{io, str};
use transaction_set::Seal;

/// What stands between two parts, and behind what is printed of each.
const FORM_FEED: u8 = 0x0C;

/// What the last parts of each kind left.
#[derive(Debug, Drop)]
struct Ends {
    drafts: Option<Drafts>,
    counts: Option<Counts>,
    seen: Option<DsdRecord>,
}

/// The first line of a part, and what stands behind it.
fn first_line(part: &[u8]) -> (&[u8], &[u8]) {
    match part.iter().position(|&byte| byte == b'\n') {
        Some(end) => (&part[..end], &part[end + 1..]),
        None => (part, &[]),
    }
}

fn no_memory() -> io::Error {
    io::Error::from(io::ErrorKind::OutOfMemory)
}

/// Reads drafts, and prints them, as they are shared, or why they are refused.
fn read_drafts<W: Write>(alloc: Global, out: &mut W, text: &[u8]) -> io::Result<Option<Drafts>> {
    match Drafts::read(alloc, text) {
        Ok(drafts) => {
            let shared = drafts.try_clone().map_err(|_| no_memory())?;
            print_drafts(out, &shared)?;
            Ok(Some(shared))
        }
        Err(fault) => {
            print_refusal(out, fault)?;
            Ok(None)
        }
    }
}

fn print_drafts<W: Write>(out: &mut W, drafts: &Drafts) -> io::Result<()> {
    for index in 0..drafts.drafts() {
        print_draft_at(out, drafts, index)?;
    }
    Ok(())
}

fn print_draft_at<W: Write>(out: &mut W, drafts: &Drafts, index: usize) -> io::Result<()> {
    let Some(base) = drafts.draft(index) else {
        return Ok(());
    };
    let Some(draft) = drafts.draft_of(base.number()) else {
        return Ok(());
    };
    print_draft(out, draft)
}

/// Reads counts, which are kept shared, or prints why they are refused.
fn read_counts<W: Write>(alloc: Global, out: &mut W, text: &[u8]) -> io::Result<Option<Counts>> {
    match Counts::read(alloc, text) {
        Ok(counts) => Ok(Some(counts.try_clone().map_err(|_| no_memory())?)),
        Err(fault) => {
            print_refusal(out, fault)?;
            Ok(None)
        }
    }
}

/// Prints what was counted of the delivery with this number, where something was.
fn print_count_of<W: Write>(out: &mut W, counts: &Counts, number: &[u8]) -> io::Result<()> {
    let Ok(number) = read_delivery_number(number) else {
        return Ok(());
    };
    let Some(count) = counts.count_of(&number) else {
        return Ok(());
    };
    print_count(out, count)
}

/// The version of a delivery that is made by one more set, or none where it makes none.
fn version_behind(alloc: Global, seen: Option<DsdRecord>, set: &[u8]) -> Option<DsdRecord> {
    match set_of(alloc, set) {
        Ok(SetView::Base(base, seal)) => first_version(alloc, &base, &seal),
        Ok(SetView::Answer(answer, seal)) => {
            let mut record = seen?;
            record.apply(&answer, seal.check).ok()?;
            Some(record)
        }
        Err(_) => None,
    }
}

fn first_version(alloc: Global, base: &Base, seal: &Seal) -> Option<DsdRecord> {
    DsdRecord::from_base(alloc, base, seal.check).ok()
}

/// Prints what an end does on a version, where its last own proposal came to the cents that are spelled.
fn print_choice<W: Write, D: Decider>(
    alloc: Global,
    out: &mut W,
    end: &str,
    decider: &D,
    seen: &DsdRecord,
    own: &[u8],
) -> io::Result<()> {
    match decider.choose(alloc, seen, read_cents(own).ok()) {
        Ok(Choice::Accept) => writeln!(out, "{end} ACCEPT"),
        Ok(Choice::Adjust(lines)) => {
            writeln!(out, "{end} ADJUST")?;
            print_lines(out, lines.as_slice())
        }
        Ok(Choice::Wait) => writeln!(out, "{end} WAIT"),
        Err(_) => Err(no_memory()),
    }
}

impl Ends {
    /// Does what a part says.
    fn take<W: Write>(&mut self, alloc: Global, out: &mut W, part: &[u8]) -> io::Result<()> {
        let (line, text) = first_line(part);
        match str::from_utf8(line).unwrap_or("") {
            "DRAFTS" => self.drafts = read_drafts(alloc, out, text)?,
            "COUNTS" => self.counts = read_counts(alloc, out, text)?,
            "COUNT" => self.print_count(out, text)?,
            "SET" => self.take_set(alloc, out, text)?,
            "CHOOSE" => self.print_choices(alloc, out, text)?,
            _ => {}
        }
        out.write_all(&[FORM_FEED])
    }

    fn print_count<W: Write>(&self, out: &mut W, number: &[u8]) -> io::Result<()> {
        match &self.counts {
            Some(counts) => print_count_of(out, counts, number),
            None => Ok(()),
        }
    }

    fn take_set<W: Write>(&mut self, alloc: Global, out: &mut W, set: &[u8]) -> io::Result<()> {
        self.seen = version_behind(alloc, self.seen.take(), set);
        match &self.seen {
            Some(seen) => print_version(out, seen),
            None => Ok(()),
        }
    }

    fn print_choices<W: Write>(&self, alloc: Global, out: &mut W, own: &[u8]) -> io::Result<()> {
        let Some(seen) = &self.seen else {
            return Ok(());
        };
        if let Some(drafts) = &self.drafts {
            print_choice(alloc, out, "SUPPLIER", drafts, seen, own)?;
        }
        if let Some(counts) = &self.counts {
            print_choice(alloc, out, "RECEIVER", counts, seen, own)?;
        }
        Ok(())
    }
}

fn main(rt: HostRuntime) -> io::Result<()> {
    let alloc = rt.alloc();
    let mut ends = Ends {
        drafts: None,
        counts: None,
        seen: None,
    };
    let mut out = BufWriter::new(alloc, io::writer(&rt))?;
    for part in BufReader::new(alloc, rt.reader())?.split(alloc, FORM_FEED) {
        ends.take(alloc, &mut out, &part?)?;
    }
    out.flush()
}
