//! What is printed of a journal.

ghost use Rattle.std.specs.Prelude.{◌≡◌, ◌<◌, ◌++◌, length, IfOk, OnOk, Some, slice_index_or};
ghost use Rattle.std.specs.List.{filter_map};
ghost use Rattle.dsd_journal.specs.declared.entry.Entry.{Entry};
ghost use Rattle.delivery_book.specs.Signing.{Legal};
ghost use Rattle.dex_cli.specs.JournalSummaries.{IsToldOf, entry_told};
ghost use Rattle.dex_cli.specs.Texts.{entries_text, header_line, journal_text, title_text};

use crate::entry_summary::{EntrySummary, put_entry, summary_with};
use dsd_journal::{Header, Journal};
use dsd_record::set_of;
use dsd_values::Role;
use end_report::{put, put_bytes, put_count};
use std::alloc::{AllocError, Global};
use transaction_set::SetFault;

/// What is printed of a journal.
#[derive(Debug, Drop)]
pub struct JournalSummary {
    pub header: Header,
    pub entries: Vec<EntrySummary>,
}

/// The summary of a journal whose entries are legal.
pub fn journal_summary(alloc: Global, journal: &Journal) -> Result<JournalSummary, AllocError>
    requires legal { Legal journal.now.header.role journal.now.entries }
    ensures { IfOk result (IsToldOf journal.now.header journal.now.entries) }
{
    let entries = entry_summaries(alloc, journal)?;
    let header = Header {
        role: journal.role(),
        own: journal.own(),
        peer: journal.peer(),
    };
    Ok(JournalSummary { header, entries })
}

fn entry_summaries(alloc: Global, journal: &Journal) -> Result<Vec<EntrySummary>, AllocError>
    requires legal { Legal journal.now.header.role journal.now.entries }
    ensures { IfOk result (λ entries. entries.items ≡ filter_map entry_told journal.now.entries) }
{
    let mut entries = Vec::with_capacity(alloc, journal.len())?;
    for index in 0..journal.len() {
        let entry = entry_summary(alloc, journal, index)?;
        entries.push(entry)?;
    }
    Ok(entries)
}

/// The summary of an entry. Each entry of a legal list is a set.
fn entry_summary(alloc: Global, journal: &Journal, index: usize) -> Result<EntrySummary, AllocError>
    requires within { index < length journal.now.entries }
    requires legal { Legal journal.now.header.role journal.now.entries }
    ensures { (none : Entry) → IfOk result (λ entry. entry_told (slice_index_or journal.now.entries index none) ≡ Some entry) }
{
    match set_of(alloc, journal.payload(index)) {
        Ok(set) => Ok(summary_with(journal.kind(index), set)),
        Err(SetFault::Memory) => Err(AllocError),
        Err(SetFault::Refused { .. }) => unreachable!(),
    }
}

/// Prints whose a journal is, its entries, and how many there are.
#[tactic(auto, unfolding(crate::specs::Texts::journal_text))]
pub fn put_journal(
    alloc: Global,
    out: &mut Vec<u8>,
    journal: &JournalSummary,
) -> Result<(), AllocError>
    ensures { OnOk result (out.new.items ≡ out.old.items ++ journal_text journal.now) }
{
    put_header(out, &journal.header)?;
    put_entries(alloc, out, &journal.entries)?;
    put_count(alloc, out, "ENTRIES", journal.entries.len() as u64)
}

fn put_header(out: &mut Vec<u8>, header: &Header) -> Result<(), AllocError>
    ensures { OnOk result (out.new.items ≡ out.old.items ++ header_line header.now) }
{
    put(out, title(header.role))?;
    put(out, " ")?;
    put_bytes(out, &header.own.get())?;
    put(out, " ")?;
    put_bytes(out, &header.peer.get())?;
    put(out, "\n")
}

fn title(role: Role) -> &'static str
    ensures { result.now ≡ title_text role }
{
    match role {
        Role::Supplier => "JOURNAL HANDHELD",
        Role::Receiver => "JOURNAL RECEIVER",
    }
}

/// Prints a line for each entry, numbered from 1.
fn put_entries(alloc: Global, out: &mut Vec<u8>, entries: &[EntrySummary]) -> Result<(), AllocError>
    ensures { OnOk result (out.new.items ≡ out.old.items ++ entries_text 1 entries.now) }
{
    let mut number = 0u64;
    for entry in entries {
        number += 1;
        put_entry(alloc, out, number, entry)?;
    }
    Ok(())
}
