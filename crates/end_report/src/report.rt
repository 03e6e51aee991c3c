//! What is printed of the deliveries of an end.

ghost use Rattle.std.specs.Prelude.{◌≡◌, ◌<◌, ◌++◌, OnOk, codes, length};
ghost use Rattle.delivery_book.specs.Lookups.{number_at, numbers_of, seen_of};
ghost use Rattle.end_report.specs.Lines.{both, line};
ghost use Rattle.end_report.specs.Reports.{are_drafts_final, are_drafts_final_at_both, are_final, are_final_at_both, are_numbers_final, are_numbers_final_at_both, deliveries_text, delivery_text, refused_text, report_text, unproposed_by, unproposed_text};

use crate::ending::{LastRun, put_last_run};
use crate::lines::{put, put_bytes, put_count};
use crate::settled::{put_final, put_open};
use base_record_894::Base;
use delivery_book::Book;
use dsd_record::Decider;
use dsd_values::DeliveryNumber;
use std::alloc::{AllocError, Global};

/// Prints all that is printed of an end: its deliveries, the drafts that are not proposed yet, how many sets were refused, and how its last run came out.
#[tactic(auto, unfolding(crate::specs::Reports::report_text))]
pub fn put_report<D: Decider>(
    alloc: Global,
    out: &mut Vec<u8>,
    book: &Book,
    decider: &D,
    refused: u64,
    last: LastRun,
) -> Result<(), AllocError>
    ensures { OnOk result (out.new.items ≡ out.old.items ++ report_text book.now.known (D.chooser decider.now).drafts refused last) }
{
    put_deliveries(alloc, out, book)?;
    put_unproposed(out, book, decider)?;
    put_refused(alloc, out, refused)?;
    put_last_run(alloc, out, last)
}

/// Prints the deliveries of a book in the order of their first entries: the final version of each, or the level of its highest proposal.
pub fn put_deliveries(alloc: Global, out: &mut Vec<u8>, book: &Book) -> Result<(), AllocError>
    ensures { OnOk result (out.new.items ≡ out.old.items ++ deliveries_text book.now.known) }
{
    for index in 0..book.deliveries() {
        put_delivery(alloc, out, book, index)?;
    }
    Ok(())
}

fn put_delivery(
    alloc: Global,
    out: &mut Vec<u8>,
    book: &Book,
    index: usize,
) -> Result<(), AllocError>
    requires { index < length (numbers_of book.now.known) }
    ensures { OnOk result (out.new.items ≡ out.old.items ++ delivery_text book.now.known (number_at book.now.known index)) }
{
    let number = book.number(index);
    match book.final_of(number) {
        Some(version) => put_final(alloc, out, version),
        None => put_open(alloc, out, number, book.seen(index)),
    }
}

/// Prints each draft of which a book knows nothing.
pub fn put_unproposed<D: Decider>(
    out: &mut Vec<u8>,
    book: &Book,
    decider: &D,
) -> Result<(), AllocError>
    ensures { OnOk result (out.new.items ≡ out.old.items ++ unproposed_text book.now.known (D.chooser decider.now).drafts) }
{
    for index in 0..decider.drafts() {
        let Some(draft) = decider.draft(index) else {
            unreachable!()
        };
        put_draft(out, book, draft)?;
    }
    Ok(())
}

fn put_draft(out: &mut Vec<u8>, book: &Book, draft: &Base) -> Result<(), AllocError>
    ensures { OnOk result (out.new.items ≡ out.old.items ++ unproposed_by draft.now.number (seen_of book.now.known draft.now.number)) }
{
    match book.find(draft.number()) {
        Some(index) => {
            // There is a version of it.
            let _ = book.seen(index);
            Ok(())
        }
        None => put_none(out, draft.number()),
    }
}

fn put_none(out: &mut Vec<u8>, number: &DeliveryNumber) -> Result<(), AllocError>
    ensures { OnOk result (out.new.items ≡ out.old.items ++ line (both (both (codes "OPEN") number.now) (codes "NONE"))) }
{
    put(out, "OPEN ")?;
    put_bytes(out, number.as_slice())?;
    put(out, " NONE\n")
}

/// Prints how many sets were refused, where some were.
pub fn put_refused(alloc: Global, out: &mut Vec<u8>, count: u64) -> Result<(), AllocError>
    ensures { OnOk result (out.new.items ≡ out.old.items ++ refused_text count) }
{
    match count {
        0 => Ok(()),
        _ => put_count(alloc, out, "REFUSED SETS", count),
    }
}

/// Whether each delivery of a book and each draft is final.
pub fn are_settled<D: Decider>(book: &Book, decider: &D) -> bool
    ensures { result ≡ are_final book.now.known (D.chooser decider.now).drafts }
{
    are_deliveries_settled(book, book) && are_drafts_settled(book, decider)
}

/// Whether each delivery of either book and each draft is final in both books.
pub fn are_settled_at_both<D: Decider>(one: &Book, other: &Book, decider: &D) -> bool
    ensures { result ≡ are_final_at_both one.now.known other.now.known (D.chooser decider.now).drafts }
{
    are_deliveries_settled_at_both(one, other, one)
        && are_deliveries_settled_at_both(one, other, other)
        && are_drafts_settled_at_both(one, other, decider)
}

fn are_deliveries_settled_at_both(one: &Book, other: &Book, named: &Book) -> bool
    ensures { result ≡ are_numbers_final_at_both one.now.known other.now.known (numbers_of named.now.known) }
{
    are_deliveries_settled(one, named) && are_deliveries_settled(other, named)
}

fn are_drafts_settled_at_both<D: Decider>(one: &Book, other: &Book, decider: &D) -> bool
    ensures { result ≡ are_drafts_final_at_both one.now.known other.now.known (D.chooser decider.now).drafts }
{
    are_drafts_settled(one, decider) && are_drafts_settled(other, decider)
}

/// Whether each delivery that another book names is final in a book.
fn are_deliveries_settled(book: &Book, named: &Book) -> bool
    ensures { result ≡ are_numbers_final book.now.known (numbers_of named.now.known) }
{
    for index in 0..named.deliveries() {
        if book.final_of(named.number(index)).is_none() {
            return false;
        }
    }
    true
}

fn are_drafts_settled<D: Decider>(book: &Book, decider: &D) -> bool
    ensures { result ≡ are_drafts_final book.now.known (D.chooser decider.now).drafts }
{
    for index in 0..decider.drafts() {
        let Some(draft) = decider.draft(index) else {
            unreachable!()
        };
        if book.final_of(draft.number()).is_none() {
            return false;
        }
    }
    true
}
