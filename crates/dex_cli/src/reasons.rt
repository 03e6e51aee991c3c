//! The printed texts of the reasons against a set.

ghost use Rattle.std.specs.Prelude.{◌≡◌, ◌++◌, codes, OnOk};
ghost use Rattle.std.specs.Fmt.{decimal};
ghost use Rattle.dex_cli.specs.Texts.{draft_reason_text, fault_text, segment_fault_text, set_reason_text};
ghost use Rattle.end_report.specs.Lines.{both};

use dsd_record::DraftReason;
use dsd_values::{ValueFault, write_check};
use end_report::{put, put_bytes, put_named, put_number, put_signed};
use segments::SegmentFault;
use std::alloc::{AllocError, Global};
use transaction_set::SetReason;

/// The printed text of a fault of a segment.
pub fn segment_fault(fault: SegmentFault) -> &'static str
    ensures { result.now ≡ segment_fault_text fault }
{
    match fault {
        SegmentFault::NoEnd(_) => "SEGMENT NOEND",
        SegmentFault::BadByte(_, _) => "SEGMENT BADBYTE",
        SegmentFault::BadId(_) => "SEGMENT BADID",
        SegmentFault::TooLong(_) => "SEGMENT TOOLONG",
        SegmentFault::TooManyElements(_) => "SEGMENT ELEMENTS",
    }
}

fn put_fault(alloc: Global, out: &mut Vec<u8>, fault: ValueFault) -> Result<(), AllocError>
    ensures { OnOk result (out.new.items ≡ out.old.items ++ fault_text fault) }
{
    match fault {
        ValueFault::Empty => put(out, "EMPTY"),
        ValueFault::TooLong(length) => put_named(alloc, out, "TOOLONG", length as u64),
        ValueFault::NotDigit(place) => put_named(alloc, out, "NOTDIGIT", place as u64),
        ValueFault::TooManyDecimals(count) => put_named(alloc, out, "DECIMALS", count as u64),
        ValueFault::OutOfRange => put(out, "RANGE"),
        ValueFault::NoSuchDay => put(out, "NOSUCHDAY"),
    }
}

/// Prints a number that is stated and the one that was found.
pub fn put_counts(alloc: Global, out: &mut Vec<u8>, said: u64, found: u64) -> Result<(), AllocError>
    ensures { OnOk result (out.new.items ≡ out.old.items ++ both (codes "COUNT") (both (decimal said) (decimal found))) }
{
    put_named(alloc, out, "COUNT", said)?;
    put(out, " ")?;
    put_number(alloc, out, found)
}

/// Prints a reason.
pub fn put_set_reason(
    alloc: Global,
    out: &mut Vec<u8>,
    reason: &SetReason,
) -> Result<(), AllocError>
    ensures { OnOk result (out.new.items ≡ out.old.items ++ set_reason_text reason.now) }
{
    match reason {
        SetReason::Segment(fault) => put(out, segment_fault(*fault)),
        SetReason::Order => put(out, "ORDER"),
        SetReason::Limit => put(out, "LIMIT"),
        SetReason::Value { element, fault } => {
            put_named(alloc, out, "VALUE", *element as u64)?;
            put(out, " ")?;
            put_fault(alloc, out, *fault)
        }
        SetReason::Twice(dsd) => put_named(alloc, out, "TWICE", u64::from(dsd.get())),
        SetReason::Totals { said, computed } => {
            put_named(alloc, out, "TOTALS", *said)?;
            put(out, " ")?;
            put_signed(alloc, out, *computed)
        }
        SetReason::Check { said, computed } => {
            put(out, "CHECK ")?;
            put_bytes(out, write_check(*said).as_slice())?;
            put(out, " ")?;
            put_bytes(out, write_check(*computed).as_slice())
        }
        SetReason::Count { said, found } => put_counts(alloc, out, *said, *found),
        SetReason::Control => put(out, "CONTROL"),
    }
}

/// Prints a reason against drafts, counts or a script.
pub fn put_draft_reason(
    alloc: Global,
    out: &mut Vec<u8>,
    reason: DraftReason,
) -> Result<(), AllocError>
    ensures { OnOk result (out.new.items ≡ out.old.items ++ draft_reason_text reason) }
{
    match reason {
        DraftReason::Line => put(out, "LINE"),
        DraftReason::Words => put(out, "WORDS"),
        DraftReason::Value { word, fault: _ } => put_named(alloc, out, "VALUE", word as u64),
        DraftReason::Twice => put(out, "TWICE"),
        DraftReason::Limit => put(out, "LIMIT"),
        DraftReason::Price => put(out, "PRICE"),
    }
}
