//! Where and why an input is refused.

ghost use Rattle.std.specs.Prelude.{◌≡◌, ◌++◌, OnOk};
ghost use Rattle.dex_cli.specs.Texts.{envelope_reason_text, reason_text, refused_line};

use crate::reasons::{put_counts, put_draft_reason, put_set_reason, segment_fault};
use dsd_record::DraftReason;
use dxs_envelope::EnvelopeReason;
use end_report::{put, put_number};
use std::alloc::{AllocError, Global};
use transaction_set::SetReason;

/// Where and why an input is refused.
#[derive(Debug, Drop)]
pub struct Refusal {
    /// The place in bytes from the start of the input.
    pub place: usize,
    pub reason: Reason,
}

/// Why an input is refused.
#[derive(Debug, Drop)]
pub enum Reason {
    /// A set is none, or the input is too long.
    Set(SetReason),
    /// A transmission is none.
    Envelope(EnvelopeReason),
    /// Drafts, counts or a script are none.
    Draft(DraftReason),
    /// A frame says another check than that of its bytes.
    Damaged,
    /// No frame begins so.
    Bad,
}

/// Prints the line of a refusal.
pub fn put_refusal(alloc: Global, out: &mut Vec<u8>, refusal: &Refusal) -> Result<(), AllocError>
    ensures { OnOk result (out.new.items ≡ out.old.items ++ refused_line refusal.now) }
{
    put(out, "REFUSED ")?;
    put_number(alloc, out, refusal.place as u64)?;
    put(out, " ")?;
    put_reason(alloc, out, &refusal.reason)?;
    put(out, "\n")
}

fn put_reason(alloc: Global, out: &mut Vec<u8>, reason: &Reason) -> Result<(), AllocError>
    ensures { OnOk result (out.new.items ≡ out.old.items ++ reason_text reason.now) }
{
    match reason {
        Reason::Set(reason) => put_set_reason(alloc, out, reason),
        Reason::Envelope(reason) => put_envelope_reason(alloc, out, *reason),
        Reason::Draft(reason) => put_draft_reason(alloc, out, *reason),
        Reason::Damaged => put(out, "DAMAGED"),
        Reason::Bad => put(out, "BAD"),
    }
}

fn put_envelope_reason(
    alloc: Global,
    out: &mut Vec<u8>,
    reason: EnvelopeReason,
) -> Result<(), AllocError>
    ensures { OnOk result (out.new.items ≡ out.old.items ++ envelope_reason_text reason) }
{
    match reason {
        EnvelopeReason::NoHeader => put(out, "NOHEADER"),
        EnvelopeReason::NoTrailer => put(out, "NOTRAILER"),
        EnvelopeReason::Count { said, found } => put_counts(alloc, out, said, found),
        EnvelopeReason::Control => put(out, "CONTROL"),
        EnvelopeReason::Function => put(out, "FUNCTION"),
        EnvelopeReason::Segment(fault) => put(out, segment_fault(fault)),
        EnvelopeReason::Tail => put(out, "TAIL"),
    }
}
