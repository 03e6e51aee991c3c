//! The reports of verdicts: all that is printed of a run.

ghost use Rattle.std.specs.Prelude.{◌≡◌, ◌++◌, codes, OnErr, IfOk, OnOk, length};
ghost use Rattle.std.specs.Cow.{cow_slice_items};
ghost use Rattle.std.specs.Fmt.{decimal};
ghost use Rattle.dex_line.specs.Captured.{frames_in};
ghost use Rattle.dex_cli.specs.Texts.{ending_text, frames_text, journal_text, load_text, printed, refused_line, set_text, sets_text};
ghost use Rattle.end_report.specs.Lines.{line, both};
ghost use Rattle.dex_cli.specs.Verdicts.{IsComposed, status_at, status_of as status, status_of_end, status_of_line, status_of_world};

use crate::check_line::put_captured;
use crate::end_job::EndReport;
use crate::journal_summary::{JournalSummary, put_journal};
use crate::refusal::{Refusal, put_refusal};
use crate::status::{
    DONE, INPUT_REFUSED, JOURNAL_FULL, JOURNAL_REFUSED, OPEN, PARTNER_REFUSED, SESSION_LOST,
    SOURCE_FAILED, STATION_FAILED, TOO_MUCH_HEARD, WORDS_REFUSED,
};
use crate::summary::{SetSummary, put_set};
use crate::text_summary::{TextSummary, put_text};
use crate::verdict::Verdict;
use cable_world::WorldReport;
use dex_handshake::SessionEnd;
use end_report::{Ending, put, put_bytes, put_count};
use std::alloc::{AllocError, Global};
use std::borrow::CowSlice;

/// What is printed, and the status that goes with it.
#[derive(Drop)]
pub struct Report {
    pub text: CowSlice<'static, u8>,
    pub status: u8,
}

/// The report of a verdict. A line that is always the same takes no memory.
#[tactic(auto, unfolding(crate::specs::Texts::printed))]
pub fn report_of(alloc: Global, verdict: &Verdict) -> Result<Report, AllocError>
    ensures text { IfOk result (λ report. cow_slice_items report.text ≡ printed verdict.now) }
    ensures status { IfOk result (λ report. report.status ≡ status verdict.now) }
    ensures memory { OnErr result (IsComposed verdict.now) }
{
    match verdict {
        Verdict::Words => Ok(fixed(b"WORDS\n", WORDS_REFUSED)),
        Verdict::SourceFault => Ok(fixed(b"FAULT SOURCE\n", SOURCE_FAILED)),
        Verdict::StationFault => Ok(fixed(b"FAULT STATION\n", STATION_FAILED)),
        Verdict::Formatted => Ok(fixed(b"FORMATTED\n", DONE)),
        Verdict::Refused(refusal) => of_refusal(alloc, refusal),
        Verdict::Set(set) => of_set(alloc, set),
        Verdict::Text(text) => of_text(alloc, text),
        Verdict::Line(captured) => of_line(alloc, captured),
        Verdict::NotEmpty(size) => of_journal_fault(alloc, "NOT EMPTY", *size),
        Verdict::Shown(journal) => of_journal(alloc, journal),
        Verdict::NotAJournal(place) => of_journal_fault(alloc, "NOT A JOURNAL", *place),
        Verdict::Ran(end) => of_end(alloc, end),
        Verdict::Full(length) => of_full_journal(alloc, *length),
        Verdict::Replayed(report) => of_world(alloc, report),
        Verdict::Loaded(count, report) => of_route(alloc, *count, report),
    }
}

fn fixed(text: &'static [u8], status: u8) -> Report
    ensures text { cow_slice_items result.text ≡ text.now }
    ensures status { result.status ≡ status }
{
    Report {
        text: CowSlice::Borrowed(text),
        status,
    }
}

fn made(text: Vec<u8>, status: u8) -> Report
    ensures text { cow_slice_items result.text ≡ text.items }
    ensures status { result.status ≡ status }
{
    Report {
        text: CowSlice::Owned(text),
        status,
    }
}

fn of_refusal(alloc: Global, refusal: &Refusal) -> Result<Report, AllocError>
    ensures text { IfOk result (λ report. cow_slice_items report.text ≡ refused_line refusal.now) }
    ensures status { IfOk result (λ report. report.status ≡ INPUT_REFUSED) }
{
    let mut out = Vec::new(alloc);
    put_refusal(alloc, &mut out, refusal)?;
    Ok(made(out, INPUT_REFUSED))
}

fn of_set(alloc: Global, set: &SetSummary) -> Result<Report, AllocError>
    ensures text { IfOk result (λ report. cow_slice_items report.text ≡ set_text set.now ++ line (codes "OK")) }
    ensures status { IfOk result (λ report. report.status ≡ DONE) }
{
    let mut out = Vec::new(alloc);
    put_set(alloc, &mut out, set)?;
    put(&mut out, "OK\n")?;
    Ok(made(out, DONE))
}

fn of_text(alloc: Global, text: &TextSummary) -> Result<Report, AllocError>
    ensures text { IfOk result (λ report. cow_slice_items report.text ≡ sets_text text.now.sets.items ++ ending_text (length text.now.sets.items) text.now.ending) }
    ensures status { IfOk result (λ report. report.status ≡ status_at text.now.ending) }
{
    let mut out = Vec::new(alloc);
    let status = put_text(alloc, &mut out, text)?;
    Ok(made(out, status))
}

fn of_line(alloc: Global, captured: &[u8]) -> Result<Report, AllocError>
    ensures text { IfOk result (λ report. cow_slice_items report.text ≡ frames_text (frames_in captured.now)) }
    ensures status { IfOk result (λ report. report.status ≡ status_of_line captured.now) }
{
    let mut out = Vec::new(alloc);
    let status = put_captured(alloc, &mut out, captured)?;
    Ok(made(out, status))
}

fn of_journal(alloc: Global, journal: &JournalSummary) -> Result<Report, AllocError>
    ensures text { IfOk result (λ report. cow_slice_items report.text ≡ journal_text journal.now) }
    ensures status { IfOk result (λ report. report.status ≡ DONE) }
{
    let mut out = Vec::new(alloc);
    put_journal(alloc, &mut out, journal)?;
    Ok(made(out, DONE))
}

/// The report of a journal that is refused: what is wrong with it, and a number of bytes.
fn of_journal_fault(alloc: Global, name: &str, bytes: u64) -> Result<Report, AllocError>
    ensures text { IfOk result (λ report. cow_slice_items report.text ≡ line (both name.now (decimal bytes))) }
    ensures status { IfOk result (λ report. report.status ≡ JOURNAL_REFUSED) }
{
    let mut out = Vec::new(alloc);
    put_count(alloc, &mut out, name, bytes)?;
    Ok(made(out, JOURNAL_REFUSED))
}

fn of_end(alloc: Global, end: &EndReport) -> Result<Report, AllocError>
    ensures text { IfOk result (λ report. cow_slice_items report.text ≡ end.now.text.items) }
    ensures status { IfOk result (λ report. report.status ≡ status_of_end end.now.ending end.now.settled) }
{
    let mut out = Vec::new(alloc);
    put_bytes(&mut out, &end.text)?;
    Ok(made(out, status_of(end.ending, end.settled)))
}

fn of_full_journal(alloc: Global, length: u64) -> Result<Report, AllocError>
    ensures text { IfOk result (λ report. cow_slice_items report.text ≡ line (both (codes "FULL") (decimal length))) }
    ensures status { IfOk result (λ report. report.status ≡ JOURNAL_FULL) }
{
    let mut out = Vec::new(alloc);
    put_count(alloc, &mut out, "FULL", length)?;
    Ok(made(out, JOURNAL_FULL))
}

fn of_world(alloc: Global, world: &WorldReport) -> Result<Report, AllocError>
    ensures text { IfOk result (λ report. cow_slice_items report.text ≡ world.now.lines.items) }
    ensures status { IfOk result (λ report. report.status ≡ status_of_world world.now.all_final) }
{
    let mut out = Vec::new(alloc);
    put_bytes(&mut out, &world.lines)?;
    Ok(made(out, status_of_played(world.all_final)))
}

fn of_route(alloc: Global, count: u32, world: &WorldReport) -> Result<Report, AllocError>
    ensures text { IfOk result (λ report. cow_slice_items report.text ≡ load_text count world.now) }
    ensures status { IfOk result (λ report. report.status ≡ status_of_world world.now.all_final) }
{
    let mut out = Vec::new(alloc);
    let status = status_of_played(world.all_final);
    put_route(alloc, &mut out, count, world)?;
    Ok(made(out, status))
}

#[tactic(auto, unfolding(crate::specs::Texts::load_text))]
fn put_route(
    alloc: Global,
    out: &mut Vec<u8>,
    count: u32,
    world: &WorldReport,
) -> Result<(), AllocError>
    ensures { OnOk result (out.new.items ≡ out.old.items ++ load_text count world.now) }
{
    put_count(alloc, out, "LOAD", u64::from(count))?;
    put_count(alloc, out, "FINAL", world.finals)?;
    put_count(alloc, out, "ADJUSTED", world.adjusted)?;
    put_count(alloc, out, "QUANTITY", world.quantity)?;
    put_count(alloc, out, "AMOUNT", world.amount)
}

/// The status of a script that was played.
fn status_of_played(all_final: bool) -> u8
    ensures { result ≡ status_of_world all_final }
{
    if all_final { DONE } else { OPEN }
}

/// The status of an end whose session ended so.
fn status_of(ending: Ending, settled: bool) -> u8
    ensures { result ≡ status_of_end ending settled }
{
    match ending {
        Ending::Session(SessionEnd::Complete) if settled => DONE,
        Ending::Session(SessionEnd::Complete) => OPEN,
        Ending::Session(SessionEnd::Silent) => SESSION_LOST,
        Ending::Session(SessionEnd::TriesSpent(_)) => SESSION_LOST,
        Ending::Session(SessionEnd::Unplugged) => SESSION_LOST,
        Ending::Session(SessionEnd::PartnerRefused(_)) => PARTNER_REFUSED,
        Ending::Session(SessionEnd::WrongPartner(_)) => PARTNER_REFUSED,
        Ending::Session(SessionEnd::TextLimit) => TOO_MUCH_HEARD,
        Ending::Noise => TOO_MUCH_HEARD,
    }
}
