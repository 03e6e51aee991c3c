//! `handheld` and `receiver`: one end, from its opening to what is printed of it.

ghost use Rattle.std.specs.Prelude.{◌≡◌, ◌≤◌, ◌⊎◌, List, false, IfOk};
ghost use Rattle.dsd_journal.specs.Journals.{Rests};
ghost use Rattle.dsd_station.specs.Told.{Told};
ghost use Rattle.dsd_journal.specs.declared.entry.Entry.{Entry};
ghost use Rattle.dsd_end.specs.Polls.{HearsMore};
ghost use Rattle.dsd_end.specs.RunSoFar.{Runs};
ghost use Rattle.dex_cli.specs.Ends.{Ends, HasRun, IsIdle, IsToldOfEnd, Polls};
ghost use Rattle.end_report.specs.Reports.{report_text};
ghost use Rattle.dex_cli.specs.Formatting.{served_of};

use crate::end_words::EndNames;
use crate::verdict::Verdict;
use dsd_end::{End, EndFault, open_end};
use dsd_journal::OpenFault;
use dsd_record::Decider;
use dsd_station::Station;
use dsd_values::Role;
use end_report::{Ending, LastRun, are_settled, put_report};
use std::alloc::{AllocError, Global};

/// What is printed of an end.
#[derive(Debug, Drop)]
pub struct EndReport {
    /// All of it.
    pub text: Vec<u8>,
    /// How its session ended.
    pub ending: Ending,
    /// Whether each delivery of its journal and each draft is final.
    pub settled: bool,
}

/// Attaches the station to a journal and a port, and runs the end of this role there with these choices.
pub fn run_end<T: Station, D: Decider>(
    alloc: Global,
    role: Role,
    names: &EndNames,
    decider: D,
    station: &mut T,
) -> Result<Verdict, AllocError>
    ensures told { IfOk result (Ends T.tells role (D.chooser decider) names.now (served_of T.told T.faults station.old station.new)) }
    // Whatever it answers: nothing was written or spoken, or each stop leaves a run.
    ensures left { T.tells → IsIdle names.now (T.told station.old) (T.told station.new) ⊎ HasRun role (D.chooser decider) names.now (T.told station.old) (T.told station.new) }
    ensures later { T.faults station.old ≤ T.faults station.new }
{
    if station
        .attach(names.journal.as_str(), names.port.as_str())
        .is_err()
    {
        return Ok(Verdict::StationFault);
    }
    match open_end(alloc, station, role, decider) {
        Ok(mut end) => run_opened(alloc, &mut end, station),
        Err(OpenFault::NotAJournal(place)) => Ok(Verdict::NotAJournal(place)),
        Err(OpenFault::Station) => Ok(Verdict::StationFault),
        Err(OpenFault::Memory) => Err(AllocError),
    }
}

/// Polls an end that was opened to the end of its session.
fn run_opened<T: Station, D: Decider>(
    alloc: Global,
    end: &mut End<D>,
    station: &mut T,
) -> Result<Verdict, AllocError>
    requires fresh { end.old.core.standing.failed ≡ false }
    requires rests { T.tells → Rests end.old.core.book.header end.old.core.book.known (T.told station.old) }
    ensures told { IfOk result (Polls T.tells (D.chooser end.old.decider) end.old.core.standing end.new.core.standing (served_of T.told T.faults station.old station.new)) }
    ensures hears { T.tells → HearsMore (T.told station.old) (T.told station.new) }
    ensures runs { T.tells → (first : List Entry) (beginning : Told) → Runs (D.chooser end.old.decider) first beginning end.old.core.standing (T.told station.old)
        → Runs (D.chooser end.old.decider) first beginning end.new.core.standing (T.told station.new) }
    ensures later { T.faults station.old ≤ T.faults station.new }
{
    match end.run(station) {
        Ok(ended) => report(alloc, end, Ending::Session(ended)),
        Err(EndFault::Noise(_)) => report(alloc, end, Ending::Noise),
        Err(EndFault::Full(length)) => Ok(Verdict::Full(length)),
        Err(EndFault::Station) => Ok(Verdict::StationFault),
        Err(EndFault::Memory) => Err(AllocError),
        Err(EndFault::Failed) => unreachable!(),
    }
}

/// The verdict on an end whose session ended so.
fn report<D: Decider>(alloc: Global, end: &End<D>, ending: Ending) -> Result<Verdict, AllocError>
    ensures { IfOk result (IsToldOfEnd end.now.core.book.known (D.chooser end.now.decider).drafts end.now.core.standing.desk.refused ending) }
{
    let text = text_of(alloc, end, &ending)?;
    Ok(told(text, ending, are_settled(end.book(), end.decider())))
}

fn text_of<D: Decider>(alloc: Global, end: &End<D>, ending: &Ending) -> Result<Vec<u8>, AllocError>
    ensures { IfOk result (λ text. text.items ≡ report_text end.now.core.book.known (D.chooser end.now.decider).drafts end.now.core.standing.desk.refused (LastRun.Ended ending.now)) }
{
    let mut text = Vec::new(alloc);
    put_report(
        alloc,
        &mut text,
        end.book(),
        end.decider(),
        end.refused(),
        LastRun::Ended(*ending),
    )?;
    Ok(text)
}

fn told(text: Vec<u8>, ending: Ending, settled: bool) -> Verdict
    ensures { result ≡ Verdict.Ran (record { text = text; ending = ending; settled = settled }) }
{
    Verdict::Ran(EndReport {
        text,
        ending,
        settled,
    })
}
