//! What a run comes to.

use crate::end_job::EndReport;
use crate::journal_summary::JournalSummary;
use crate::refusal::Refusal;
use crate::summary::SetSummary;
use crate::text_summary::TextSummary;
use cable_world::WorldReport;

/// What a run comes to, before it is printed; want of memory aside.
#[derive(Debug, Drop)]
pub enum Verdict {
    /// The words are those of no job.
    Words,
    /// The source failed.
    SourceFault,
    /// A call of the station failed.
    StationFault,
    /// The input is refused.
    Refused(Refusal),
    /// The input is a set, of which this is printed.
    Set(SetSummary),
    /// The input is a text of sets, of which this is printed.
    Text(TextSummary),
    /// The input is these bytes, captured from one direction of the line.
    Line(Vec<u8>),
    /// The journal was made.
    Formatted,
    /// The journal has so many bytes already, and was left as it is.
    NotEmpty(u64),
    /// The journal holds entries, of which this is printed.
    Shown(JournalSummary),
    /// An end ran until its session ended or what it heard was noise, and this is printed of it.
    Ran(EndReport),
    /// The journal of an end has no room for the next entry, with which it would have so many bytes.
    Full(u64),
    /// It holds none that are legal for the end whose journal it is, or which runs, and is refused at this place.
    NotAJournal(u64),
    /// All events of a script were played, and this is printed of what both ends hold then.
    Replayed(WorldReport),
    /// The route of so many deliveries was played, and this is told of what both ends hold then.
    Loaded(u32, WorldReport),
}
