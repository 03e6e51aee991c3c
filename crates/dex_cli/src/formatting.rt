//! `format`: a journal is made.

ghost use Rattle.std.specs.Prelude.{◌≤◌};
ghost use Rattle.dex_cli.specs.Formatting.{served_of, Formats};

use crate::format_words::NewJournal;
use crate::verdict::Verdict;
use dsd_journal::{FormatFault, format};
use dsd_station::Station;

/// Attaches the station to a journal, without a port, and makes the journal, unless it has bytes already.
pub fn make_journal<T: Station>(new: &NewJournal, station: &mut T) -> Verdict
    ensures told { Formats T.tells new.now (served_of T.told T.faults station.old station.new) result }
    ensures later { T.faults station.old ≤ T.faults station.new }
{
    if station.attach(new.journal.as_str(), "").is_err() {
        return Verdict::StationFault;
    }
    let header = &new.header;
    match format(station, header.role, header.own, header.peer) {
        Ok(()) => Verdict::Formatted,
        Err(FormatFault::NotEmpty(size)) => Verdict::NotEmpty(size),
        Err(FormatFault::Station) => Verdict::StationFault,
    }
}
