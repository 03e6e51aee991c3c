//! Making a journal.

ghost use Rattle.std.specs.Prelude.{◌≤◌, ◌≡◌, ◌⊎◌, [], Err};
ghost use Rattle.dsd_station.specs.Causes.{HasCause, Rose};
ghost use Rattle.dsd_station.specs.Told.{ReadMayStay};
ghost use Rattle.dsd_journal.specs.Devices.{Formats, WritesHeader};

use crate::header::{Header, formatted_bytes};
use dsd_station::{Failed, Station};
use dsd_values::{CommId, Role};
use thiserror::Error;

/// Why a journal was not formatted.
#[derive(Clone, Copy, Debug, PartialEq, Eq, Error)]
pub enum FormatFault {
    /// The journal has this many bytes, and nothing was written.
    #[error("the journal has {0} bytes already")]
    NotEmpty(u64),
    /// A call of the station failed.
    #[error("the station failed")]
    Station,
}

/// Writes a journal without entries over an empty one, and makes sure of it.
///
/// After an `Ok` each stop leaves it. After `Station` the journal is as it was, or has the header in part: then its
/// file has to be removed before it is formatted again. A stop within the call may leave a part too.
pub fn format<T: Station>(
    station: &mut T,
    role: Role,
    own: CommId,
    peer: CommId,
) -> Result<(), FormatFault>
    ensures later { T.faults station.old ≤ T.faults station.new }
    ensures cause { result ≡ Err FormatFault.Station → Rose (T.faults station.old) (T.faults station.new) }
    ensures kept { (result ≡ Err FormatFault.Station) ⊎ (T.faults station.new ≡ T.faults station.old) }
    ensures told { T.tells → Formats (record { role = role; own = own; peer = peer }) result (T.told station.old) (T.told station.new) }
    ensures stays { T.tells → ReadMayStay (T.told station.new) }
{
    match station.size() {
        Err(_) => Err(FormatFault::Station),
        Ok(0) => match write_header(station, &Header { role, own, peer }) {
            Ok(()) => Ok(()),
            Err(_) => Err(FormatFault::Station),
        },
        Ok(size) => Err(FormatFault::NotEmpty(size)),
    }
}

/// Writes the header and a closed gate over an empty journal, and makes sure of them.
fn write_header<T: Station>(station: &mut T, header: &Header) -> Result<(), Failed>
    ensures cause { HasCause (T.faults station.old) (T.faults station.new) result }
    ensures told { T.tells → (T.told station.old).journal ≡ [] → WritesHeader header.now result (T.told station.old) (T.told station.new) }
    ensures stays { T.tells → ReadMayStay (T.told station.new) }
{
    let bytes = formatted_bytes(header);
    match station.write_at(0, &bytes) {
        Ok(()) => station.sync(),
        Err(failed) => Err(failed),
    }
}
