//! The device calls of an append.

ghost use Rattle.std.specs.Prelude.{◌<◌, ◌^◌, length};
ghost use Rattle.dsd_station.specs.Causes.{HasCause};
ghost use Rattle.dsd_station.specs.Told.{IsSynced, ReadMayStay};
ghost use Rattle.dsd_journal.specs.Steps.{Opened};

use crate::limits::OPEN_GATE;
use dsd_station::{Failed, Station, write_through};

/// Writes bytes behind a closed gate, makes sure of them, opens the gate and makes sure of it. Were the gate open
/// before the bytes are sure, a stop could leave any bytes behind it.
pub(crate) fn open_gate<T: Station>(station: &mut T, gate: u64, bytes: &[u8]) -> Result<(), Failed>
    requires place { gate < 2 ^ 32 }
    requires within { T.tells → gate < length (T.told station.old).journal }
    requires synced { T.tells → IsSynced (T.told station.old) }
    ensures cause { HasCause (T.faults station.old) (T.faults station.new) result }
    ensures told { T.tells → Opened gate bytes.now result (T.told station.old) (T.told station.new) }
    ensures stays { T.tells → ReadMayStay (T.told station.new) }
{
    match write_through(station, gate + 1, bytes) {
        Ok(()) => write_through(station, gate, &[OPEN_GATE]),
        Err(failed) => Err(failed),
    }
}
