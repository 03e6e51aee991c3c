ghost use Rattle.std.specs.Prelude.{◌≤◌, length};
ghost use Rattle.dsd_station.specs.Causes.{HasCause};
ghost use Rattle.dsd_station.specs.Puts.{Puts};
ghost use Rattle.dsd_station.specs.Told.{IsSynced, ReadMayStay};

use crate::{Failed, Station};

/// Writes bytes at a place and makes sure of them, over a journal of which all is sure. After a failure the
/// range may hold any bytes.
pub fn write_through<T: Station>(station: &mut T, at: u64, bytes: &[u8]) -> Result<(), Failed>
    requires within { T.tells → at ≤ length (T.told station.old).journal }
    requires synced { T.tells → IsSynced (T.told station.old) }
    ensures cause { HasCause (T.faults station.old) (T.faults station.new) result }
    ensures told { T.tells → Puts at bytes.now result (T.told station.old) (T.told station.new) }
    ensures stays { T.tells → ReadMayStay (T.told station.new) }
{
    match station.write_at(at, bytes) {
        Ok(()) => station.sync(),
        Err(failed) => Err(failed),
    }
}
