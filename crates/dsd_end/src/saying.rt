//! Saying a frame.

ghost use Rattle.std.specs.Prelude.{◌≡◌, is_ok};
ghost use Rattle.std.specs.List.{flat_map};
ghost use Rattle.dsd_station.specs.Causes.{HasCause};
ghost use Rattle.dsd_station.specs.Told.{IsSynced, ReadMayStay};
ghost use Rattle.dex_line.specs.FrameShapes.{answer_seen, frame_seen};
ghost use Rattle.dex_line.specs.FrameSpelling.{spelling, IsSpoken};
ghost use Rattle.dex_handshake.specs.LineRun.{said_of};
ghost use Rattle.dex_handshake.specs.Sound.{IsSaid};
ghost use Rattle.dsd_end.specs.EndSteps.{Says};

use dex_line::{Frame, spell};
use dsd_station::{Failed, Station};

/// Says the frame, where there is one.
pub(crate) fn say<T: Station>(station: &mut T, frame: &Option<Frame>) -> Result<(), Failed>
    requires spoken { IsSaid IsSpoken (answer_seen frame.now) }
    requires synced { T.tells → IsSynced (T.told station.old) }
    ensures cause { HasCause (T.faults station.old) (T.faults station.new) result }
    ensures told { T.tells → Says (flat_map spelling (said_of (answer_seen frame.now))) (is_ok result) (T.told station.old) (T.told station.new) }
    ensures stays { T.tells → ReadMayStay (T.told station.old) → ReadMayStay (T.told station.new) }
{
    match frame {
        None => Ok(()),
        Some(frame) => speak(station, frame),
    }
}

fn speak<T: Station>(station: &mut T, frame: &Frame) -> Result<(), Failed>
    requires spoken { IsSpoken (frame_seen frame.now) }
    requires synced { T.tells → IsSynced (T.told station.old) }
    ensures cause { HasCause (T.faults station.old) (T.faults station.new) result }
    ensures told { T.tells → Says (spelling (frame_seen frame.now)) (is_ok result) (T.told station.old) (T.told station.new) }
    ensures stays { T.tells → ReadMayStay (T.told station.new) }
{
    let bytes = spell(frame);
    station.speak(bytes.as_slice())
}
