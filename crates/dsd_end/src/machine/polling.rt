//! One poll of a machine.

ghost use Rattle.std.specs.Prelude.{◌≡◌, ◌<◌, ◌≤◌, ◌++◌, [], IfErr, List, OnOk, false, is_ok, true};
ghost use Rattle.dsd_station.specs.Causes.{HasCause};
ghost use Rattle.dsd_station.specs.Told.{IsSynced, ReadMayStay, Told};
ghost use Rattle.dsd_journal.specs.Journals.{Rests};
ghost use Rattle.dsd_journal.specs.declared.entry.Entry.{Entry};
ghost use Rattle.dex_line.specs.FrameShapes.{Enq};
ghost use Rattle.dex_line.specs.FrameSpelling.{spelling};
ghost use Rattle.dex_handshake.specs.SessionSeen.{session_seen};
ghost use Rattle.own_turn.specs.Desks.{FailsAtStation, IfFull};
ghost use Rattle.own_turn.specs.IdleTurns.{IfNoMemory};
ghost use Rattle.dsd_end.specs.BusyTurns.{PollBusy};
ghost use Rattle.dsd_end.specs.FullTurns.{PollFull};
ghost use Rattle.dsd_end.specs.EndCalls.{MakesCalls};
ghost use Rattle.dsd_end.specs.EndFaults.{IsQuietSoFar};
ghost use Rattle.dsd_end.specs.EndSteps.{Says};
ghost use Rattle.dsd_end.specs.MachineSeen.{standing_of, IsReady};
ghost use Rattle.dsd_end.specs.Polls.{HearsOnce, Polled, failed_by, with_flags};
ghost use Rattle.dsd_end.specs.RunSoFar.{Runs};
ghost use Rattle.dsd_end.specs.Standings.{has_ended as ended_at};
ghost use Rattle.dsd_end.specs.declared.fault.TheConstants.{NOISE_BYTES as noise_bytes};

use super::Machine;
use crate::fault::NOISE_BYTES;
use crate::saying::say;
use dex_line::Frame;
use dsd_record::Decider;
use dsd_station::Station;
use own_turn::TurnFault;

impl Machine {
    /// Whether the session goes on, and so many bytes were heard that they are noise.
    pub(crate) fn has_heard_noise(&self) -> bool
        ensures goes_on { result ≡ true → ended_at (session_seen self.now.session) ≡ false }
        ensures many { result ≡ true → noise_bytes ≤ self.now.heard }
        ensures not { result ≡ false → ended_at (session_seen self.now.session) ≡ false → self.now.heard < noise_bytes }
    {
        !self.has_ended() && self.heard >= NOISE_BYTES
    }

    // Listens once.
    fn listen<D: Decider, T: Station>(
        &mut self,
        station: &mut T,
        decider: &D,
    ) -> Result<(), TurnFault>
        requires ready { IsReady self.old }
        requires quiet { IsQuietSoFar (standing_of self.old) }
        requires rests { T.tells → Rests self.old.desk.book.header self.old.desk.book.known (T.told station.old) }
        ensures cause { FailsAtStation result (T.faults station.old) (T.faults station.new) }
        ensures full { IfFull result (PollFull T.tells (D.chooser decider.now) (standing_of self.old) (T.told station.old) (T.told station.new)) }
        ensures memory { IfNoMemory result (PollBusy T.tells (D.chooser decider.now) (standing_of self.old) (T.told station.old) (T.told station.new)) }
        ensures header { self.new.desk.book.header ≡ self.old.desk.book.header }
        ensures ready { OnOk result (IsReady self.new) }
        ensures rests { T.tells → OnOk result (Rests self.new.desk.book.header self.new.desk.book.known (T.told station.new)) }
        ensures talk { T.tells → HearsOnce (T.told station.old) (T.told station.new) }
        ensures calls { T.tells → MakesCalls (T.told station.old) (T.told station.new) }
        ensures step { OnOk result (Polled T.tells (D.chooser decider.now) (standing_of self.old) (standing_of self.new) (T.told station.old) (T.told station.new)) }
        ensures runs { T.tells → (first : List Entry) (beginning : Told) → Runs (D.chooser decider.now) first beginning (standing_of self.old) (T.told station.old)
            → Runs (D.chooser decider.now) first beginning (with_flags (standing_of self.new) false (failed_by result)) (T.told station.new) }
        ensures stays { T.tells → ReadMayStay (T.told station.old) → ReadMayStay (T.told station.new) }
    {
        let mut buffer = [0; 64];
        match station.listen(&mut buffer) {
            Ok(heard) => self.answer(station, decider, heard, &buffer),
            Err(_) => Err(TurnFault::Station),
        }
    }

    /// Says the supplier's first frame where that is still to come, and else listens once.
    pub(crate) fn go_on<D: Decider, T: Station>(
        &mut self,
        station: &mut T,
        decider: &D,
        first: bool,
    ) -> Result<(), TurnFault>
        requires ready { IsReady self.old }
        requires quiet { IsQuietSoFar (standing_of self.old) }
        requires rests { T.tells → Rests self.old.desk.book.header self.old.desk.book.known (T.told station.old) }
        ensures cause { FailsAtStation result (T.faults station.old) (T.faults station.new) }
        ensures full { IfFull result (PollFull T.tells (D.chooser decider.now) (with_flags (standing_of self.old) first false) (T.told station.old) (T.told station.new)) }
        ensures memory { IfNoMemory result (PollBusy T.tells (D.chooser decider.now) (with_flags (standing_of self.old) first false) (T.told station.old) (T.told station.new)) }
        ensures header { self.new.desk.book.header ≡ self.old.desk.book.header }
        ensures ready { OnOk result (IsReady self.new) }
        ensures rests { T.tells → OnOk result (Rests self.new.desk.book.header self.new.desk.book.known (T.told station.new)) }
        ensures talk { T.tells → HearsOnce (T.told station.old) (T.told station.new) }
        ensures calls { T.tells → MakesCalls (T.told station.old) (T.told station.new) }
        ensures step { OnOk result (Polled T.tells (D.chooser decider.now) (with_flags (standing_of self.old) first false) (standing_of self.new) (T.told station.old) (T.told station.new)) }
        ensures runs { T.tells → (opening : List Entry) (beginning : Told) → Runs (D.chooser decider.now) opening beginning (with_flags (standing_of self.old) first false) (T.told station.old)
            → Runs (D.chooser decider.now) opening beginning (with_flags (standing_of self.new) false (failed_by result)) (T.told station.new) }
        ensures stays { T.tells → ReadMayStay (T.told station.old) → ReadMayStay (T.told station.new) }
    {
        if first {
            begin(station)
        } else {
            self.listen(station, decider)
        }
    }
}

// Says the supplier's first frame.
fn begin<T: Station>(station: &mut T) -> Result<(), TurnFault>
    requires synced { T.tells → IsSynced (T.told station.old) }
    ensures cause { FailsAtStation result (T.faults station.old) (T.faults station.new) }
    ensures full { IfFull result (λ n. ⊥) }
    ensures memory { IfNoMemory result ⊥ }
    ensures told { T.tells → Says (spelling Enq ++ []) (is_ok result) (T.told station.old) (T.told station.new) }
    ensures stays { T.tells → ReadMayStay (T.told station.old) → ReadMayStay (T.told station.new) }
{
    match say(station, &Some(Frame::Enq)) {
        Ok(()) => Ok(()),
        Err(_) => Err(TurnFault::Station),
    }
}
