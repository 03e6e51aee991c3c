//! What an end does with what it hears.

ghost use Rattle.std.specs.Prelude.{◌≡◌, ◌≤◌, ◌<◌, ◌+◌, [], false, length, take, IfOk, IsSome, OnOk, is_ok};
ghost use Rattle.std.specs.List.{flat_map};
ghost use Rattle.dsd_station.specs.Told.{IsSynced, ReadMayStay};
ghost use Rattle.dsd_journal.specs.Devices.{KeepsTalk};
ghost use Rattle.dsd_journal.specs.Journals.{Rests};
ghost use Rattle.dex_line.specs.FrameShapes.{frame_seen};
ghost use Rattle.dex_line.specs.FrameSpelling.{spelling, IsSpoken};
ghost use Rattle.dex_line.specs.Scanning.{quieted};
ghost use Rattle.dex_handshake.specs.LineRun.{said_of};
ghost use Rattle.dex_handshake.specs.LineTable.{gives, turn_of};
ghost use Rattle.dex_handshake.specs.SessionSeen.{session_seen, step_seen};
ghost use Rattle.dex_handshake.specs.Sound.{IsSaid};
ghost use Rattle.dex_handshake.specs.StateSeen.{load_seen};
ghost use Rattle.own_turn.specs.Desks.{FailsAtStation, IfFull};
ghost use Rattle.own_turn.specs.IdleTurns.{IfNoMemory};
ghost use Rattle.dsd_end.specs.BusyTurns.{FrameBusy, TurnBusy};
ghost use Rattle.dsd_end.specs.FullTurns.{FrameFull, TurnFull};
ghost use Rattle.dsd_end.specs.EndCalls.{MakesCalls};
ghost use Rattle.dsd_end.specs.EndSteps.{Says, StepsTo};
ghost use Rattle.dsd_end.specs.MachineSeen.{standing_of, IsReady};
ghost use Rattle.dsd_end.specs.PiecesHeard.{HearsBytes, HearsFront};
ghost use Rattle.dsd_end.specs.PollStep.{Acts, HearsBroken, HearsFrame, HearsPiece, HearsSilence};
ghost use Rattle.dsd_end.specs.RunSoFar.{LeavesHearing, LeavesPushing, LeavesRuns, LeavesTaking};
ghost use Rattle.dsd_end.specs.Standings.{has_ended as ended_at, with_begun, with_line};

mod hearing;
mod polling;

use crate::saying::say;
use dex_handshake::{Session, SessionEnd, Step};
use dex_line::{Frame, Scanner};
use dsd_record::Decider;
use dsd_station::Station;
use dxs_envelope::Outgoing;
use own_turn::{Desk, TurnFault};
use std::mem;

/// The parts of an end that what it hears changes.
#[derive(Drop)]
pub struct Machine {
    pub(crate) desk: Desk,
    pub(crate) session: Session,
    pub(crate) scanner: Scanner,
    pub(crate) heard: u64,
}

impl Machine {
    /// Whether the session has ended.
    pub(crate) fn has_ended(&self) -> bool
        ensures { result ≡ ended_at (session_seen self.now.session) }
    {
        self.session.ended().is_some()
    }

    // Goes to the next state, and says what there is to say.
    fn go_to<T: Station>(&mut self, station: &mut T, step: Step) -> Result<(), TurnFault>
        requires spoken { IsSaid IsSpoken (step_seen step).say }
        requires synced { T.tells → IsSynced (T.told station.old) }
        ensures cause { FailsAtStation result (T.faults station.old) (T.faults station.new) }
        ensures full { IfFull result (λ n. ⊥) }
        ensures memory { IfNoMemory result ⊥ }
        ensures desk { self.new.desk ≡ self.old.desk }
        ensures standing { standing_of self.new ≡ with_line (standing_of self.old) (step_seen step).next }
        ensures told { T.tells → Says (flat_map spelling (said_of (step_seen step).say)) (is_ok result) (T.told station.old) (T.told station.new) }
        ensures stays { T.tells → ReadMayStay (T.told station.old) → ReadMayStay (T.told station.new) }
    {
        self.session = step.next;
        match say(station, &step.say) {
            Ok(()) => Ok(()),
            Err(_) => Err(TurnFault::Station),
        }
    }

    // Gives the load of the own turn.
    fn give<T: Station>(&mut self, station: &mut T, load: Option<Outgoing>) -> Result<(), TurnFault>
        requires turn { IsSome (turn_of (session_seen self.old.session)) }
        requires synced { T.tells → IsSynced (T.told station.old) }
        ensures cause { FailsAtStation result (T.faults station.old) (T.faults station.new) }
        ensures full { IfFull result (λ n. ⊥) }
        ensures memory { IfNoMemory result ⊥ }
        ensures desk { self.new.desk ≡ self.old.desk }
        ensures standing { standing_of self.new ≡ with_line (standing_of self.old) (gives (session_seen self.old.session) (load_seen load)).next }
        ensures told { T.tells → Says (flat_map spelling (said_of (gives (session_seen self.old.session) (load_seen load)).say)) (is_ok result) (T.told station.old) (T.told station.new) }
        ensures stays { T.tells → ReadMayStay (T.told station.old) → ReadMayStay (T.told station.new) }
    {
        let step = mem::replace(&mut self.session, Session::Ended(SessionEnd::Complete)).give(load);
        self.go_to(station, step)
    }

    // Takes the own turn, where it has come.
    fn act<D: Decider, T: Station>(&mut self, station: &mut T, decider: &D) -> Result<(), TurnFault>
        requires ready { IsReady self.old }
        requires rests { T.tells → Rests self.old.desk.book.header self.old.desk.book.known (T.told station.old) }
        ensures cause { FailsAtStation result (T.faults station.old) (T.faults station.new) }
        ensures full { IfFull result (TurnFull (D.chooser decider.now) (standing_of self.old)) }
        ensures memory { IfNoMemory result (TurnBusy (D.chooser decider.now) (standing_of self.old)) }
        ensures header { self.new.desk.book.header ≡ self.old.desk.book.header }
        ensures ready { OnOk result (IsReady self.new) }
        ensures heard { self.new.heard ≡ self.old.heard }
        ensures keeps { T.tells → KeepsTalk (T.told station.old) (T.told station.new) }
        ensures calls { T.tells → MakesCalls (T.told station.old) (T.told station.new) }
        ensures step { OnOk result (StepsTo T.tells (Acts (D.chooser decider.now) (standing_of self.old)) (standing_of self.new) (T.told station.old) (T.told station.new)) }
        ensures leaves { T.tells → LeavesRuns (D.chooser decider.now) (standing_of self.old) (T.told station.old) (T.told station.new) }
        ensures stays { T.tells → ReadMayStay (T.told station.old) → ReadMayStay (T.told station.new) }
    {
        let Some(text) = self.session.turn() else {
            return Ok(());
        };
        match self.desk.turn(station, decider, text) {
            Ok(load) => self.give(station, load),
            Err(fault) => Err(fault),
        }
    }

    // Hears a frame.
    fn hear<D: Decider, T: Station>(
        &mut self,
        station: &mut T,
        decider: &D,
        frame: Frame,
    ) -> Result<(), TurnFault>
        requires ready { IsReady self.old }
        requires goes_on { ended_at (session_seen self.old.session) ≡ false }
        requires answered { self.old.scanner ≡ [] }
        requires rests { T.tells → Rests self.old.desk.book.header self.old.desk.book.known (T.told station.old) }
        ensures cause { FailsAtStation result (T.faults station.old) (T.faults station.new) }
        ensures full { IfFull result (FrameFull (D.chooser decider.now) (standing_of self.old) (frame_seen frame)) }
        ensures memory { IfNoMemory result (FrameBusy (D.chooser decider.now) (standing_of self.old) (frame_seen frame)) }
        ensures header { self.new.desk.book.header ≡ self.old.desk.book.header }
        ensures ready { OnOk result (IsReady self.new) }
        ensures heard { self.new.heard ≡ self.old.heard }
        ensures keeps { T.tells → KeepsTalk (T.told station.old) (T.told station.new) }
        ensures calls { T.tells → MakesCalls (T.told station.old) (T.told station.new) }
        ensures step { OnOk result (StepsTo T.tells (HearsFrame (D.chooser decider.now) (standing_of self.old) (frame_seen frame)) (standing_of self.new) (T.told station.old) (T.told station.new)) }
        ensures leaves { T.tells → LeavesHearing (D.chooser decider.now) (standing_of self.old) (frame_seen frame) (T.told station.old) (T.told station.new) }
        ensures stays { T.tells → ReadMayStay (T.told station.old) → ReadMayStay (T.told station.new) }
    {
        let step = mem::replace(&mut self.session, Session::Ended(SessionEnd::Complete)).heard(
            frame,
        );
        match self.go_to(station, step) {
            Ok(()) => self.act(station, decider),
            Err(fault) => Err(fault),
        }
    }
}
