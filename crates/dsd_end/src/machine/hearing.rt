//! What a machine does with what a listen hears.

ghost use Rattle.std.specs.Prelude.{◌≡◌, ◌≤◌, ◌<◌, ◌+◌, [], drop, false, length, take, IfOk, OnOk};
ghost use Rattle.dsd_station.specs.Effects.{heard_in, IsPiece};
ghost use Rattle.dsd_station.specs.Told.{ReadMayStay};
ghost use Rattle.dsd_journal.specs.Devices.{KeepsTalk};
ghost use Rattle.dsd_journal.specs.Journals.{Rests};
ghost use Rattle.dex_line.specs.Scanning.{quieted};
ghost use Rattle.dex_handshake.specs.LineTable.{unplugs};
ghost use Rattle.dex_handshake.specs.SessionSeen.{session_seen};
ghost use Rattle.own_turn.specs.Desks.{FailsAtStation, IfFull};
ghost use Rattle.own_turn.specs.IdleTurns.{IfNoMemory};
ghost use Rattle.dsd_end.specs.BusyTurns.{BrokenBusy, BytesBusy, HearsBusy};
ghost use Rattle.dsd_end.specs.FullTurns.{BrokenFull, BytesFull, HearsFull};
ghost use Rattle.dsd_end.specs.EndCalls.{MakesCalls};
ghost use Rattle.dsd_end.specs.EndFaults.{IsQuietSoFar};
ghost use Rattle.dsd_end.specs.declared.fault.TheConstants.{NOISE_BYTES as noise_bytes};
ghost use Rattle.dsd_end.specs.EndSteps.{StepsTo};
ghost use Rattle.dsd_end.specs.MachineSeen.{standing_of, IsReady};
ghost use Rattle.dsd_end.specs.PiecesHeard.{HearsBytes, HearsFront};
ghost use Rattle.dsd_end.specs.PollStep.{HearsBroken, HearsPiece, HearsSilence, HearsUnless};
ghost use Rattle.dsd_end.specs.RunSoFar.{LeavesPushing, LeavesTaking, bytes_in};
ghost use Rattle.dsd_end.specs.Standings.{has_ended as ended_at, with_begun};

use super::Machine;
use dex_handshake::{Session, SessionEnd};
use dex_line::Scanner;
use dsd_record::Decider;
use dsd_station::{Heard, Station};
use own_turn::TurnFault;
use std::mem;

impl Machine {
    // Hears the first bytes, up to the first frame that they complete. Tells how many.
    fn hear_front<D: Decider, T: Station>(
        &mut self,
        station: &mut T,
        decider: &D,
        bytes: &[u8],
    ) -> Result<usize, TurnFault>
        requires ready { IsReady self.old }
        requires goes_on { ended_at (session_seen self.old.session) ≡ false }
        requires some { 0 < length bytes.now }
        requires rests { T.tells → Rests self.old.desk.book.header self.old.desk.book.known (T.told station.old) }
        ensures cause { FailsAtStation result (T.faults station.old) (T.faults station.new) }
        ensures full { IfFull result (BytesFull (D.chooser decider.now) (standing_of self.old) bytes.now) }
        ensures memory { IfNoMemory result (BytesBusy (D.chooser decider.now) (standing_of self.old) bytes.now) }
        ensures header { self.new.desk.book.header ≡ self.old.desk.book.header }
        ensures ready { OnOk result (IsReady self.new) }
        ensures heard { self.new.heard ≡ self.old.heard }
        ensures some { IfOk result (λ count. 0 < count) }
        ensures inside { IfOk result (λ count. count ≤ length bytes.now) }
        ensures keeps { T.tells → KeepsTalk (T.told station.old) (T.told station.new) }
        ensures calls { T.tells → MakesCalls (T.told station.old) (T.told station.new) }
        ensures step { IfOk result (λ count. StepsTo T.tells (HearsFront (D.chooser decider.now) (standing_of self.old) (take count bytes.now)) (standing_of self.new) (T.told station.old) (T.told station.new)) }
        ensures leaves { T.tells → LeavesTaking (D.chooser decider.now) (standing_of self.old) bytes.now result (standing_of self.new) (T.told station.old) (T.told station.new) }
        ensures stays { T.tells → ReadMayStay (T.told station.old) → ReadMayStay (T.told station.new) }
    {
        let (count, answer) = self.scanner.hear(bytes);
        let Some(frame) = answer else {
            return Ok(count);
        };
        match self.hear(station, decider, frame) {
            Ok(()) => Ok(count),
            Err(fault) => Err(fault),
        }
    }

    // Hears bytes up to the session's end.
    fn hear_bytes<D: Decider, T: Station>(
        &mut self,
        station: &mut T,
        decider: &D,
        bytes: &[u8],
    ) -> Result<(), TurnFault>
        requires ready { IsReady self.old }
        requires goes_on { ended_at (session_seen self.old.session) ≡ false }
        requires rests { T.tells → Rests self.old.desk.book.header self.old.desk.book.known (T.told station.old) }
        ensures cause { FailsAtStation result (T.faults station.old) (T.faults station.new) }
        ensures full { IfFull result (BytesFull (D.chooser decider.now) (standing_of self.old) bytes.now) }
        ensures memory { IfNoMemory result (BytesBusy (D.chooser decider.now) (standing_of self.old) bytes.now) }
        ensures header { self.new.desk.book.header ≡ self.old.desk.book.header }
        ensures ready { OnOk result (IsReady self.new) }
        ensures heard { self.new.heard ≡ self.old.heard }
        ensures keeps { T.tells → KeepsTalk (T.told station.old) (T.told station.new) }
        ensures calls { T.tells → MakesCalls (T.told station.old) (T.told station.new) }
        ensures step { OnOk result (StepsTo T.tells (HearsBytes (D.chooser decider.now) (standing_of self.old) bytes.now) (standing_of self.new) (T.told station.old) (T.told station.new)) }
        ensures leaves { T.tells → LeavesPushing (D.chooser decider.now) (standing_of self.old) bytes.now result (standing_of self.new) (T.told station.old) (T.told station.new) }
        ensures stays { T.tells → ReadMayStay (T.told station.old) → ReadMayStay (T.told station.new) }
    {
        let mut rest = bytes;
        while !rest.is_empty() {
            match self.hear_front(station, decider, rest) {
                Ok(count) => rest = behind(rest, count),
                Err(fault) => return Err(fault),
            }
            if self.has_ended() {
                return Ok(());
            }
        }
        Ok(())
    }

    // Hears a piece, all of whose bytes are counted.
    fn hear_piece<D: Decider, T: Station>(
        &mut self,
        station: &mut T,
        decider: &D,
        bytes: &[u8],
    ) -> Result<(), TurnFault>
        requires ready { IsReady self.old }
        requires goes_on { ended_at (session_seen self.old.session) ≡ false }
        requires counts { self.old.heard < noise_bytes }
        requires short { length bytes.now ≤ 64 }
        requires rests { T.tells → Rests self.old.desk.book.header self.old.desk.book.known (T.told station.old) }
        ensures cause { FailsAtStation result (T.faults station.old) (T.faults station.new) }
        ensures full { IfFull result (BytesFull (D.chooser decider.now) (standing_of self.old) bytes.now) }
        ensures memory { IfNoMemory result (BytesBusy (D.chooser decider.now) (standing_of self.old) bytes.now) }
        ensures header { self.new.desk.book.header ≡ self.old.desk.book.header }
        ensures ready { OnOk result (IsReady self.new) }
        ensures heard { OnOk result (self.new.heard ≡ self.old.heard + length bytes.now) }
        ensures keeps { T.tells → KeepsTalk (T.told station.old) (T.told station.new) }
        ensures calls { T.tells → MakesCalls (T.told station.old) (T.told station.new) }
        ensures step { OnOk result (StepsTo T.tells (HearsPiece (D.chooser decider.now) (standing_of self.old) bytes.now) (standing_of self.new) (T.told station.old) (T.told station.new)) }
        ensures leaves { T.tells → LeavesPushing (D.chooser decider.now) (standing_of self.old) bytes.now result (standing_of self.new) (T.told station.old) (T.told station.new) }
        ensures stays { T.tells → ReadMayStay (T.told station.old) → ReadMayStay (T.told station.new) }
    {
        match self.hear_bytes(station, decider, bytes) {
            Ok(()) => {
                self.heard += bytes.len() as u64;
                Ok(())
            }
            Err(fault) => Err(fault),
        }
    }

    // What has begun is heard as a frame that broke off.
    fn break_off<D: Decider, T: Station>(
        &mut self,
        station: &mut T,
        decider: &D,
    ) -> Result<(), TurnFault>
        requires ready { IsReady self.old }
        requires goes_on { ended_at (session_seen self.old.session) ≡ false }
        requires rests { T.tells → Rests self.old.desk.book.header self.old.desk.book.known (T.told station.old) }
        ensures cause { FailsAtStation result (T.faults station.old) (T.faults station.new) }
        ensures full { IfFull result (BrokenFull (D.chooser decider.now) (with_begun (standing_of self.old) []) (quieted self.old.scanner)) }
        ensures memory { IfNoMemory result (BrokenBusy (D.chooser decider.now) (with_begun (standing_of self.old) []) (quieted self.old.scanner)) }
        ensures header { self.new.desk.book.header ≡ self.old.desk.book.header }
        ensures ready { OnOk result (IsReady self.new) }
        ensures heard { self.new.heard ≡ self.old.heard }
        ensures keeps { T.tells → KeepsTalk (T.told station.old) (T.told station.new) }
        ensures calls { T.tells → MakesCalls (T.told station.old) (T.told station.new) }
        ensures step { OnOk result (StepsTo T.tells (HearsBroken (D.chooser decider.now) (with_begun (standing_of self.old) []) (quieted self.old.scanner)) (standing_of self.new) (T.told station.old) (T.told station.new)) }
        ensures leaves { T.tells → LeavesPushing (D.chooser decider.now) (standing_of self.old) [] result (standing_of self.new) (T.told station.old) (T.told station.new) }
        ensures stays { T.tells → ReadMayStay (T.told station.old) → ReadMayStay (T.told station.new) }
    {
        match self.scanner.quiet() {
            None => Ok(()),
            Some(frame) => self.hear(station, decider, frame),
        }
    }

    // Hears that nothing came.
    fn hear_silence<D: Decider, T: Station>(
        &mut self,
        station: &mut T,
        decider: &D,
    ) -> Result<(), TurnFault>
        requires ready { IsReady self.old }
        requires goes_on { ended_at (session_seen self.old.session) ≡ false }
        requires rests { T.tells → Rests self.old.desk.book.header self.old.desk.book.known (T.told station.old) }
        ensures cause { FailsAtStation result (T.faults station.old) (T.faults station.new) }
        ensures full { IfFull result (BrokenFull (D.chooser decider.now) (with_begun (standing_of self.old) []) (quieted self.old.scanner)) }
        ensures memory { IfNoMemory result (BrokenBusy (D.chooser decider.now) (with_begun (standing_of self.old) []) (quieted self.old.scanner)) }
        ensures header { self.new.desk.book.header ≡ self.old.desk.book.header }
        ensures ready { OnOk result (IsReady self.new) }
        ensures heard { self.new.heard ≡ self.old.heard }
        ensures keeps { T.tells → KeepsTalk (T.told station.old) (T.told station.new) }
        ensures calls { T.tells → MakesCalls (T.told station.old) (T.told station.new) }
        ensures step { OnOk result (StepsTo T.tells (HearsSilence (D.chooser decider.now) (standing_of self.old)) (standing_of self.new) (T.told station.old) (T.told station.new)) }
        ensures leaves { T.tells → LeavesPushing (D.chooser decider.now) (standing_of self.old) [] result (standing_of self.new) (T.told station.old) (T.told station.new) }
        ensures stays { T.tells → ReadMayStay (T.told station.old) → ReadMayStay (T.told station.new) }
    {
        match self.break_off(station, decider) {
            Ok(()) => {
                let step = mem::replace(
                    &mut self.session,
                    Session::Ended(SessionEnd::Complete),
                ).quiet();
                self.go_to(station, step)
            }
            Err(fault) => Err(fault),
        }
    }

    // Hears that the cable is unplugged. What has begun is dropped.
    fn unplug(&mut self)
        ensures desk { self.new.desk ≡ self.old.desk }
        ensures standing { standing_of self.new ≡ record (standing_of self.old) { line = unplugs (session_seen self.old.session); begun = [] } }
    {
        self.session = mem::replace(
            &mut self.session,
            Session::Ended(SessionEnd::Complete),
        ).unplugged();
        self.scanner = Scanner::new();
    }

    // Hears what a listen answered. Once the session has ended that changes nothing.
    pub(crate) fn answer<D: Decider, T: Station>(
        &mut self,
        station: &mut T,
        decider: &D,
        heard: Heard,
        buffer: &[u8; 64],
    ) -> Result<(), TurnFault>
        requires ready { IsReady self.old }
        requires piece { IsPiece heard }
        requires quiet { IsQuietSoFar (standing_of self.old) }
        requires rests { T.tells → Rests self.old.desk.book.header self.old.desk.book.known (T.told station.old) }
        ensures cause { FailsAtStation result (T.faults station.old) (T.faults station.new) }
        ensures full { IfFull result (HearsFull (D.chooser decider.now) (standing_of self.old) (heard_in buffer.now heard)) }
        ensures memory { IfNoMemory result (HearsBusy (D.chooser decider.now) (standing_of self.old) (heard_in buffer.now heard)) }
        ensures header { self.new.desk.book.header ≡ self.old.desk.book.header }
        ensures ready { OnOk result (IsReady self.new) }
        ensures keeps { T.tells → KeepsTalk (T.told station.old) (T.told station.new) }
        ensures calls { T.tells → MakesCalls (T.told station.old) (T.told station.new) }
        ensures step { OnOk result (StepsTo T.tells (HearsUnless (ended_at (session_seen self.old.session)) (D.chooser decider.now) (standing_of self.old) (heard_in buffer.now heard)) (standing_of self.new) (T.told station.old) (T.told station.new)) }
        ensures leaves { T.tells → LeavesPushing (D.chooser decider.now) (standing_of self.old) (bytes_in (heard_in buffer.now heard)) result (standing_of self.new) (T.told station.old) (T.told station.new) }
        ensures stays { T.tells → ReadMayStay (T.told station.old) → ReadMayStay (T.told station.new) }
    {
        if self.has_ended() {
            return Ok(());
        }
        match heard {
            Heard::Bytes(count) => self.hear_piece(station, decider, &buffer[..count]),
            Heard::Quiet => self.hear_silence(station, decider),
            Heard::Unplugged => {
                self.unplug();
                Ok(())
            }
        }
    }
}

// The bytes behind so many.
fn behind(bytes: &[u8], count: usize) -> &[u8]
    requires { count ≤ length bytes.now }
    ensures { result.now ≡ drop count bytes.now }
{
    &bytes[count..]
}
