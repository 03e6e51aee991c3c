//! What an end is beside its decider.

ghost use Rattle.std.specs.Prelude.{◌≡◌, ◌<◌, [], IfOk, OnErr, OnOk, Err, List, false, true};
ghost use Rattle.dsd_station.specs.Told.{ReadMayStay, Told};
ghost use Rattle.dsd_journal.specs.Journals.{Rests};
ghost use Rattle.dsd_journal.specs.declared.entry.Entry.{Entry};
ghost use Rattle.dex_handshake.specs.LineRun.{end_of};
ghost use Rattle.dex_handshake.specs.LineTable.{started};
ghost use Rattle.dex_handshake.specs.SessionSeen.{session_seen};
ghost use Rattle.dsd_end.specs.BusyTurns.{IfEndNoMemory, PollBusy};
ghost use Rattle.dsd_end.specs.FullTurns.{IfEndFull, PollFull};
ghost use Rattle.dsd_end.specs.EndCalls.{MakesCalls};
ghost use Rattle.dsd_end.specs.EndFaults.{EndsAtStation, IfNoise, IsNoise, IsQuietSoFar};
ghost use Rattle.dsd_end.specs.MachineSeen.{CanGoOn, standing_of};
ghost use Rattle.dsd_end.specs.Patience.{CostsPatience, patience};
ghost use Rattle.dsd_end.specs.Polls.{HearsOnce, Polled, with_flags};
ghost use Rattle.dsd_end.specs.RunSoFar.{Runs};
ghost use Rattle.dsd_end.specs.Standings.{first_standing, is_supplier};

use crate::fault::EndFault;
use crate::machine::Machine;
use delivery_book::Book;
use dex_handshake::{Session, SessionEnd};
use dex_line::Scanner;
use dsd_record::Decider;
use dsd_station::Station;
use own_turn::Desk;
use std::marker::Model;

/// What an end is beside its decider.
#[derive(Drop)]
pub struct EndCore {
    machine: Machine,
    first: bool,
    failed: bool,
}

impl Model for EndCore {
    ghost use Rattle.dsd_end.specs.EndSeen.{EndView, IsWorking, view_of};

    ghost Value = { EndView };

    ghost view = { view_of };

    ghost invariant = { IsWorking };
}

impl EndCore {
    /// An end that has heard nothing.
    pub(crate) fn starting(desk: Desk, session: Session, first: bool) -> EndCore
        requires ready { CanGoOn desk (session_seen session) }
        requires unasked { desk.asked ≡ [] }
        requires refusals { desk.refused ≡ 0 }
        requires turns { desk.turns ≡ 0 }
        requires line { session_seen session ≡ (started desk.book.header.role desk.book.header.own desk.book.header.peer).next }
        requires first { first ≡ is_supplier desk.book.header.role }
        ensures standing { result.standing ≡ first_standing desk.book.header desk.book.known }
        ensures book { result.book ≡ desk.book }
    {
        EndCore {
            machine: Machine {
                desk,
                session,
                scanner: Scanner::new(),
                heard: 0,
            },
            first,
            failed: false,
        }
    }

    /// One poll.
    pub(crate) fn poll<D: Decider, T: Station>(
        &mut self,
        station: &mut T,
        decider: &D,
    ) -> Result<(), EndFault>
        requires rests { T.tells → self.old.standing.failed ≡ false → Rests self.old.book.header self.old.book.known (T.told station.old) }
        ensures cause { EndsAtStation result (T.faults station.old) (T.faults station.new) }
        // `Full` speaks of the entry that an own turn of this poll adds next.
        ensures full { IfEndFull result (PollFull T.tells (D.chooser decider.now) self.old.standing (T.told station.old) (T.told station.new)) }
        ensures header { self.new.book.header ≡ self.old.book.header }
        ensures failed { self.old.standing.failed ≡ true → result ≡ Err EndFault.Failed }
        ensures only { result ≡ Err EndFault.Failed → self.old.standing.failed ≡ true }
        ensures fails { OnErr result (self.new.standing.failed ≡ true) }
        ensures fine { OnOk result (self.new.standing.failed ≡ false) }
        ensures patience { OnOk result (CostsPatience self.old.standing self.new.standing) }
        ensures quiet { OnOk result (IsQuietSoFar self.new.standing) }
        // `Noise` is answered behind a step, of which it tells the count.
        ensures noise { IfNoise result (λ count. IsNoise self.new.standing count × Polled T.tells (D.chooser decider.now) self.old.standing (with_flags self.new.standing false false) (T.told station.old) (T.told station.new)) }
        ensures rests { T.tells → OnOk result (Rests self.new.book.header self.new.book.known (T.told station.new)) }
        ensures talk { T.tells → HearsOnce (T.told station.old) (T.told station.new) }
        ensures calls { T.tells → MakesCalls (T.told station.old) (T.told station.new) }
        ensures step { OnOk result (Polled T.tells (D.chooser decider.now) self.old.standing self.new.standing (T.told station.old) (T.told station.new)) }
        ensures runs { T.tells → (first : List Entry) (beginning : Told) → Runs (D.chooser decider.now) first beginning self.old.standing (T.told station.old)
            → Runs (D.chooser decider.now) first beginning self.new.standing (T.told station.new) }
        // Only an own turn that has something to do takes memory.
        ensures memory { IfEndNoMemory result (PollBusy T.tells (D.chooser decider.now) self.old.standing (T.told station.old) (T.told station.new)) }
        ensures noisy { T.tells → IfNoise result (λ _. Rests self.new.book.header self.new.book.known (T.told station.new)) }
        ensures patient { IfNoise result (λ _. 0 < patience self.old.standing) }
        ensures stays { T.tells → ReadMayStay (T.told station.old) → ReadMayStay (T.told station.new) }
        // The book knows the entries of the standing, under its header.
        ensures entries { self.new.book.known ≡ self.new.standing.desk.entries }
        ensures title { self.new.book.header ≡ self.new.standing.header }
    {
        if self.failed {
            return Err(EndFault::Failed);
        }
        match self.machine.go_on(station, decider, self.first) {
            Ok(()) => {
                self.first = false;
                self.failed = self.machine.has_heard_noise();
                if self.failed {
                    return Err(EndFault::Noise(self.machine.heard));
                }
                Ok(())
            }
            Err(fault) => {
                self.failed = true;
                Err(EndFault::of_turn(fault))
            }
        }
    }

    /// How the session has ended, where it has.
    pub(crate) fn ended(&self) -> Option<SessionEnd>
        ensures { result ≡ end_of self.now.standing.line }
    {
        self.machine.session.ended()
    }

    pub(crate) fn book(&self) -> &Book
        ensures { result.now ≡ self.now.book }
    {
        self.machine.desk.book()
    }

    pub(crate) fn refused(&self) -> u64
        ensures value { result ≡ self.now.standing.desk.refused }
        ensures titled { self.now.standing.header ≡ self.now.book.header }
    {
        self.machine.desk.refused()
    }
}
