//! One end.

ghost use Rattle.std.specs.Prelude.{◌≡◌, ◌≤◌, ◌<◌, Err, IfOk, List, OnErr, OnOk, Some, false, true};
ghost use Rattle.dsd_station.specs.Told.{ReadMayStay, Told};
ghost use Rattle.dsd_journal.specs.Journals.{Rests};
ghost use Rattle.dsd_journal.specs.declared.entry.Entry.{Entry};
ghost use Rattle.dex_handshake.specs.LineTable.{Ended};
ghost use Rattle.dsd_end.specs.BusyTurns.{IfEndNoMemory, PollBusy, RunBusy};
ghost use Rattle.dsd_end.specs.FullTurns.{IfEndFull, PollFull, RunFull};
ghost use Rattle.dsd_end.specs.EndCalls.{MakesCalls};
ghost use Rattle.dsd_end.specs.EndFaults.{EndsAtStation, IfNoise, IsNoise, IsQuietSoFar};
ghost use Rattle.dsd_end.specs.EndSeen.{turn_at};
ghost use Rattle.dsd_end.specs.Patience.{CostsPatience, patience};
ghost use Rattle.dsd_end.specs.Polls.{HearsMore, HearsOnce, Polled, PolledAlong, with_flags};
ghost use Rattle.dsd_end.specs.RunSoFar.{Runs};

use crate::end_core::EndCore;
use crate::fault::EndFault;
use delivery_book::Book;
use dex_handshake::SessionEnd;
use dsd_record::Decider;
use dsd_station::Station;

/// The most polls from an opening to the session's end: each byte below the noise lets thirty Quiets come.
pub const MOST_POLLS: u64 = 60_000_031;

/// Whether a session goes on.
#[derive(Clone, Copy, Debug, PartialEq, Eq)]
pub enum Turn {
    Running,
    /// It has ended so.
    Ended(SessionEnd),
}

/// One end of a delivery: its choices, and all that it carries from one poll to the next.
#[derive(Drop)]
pub struct End<D> {
    pub decider: D,
    pub core: EndCore,
}

impl<D: Decider> End<D> {
    /// The choices that it was opened with.
    pub fn decider(&self) -> &D
        ensures { result.now ≡ self.now.decider }
    {
        &self.decider
    }

    pub fn book(&self) -> &Book
        ensures { result.now ≡ self.now.core.book }
    {
        self.core.book()
    }

    /// How many sets and envelopes were refused. A set that was taken before does not count.
    pub fn refused(&self) -> u64
        ensures value { result ≡ self.now.core.standing.desk.refused }
        // It stands under the header of its book.
        ensures titled { self.now.core.standing.header ≡ self.now.core.book.header }
    {
        self.core.refused()
    }

    /// One poll: the supplier's first one says Enq, and each other one listens once and says what there is to say. The station has to be as the
    /// end's opening or its last call left it.
    ///
    /// `Failed` goes before the other faults, `Station` before `Full`, and `Noise` yields to them all. After the session has ended a poll still listens,
    /// and changes nothing.
    pub fn poll<T: Station>(&mut self, station: &mut T) -> Result<Turn, EndFault>
        requires rests { T.tells → self.old.core.standing.failed ≡ false → Rests self.old.core.book.header self.old.core.book.known (T.told station.old) }
        ensures decider { D.chooser self.new.decider ≡ D.chooser self.old.decider }
        ensures cause { EndsAtStation result (T.faults station.old) (T.faults station.new) }
        // `Full` speaks of the entry that an own turn of this poll adds next.
        ensures full { IfEndFull result (PollFull T.tells (D.chooser self.old.decider) self.old.core.standing (T.told station.old) (T.told station.new)) }
        ensures header { self.new.core.book.header ≡ self.old.core.book.header }
        // A call after a fault answers `Failed`, and no other does.
        ensures failed { self.old.core.standing.failed ≡ true → result ≡ Err EndFault.Failed }
        ensures only { result ≡ Err EndFault.Failed → self.old.core.standing.failed ≡ true }
        ensures fails { OnErr result (self.new.core.standing.failed ≡ true) }
        ensures fine { OnOk result (self.new.core.standing.failed ≡ false) }
        ensures turn { IfOk result (λ turn. turn ≡ turn_at self.new.core.standing.line) }
        // Noise exactly behind a step with which 2,000,000 bytes or more were heard without an end.
        ensures patience { OnOk result (CostsPatience self.old.core.standing self.new.core.standing) }
        ensures quiet { OnOk result (IsQuietSoFar self.new.core.standing) }
        ensures noise { IfNoise result (λ count. IsNoise self.new.core.standing count × Polled T.tells (D.chooser self.old.decider) self.old.core.standing (with_flags self.new.core.standing false false) (T.told station.old) (T.told station.new)) }
        ensures rests { T.tells → OnOk result (Rests self.new.core.book.header self.new.core.book.known (T.told station.new)) }
        ensures talk { T.tells → HearsOnce (T.told station.old) (T.told station.new) }
        ensures calls { T.tells → MakesCalls (T.told station.old) (T.told station.new) }
        // Without a fault it is one step.
        ensures step { OnOk result (Polled T.tells (D.chooser self.old.decider) self.old.core.standing self.new.core.standing (T.told station.old) (T.told station.new)) }
        // A run that has come to the old standing goes on, whatever is answered: each stop leaves a run.
        ensures runs { T.tells → (first : List Entry) (beginning : Told) → Runs (D.chooser self.old.decider) first beginning self.old.core.standing (T.told station.old)
            → Runs (D.chooser self.old.decider) first beginning self.new.core.standing (T.told station.new) }
        // Only an own turn that has something to do takes memory.
        ensures memory { IfEndNoMemory result (PollBusy T.tells (D.chooser self.old.decider) self.old.core.standing (T.told station.old) (T.told station.new)) }
        // At `Noise` too the journal holds what the book knows, and that survives each stop.
        ensures noisy { T.tells → IfNoise result (λ _. Rests self.new.core.book.header self.new.core.book.known (T.told station.new)) }
        ensures patient { IfNoise result (λ _. 0 < patience self.old.core.standing) }
        // What a read gives of the journal is among what a stop may leave, where it was so before.
        ensures stays { T.tells → ReadMayStay (T.told station.old) → ReadMayStay (T.told station.new) }
        // The book knows the entries of the standing, under its header.
        ensures entries { self.new.core.book.known ≡ self.new.core.standing.desk.entries }
        ensures title { self.new.core.book.header ≡ self.new.core.standing.header }
    {
        match self.core.poll(station, &self.decider) {
            Ok(()) => Ok(self.turn()),
            Err(fault) => Err(fault),
        }
    }

    /// Polls to the session's end. From its opening on that takes at most 60,000,031 polls. The station has to be as the end's opening or its last
    /// call left it.
    pub fn run<T: Station>(&mut self, station: &mut T) -> Result<SessionEnd, EndFault>
        requires rests { T.tells → self.old.core.standing.failed ≡ false → Rests self.old.core.book.header self.old.core.book.known (T.told station.old) }
        ensures decider { D.chooser self.new.decider ≡ D.chooser self.old.decider }
        ensures cause { EndsAtStation result (T.faults station.old) (T.faults station.new) }
        ensures full { IfEndFull result (RunFull (D.chooser self.old.decider) self.old.core.standing) }
        ensures header { self.new.core.book.header ≡ self.old.core.book.header }
        ensures failed { self.old.core.standing.failed ≡ true → result ≡ Err EndFault.Failed }
        ensures only { result ≡ Err EndFault.Failed → self.old.core.standing.failed ≡ true }
        ensures fails { OnErr result (self.new.core.standing.failed ≡ true) }
        ensures fine { OnOk result (self.new.core.standing.failed ≡ false) }
        ensures ended { IfOk result (λ end. self.new.core.standing.line ≡ Ended end) }
        ensures noise { IfNoise result (IsNoise self.new.core.standing) }
        ensures rests { T.tells → OnOk result (Rests self.new.core.book.header self.new.core.book.known (T.told station.new)) }
        ensures talk { T.tells → HearsMore (T.told station.old) (T.told station.new) }
        ensures calls { T.tells → MakesCalls (T.told station.old) (T.told station.new) }
        // Without a fault it is the steps over what it heard, one after another.
        ensures steps { OnOk result (PolledAlong T.tells (D.chooser self.old.decider) self.old.core.standing self.new.core.standing (T.told station.old) (T.told station.new)) }
        // A run that has come to the old standing goes on, whatever is answered: each stop leaves a run.
        ensures runs { T.tells → (first : List Entry) (beginning : Told) → Runs (D.chooser self.old.decider) first beginning self.old.core.standing (T.told station.old)
            → Runs (D.chooser self.old.decider) first beginning self.new.core.standing (T.told station.new) }
        ensures memory { IfEndNoMemory result (RunBusy (D.chooser self.old.decider) self.old.core.standing) }
        // `Noise` is answered behind the steps over what it heard, after which the journal holds what the book knows.
        ensures noise_steps { IfNoise result (λ _. PolledAlong T.tells (D.chooser self.old.decider) self.old.core.standing (with_flags self.new.core.standing false false) (T.told station.old) (T.told station.new)) }
        ensures noisy { T.tells → IfNoise result (λ _. Rests self.new.core.book.header self.new.core.book.known (T.told station.new)) }
        ensures stays { T.tells → ReadMayStay (T.told station.old) → ReadMayStay (T.told station.new) }
        ensures entries { self.new.core.book.known ≡ self.new.core.standing.desk.entries }
        ensures title { self.new.core.book.header ≡ self.new.core.standing.header }
    {
        loop {
            match self.poll(station) {
                Ok(Turn::Running) => {}
                Ok(Turn::Ended(end)) => return Ok(end),
                Err(fault) => return Err(fault),
            }
        }
    }

    fn turn(&self) -> Turn
        ensures { result ≡ turn_at self.now.core.standing.line }
    {
        match self.core.ended() {
            Some(end) => Turn::Ended(end),
            None => Turn::Running,
        }
    }
}
