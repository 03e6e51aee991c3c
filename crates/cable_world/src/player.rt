//! An end that runs.

ghost use Rattle.std.specs.Prelude.{◌≡◌, ◌≤◌, ◌⊎◌, List, false, true, IfOk, OnErr, OnOk, Err};
ghost use Rattle.dsd_station.specs.Causes.{Rose};
ghost use Rattle.dsd_station.specs.Logged.{told_by};
ghost use Rattle.dsd_station.specs.Told.{Told};
ghost use Rattle.dsd_journal.specs.Devices.{IsStationFault, Opens, since};
ghost use Rattle.dsd_journal.specs.Journals.{Rests};
ghost use Rattle.dsd_journal.specs.declared.entry.Entry.{Entry};
ghost use Rattle.dsd_values.specs.declared.role.Role.TheVariants.{Receiver, Supplier};
ghost use Rattle.delivery_book.specs.Signing.{Legal};
ghost use Rattle.dsd_end.specs.EndCalls.{MakesCalls};
ghost use Rattle.dsd_end.specs.EndFaults.{EndsAtStation, IfNoise, IsNoise};
ghost use Rattle.dsd_end.specs.EndSeen.{turn_at};
ghost use Rattle.dsd_end.specs.FullTurns.{IfEndFull, PollFull};
ghost use Rattle.dsd_end.specs.Patience.{CostsPatience};
ghost use Rattle.dsd_end.specs.Polls.{HearsOnce, Polled, with_flags};
ghost use Rattle.dsd_end.specs.RunSoFar.{Runs};
ghost use Rattle.handheld_core.specs.Choosing.{supplier};
ghost use Rattle.receiver_core.specs.Choosing.{receiver};
ghost use Rattle.cable_world.specs.Players.{HasOpened, chooser_by};

use delivery_book::Book;
use dsd_end::{End, EndFault, Turn, open_end};
use dsd_journal::OpenFault;
use dsd_record::Decider;
use dsd_station::MemoryStation;
use dsd_values::Role;
use handheld_core::Drafts;
use receiver_core::Counts;
use std::alloc::Global;
use std::marker::Model;

/// Either of the two ends.
#[derive(Drop)]
enum AnyEnd {
    Handheld(End<Drafts>),
    Receiver(End<Counts>),
}

/// An end that runs.
#[derive(Drop)]
pub(crate) struct Player {
    end: AnyEnd,
}

impl Model for Player {
    ghost use Rattle.cable_world.specs.Players.{PlayerView, player_of};

    ghost Value = { PlayerView };

    ghost view = { λ player. player_of player.end };
}

impl Player {
    /// Opens the handheld's end.
    pub(crate) fn open_handheld(
        alloc: Global,
        station: &mut MemoryStation,
        drafts: Drafts,
    ) -> Result<Player, OpenFault>
        ensures opened { HasOpened Supplier (supplier drafts) result (told_by station.old) (told_by station.new) }
        ensures cause { result ≡ Err OpenFault.Station → Rose station.old.faults station.new.faults }
    {
        match open_end(alloc, station, Role::Supplier, drafts) {
            Ok(end) => Ok(Player {
                end: AnyEnd::Handheld(end),
            }),
            Err(fault) => Err(fault),
        }
    }

    /// Opens the receiver's end.
    pub(crate) fn open_receiver(
        alloc: Global,
        station: &mut MemoryStation,
        counts: Counts,
    ) -> Result<Player, OpenFault>
        ensures opened { HasOpened Receiver (receiver counts) result (told_by station.old) (told_by station.new) }
        ensures cause { result ≡ Err OpenFault.Station → Rose station.old.faults station.new.faults }
    {
        match open_end(alloc, station, Role::Receiver, counts) {
            Ok(end) => Ok(Player {
                end: AnyEnd::Receiver(end),
            }),
            Err(fault) => Err(fault),
        }
    }

    /// One poll of the end.
    pub(crate) fn poll(&mut self, station: &mut MemoryStation) -> Result<Turn, EndFault>
        requires rests { self.old.standing.failed ≡ false → Rests self.old.book.header self.old.book.known (told_by station.old) }
        ensures chooser { chooser_by self.new.choices ≡ chooser_by self.old.choices }
        ensures cause { EndsAtStation result station.old.faults station.new.faults }
        ensures full { IfEndFull result (PollFull (Unit {0}) (chooser_by self.old.choices) self.old.standing (told_by station.old) (told_by station.new)) }
        ensures header { self.new.book.header ≡ self.old.book.header }
        ensures only { result ≡ Err EndFault.Failed → self.old.standing.failed ≡ true }
        ensures fails { OnErr result (self.new.standing.failed ≡ true) }
        ensures fine { OnOk result (self.new.standing.failed ≡ false) }
        ensures turn { IfOk result (λ turn. turn ≡ turn_at self.new.standing.line) }
        ensures patience { OnOk result (CostsPatience self.old.standing self.new.standing) }
        ensures noise { IfNoise result (λ count. IsNoise self.new.standing count × Polled (Unit {0}) (chooser_by self.old.choices) self.old.standing (with_flags self.new.standing false false) (told_by station.old) (told_by station.new)) }
        ensures rests { OnOk result (Rests self.new.book.header self.new.book.known (told_by station.new)) }
        ensures talk { HearsOnce (told_by station.old) (told_by station.new) }
        ensures calls { MakesCalls (told_by station.old) (told_by station.new) }
        ensures step { OnOk result (Polled (Unit {0}) (chooser_by self.old.choices) self.old.standing self.new.standing (told_by station.old) (told_by station.new)) }
        ensures runs { (first : List Entry) (beginning : Told) → Runs (chooser_by self.old.choices) first beginning self.old.standing (told_by station.old)
            → Runs (chooser_by self.old.choices) first beginning self.new.standing (told_by station.new) }
        ensures entries { self.new.book.known ≡ self.new.standing.desk.entries }
    {
        match &mut self.end {
            AnyEnd::Handheld(end) => end.poll(station),
            AnyEnd::Receiver(end) => end.poll(station),
        }
    }

    /// How many sets it has refused.
    pub(crate) fn refused(&self) -> u64
        ensures value { result ≡ self.now.standing.desk.refused }
        ensures titled { self.now.standing.header ≡ self.now.book.header }
    {
        match &self.end {
            AnyEnd::Handheld(end) => end.refused(),
            AnyEnd::Receiver(end) => end.refused(),
        }
    }

    pub(crate) fn book(&self) -> &Book
        ensures { result.now ≡ self.now.book }
    {
        match &self.end {
            AnyEnd::Handheld(end) => end.book(),
            AnyEnd::Receiver(end) => end.book(),
        }
    }

    /// Lets the end go.
    pub(crate) fn close(self) {
        let Player { end } = self;
        match end {
            AnyEnd::Handheld(end) => let_go(end),
            AnyEnd::Receiver(end) => let_go(end),
        }
    }
}

/// Lets an end go.
fn let_go<D: Decider>(end: End<D>) {
    let _ = end;
}
