//! One end at its station in memory.

ghost use Rattle.std.specs.Prelude.{◌≡◌, false, ◌<◌, ◌-◌, IfOk, IsSome, None, OnOk, Some, is_some, length, slice_get};
ghost use Rattle.std.specs.Option.{option_copied};
ghost use Rattle.dsd_station.specs.Logged.{IsPlayed, image_by};
ghost use Rattle.dsd_station.specs.Plans.{with_failure, with_fed, with_stop};
ghost use Rattle.cable_world.specs.Finishing.{HoldsBook, IsOver};
ghost use Rattle.cable_world.specs.Noted.{runs_by};
ghost use Rattle.cable_world.specs.Opening.{idle_at};
ghost use Rattle.cable_world.specs.Scenes.{is_busy as is_busy_side};
ghost use Rattle.cable_world.specs.SeatSteps.{Grows, IsReady, SeatPolls};
ghost use Rattle.cable_world.specs.SeatOpens.{SeatStarts, opening_answer, player_in};
ghost use Rattle.cable_world.specs.Settings.{chooser_at};
ghost use Rattle.cable_world.specs.Seats.{EndedRests, RestsAt, RestsIfEnded, settled, side_of, with_log, with_player, with_spoken, without_player};

use crate::answer::Answer;
use crate::leaving::open_left;
use crate::left_book::{LeftBook, is_whole};
use crate::player::Player;
use crate::polling::poll_at;
use crate::setting::Setting;
use crate::starting::start;
use dsd_journal::OpenFault;
use dsd_station::{Call, Given, Handed, MemoryStation, Pick};
use dsd_values::{Memory, Role};
use std::alloc::Global;
use std::marker::Model;

/// One end at its station in memory, where it runs, or the station alone.
///
/// An end whose session has ended keeps its seat, so that its book need not be read again from the image, until the next is opened.
#[derive(Drop)]
pub(crate) struct Seat {
    station: MemoryStation,
    player: Option<Player>,
    ended: Option<Player>,
    spoken: Vec<Handed>,
    refused: u64,
}

impl Model for Seat {
    ghost use Rattle.cable_world.specs.Seats.{IsSeat, SeatView, seat_of};

    ghost Value = { SeatView };

    ghost view = { seat_of };

    ghost invariant = { IsSeat };
}

impl Seat {
    /// At this station no end runs, and none has run.
    pub(crate) fn new(alloc: Global, station: MemoryStation) -> Seat
        ensures { result ≡ idle_at station }
    {
        Seat {
            station,
            player: None,
            ended: None,
            spoken: Vec::new(alloc),
            refused: 0,
        }
    }

    /// The image that its station has.
    pub(crate) fn image(&self) -> &[u8]
        ensures { result.now ≡ image_by self.now.log }
    {
        self.station.image()
    }

    /// The station's record.
    pub(crate) fn calls(&self) -> &[Call]
        ensures value { result.now ≡ self.now.log.calls }
        ensures played { IsPlayed self.now.log }
    {
        self.station.calls()
    }

    pub(crate) fn runs(&self) -> bool
        ensures { result ≡ is_some self.now.player }
    {
        self.player.is_some()
    }

    /// Whether its end runs and its port is still due to give something.
    pub(crate) fn is_busy(&self) -> bool
        ensures { result ≡ is_busy_side (side_of self.now) }
    {
        self.player.is_some() && !self.station.is_heard()
    }

    pub(crate) fn refused(&self) -> u64
        ensures { result ≡ self.now.refused }
    {
        self.refused
    }

    /// Says what its port is to give.
    pub(crate) fn feed(&mut self, given: &Given) -> Result<(), Memory>
        ensures { OnOk result (self.new ≡ with_log self.old (with_fed self.old.log given.now)) }
    {
        match given {
            Given::Bytes(bytes) => self.station.feed(bytes.as_slice()),
            Given::Quiet(times) => self.station.feed_quiet(*times),
            Given::Unplugged => self.station.feed_unplugged(),
        }
    }

    pub(crate) fn arm_stop(&mut self, number: u32, pick: Pick)
        ensures { self.new ≡ with_log self.old (with_stop self.old.log number pick) }
    {
        self.station.arm_stop(u64::from(number), pick);
    }

    pub(crate) fn arm_fail(&mut self, number: u32)
        ensures { self.new ≡ with_log self.old (with_failure self.old.log number) }
    {
        self.station.arm_fail(u64::from(number));
    }

    /// Polls its end.
    pub(crate) fn poll(&mut self) -> Result<Answer, Memory>
        requires runs { IsSome self.old.player }
        requires ready { IsReady self.old }
        ensures grows { Grows self.old.log self.new.log }
        ensures polls { IfOk result (λ answer. SeatPolls answer self.old self.new) }
        ensures ready { IfOk result (λ answer. IsReady self.new) }
    {
        let Some(player) = &mut self.player else {
            unreachable!()
        };
        match poll_at(player, &mut self.station) {
            Ok(answer) => {
                self.refused = player.refused();
                Ok(self.settle(answer))
            }
            Err(memory) => Err(memory),
        }
    }

    /// Keeps these frames as spoken whole.
    pub(crate) fn keep_spoken(&mut self, frames: Vec<Handed>) -> Result<(), Memory>
        ensures { OnOk result (self.new ≡ with_spoken self.old frames.items) }
    {
        let mut frames = frames;
        self.spoken.append(&mut frames)?;
        Ok(())
    }

    /// The frame of this number, from 1, that its end has spoken whole.
    pub(crate) fn frame(&self, number: u32) -> Option<&Handed>
        ensures { option_copied result ≡ slice_get self.now.spoken (number - 1) }
    {
        self.spoken.get((number as usize).saturating_sub(1))
    }

    /// Lets its end go, where it does not run by what it answered; one whose session has ended keeps its seat.
    fn settle(&mut self, answer: Answer) -> Answer
        requires { RestsIfEnded answer self.old.player self.old.log }
        ensures answer { result ≡ answer }
        ensures seat { self.new ≡ settled (runs_by answer) self.old }
    {
        match answer {
            Answer::Opened | Answer::Running => {}
            Answer::Ended(_) => self.keep_ended(),
            Answer::NotOpened(_) | Answer::Broken(_) => self.close(),
        }
        answer
    }

    /// Restarts its station and opens its end, which does not run.
    pub(crate) fn start(
        &mut self,
        alloc: Global,
        role: Role,
        setting: &Setting,
    ) -> Result<Answer, Memory>
        requires ready { IsReady self.old }
        ensures grows { Grows self.old.log self.new.log }
        ensures starts { IfOk result (λ answer. SeatStarts role (chooser_at setting.now role) answer self.old self.new) }
        ensures ready { IfOk result (λ answer. IsReady self.new) }
    {
        let_go(&mut self.ended);
        match start(alloc, role, &mut self.station, setting) {
            Ok(opened) => Ok(self.take_in(opened)),
            Err(memory) => Err(memory),
        }
    }

    /// Takes in an end that was opened, or none.
    fn take_in(&mut self, opened: Result<Player, OpenFault>) -> Answer
        ensures answer { result ≡ opening_answer opened }
        ensures seat { self.new ≡ with_player self.old (player_in opened) }
    {
        self.close();
        self.refused = 0;
        match opened {
            Ok(player) => {
                self.seat(player);
                Answer::Opened
            }
            Err(fault) => Answer::NotOpened(fault),
        }
    }

    /// The book of its end over the image that is left: that of the end whose session has ended last, or one that is opened once the station is disarmed
    /// and restarted.
    pub(crate) fn leave(&mut self, alloc: Global, role: Role) -> Result<LeftBook, Memory>
        requires unstarved { self.old.log.starved ≡ false }
        requires book { HoldsBook role (image_by self.old.log) }
        ensures grows { Grows self.old.log self.new.log }
        ensures image { image_by self.new.log ≡ image_by self.old.log }
        ensures refused { self.new.refused ≡ self.old.refused }
        ensures book { IfOk result (IsOver role (image_by self.old.log)) }
    {
        match self.ended.take() {
            Some(player) => self.leave_ended(alloc, role, player),
            None => self.open_left(alloc, role),
        }
    }

    /// The book of this end, whose session has ended, where it is whole.
    fn leave_ended(&mut self, alloc: Global, role: Role, player: Player) -> Result<LeftBook, Memory>
        requires unstarved { self.old.log.starved ≡ false }
        requires book { HoldsBook role (image_by self.old.log) }
        requires rests { RestsAt player self.old.log }
        ensures grows { Grows self.old.log self.new.log }
        ensures image { image_by self.new.log ≡ image_by self.old.log }
        ensures refused { self.new.refused ≡ self.old.refused }
        ensures book { IfOk result (IsOver role (image_by self.old.log)) }
    {
        if is_whole(player.book(), role) {
            return Ok(LeftBook::of_ended(player));
        }
        player.close();
        self.open_left(alloc, role)
    }

    fn open_left(&mut self, alloc: Global, role: Role) -> Result<LeftBook, Memory>
        requires unstarved { self.old.log.starved ≡ false }
        requires book { HoldsBook role (image_by self.old.log) }
        ensures grows { Grows self.old.log self.new.log }
        ensures image { image_by self.new.log ≡ image_by self.old.log }
        ensures refused { self.new.refused ≡ self.old.refused }
        ensures book { IfOk result (IsOver role (image_by self.old.log)) }
    {
        match open_left(alloc, &mut self.station, role) {
            Ok(book) => Ok(LeftBook::of_opened(book)),
            Err(memory) => Err(memory),
        }
    }

    /// Keeps the seat of its end, whose session has ended.
    fn keep_ended(&mut self)
        requires { EndedRests self.old.player self.old.log }
        ensures { self.new ≡ without_player self.old }
    {
        if let Some(player) = self.player.take() {
            if let Some(before) = self.ended.replace(player) {
                before.close();
            }
        }
    }

    fn seat(&mut self, player: Player)
        requires { self.old.player ≡ None }
        ensures { self.new ≡ record { log = self.old.log; player = Some player; spoken = self.old.spoken; refused = self.old.refused } }
    {
        let_go(&mut self.ended);
        if let Some(before) = self.player.replace(player) {
            before.close();
        }
    }

    /// Lets its end go, also one whose session has ended.
    fn close(&mut self)
        ensures { self.new ≡ without_player self.old }
    {
        let_go(&mut self.player);
        let_go(&mut self.ended);
    }
}

/// Lets an end go, where there is one.
fn let_go(end: &mut Option<Player>)
    ensures { end.new ≡ None }
{
    if let Some(player) = end.take() {
        player.close();
    }
}
