//! Polling an end at its station in memory.

ghost use Rattle.std.specs.Prelude.{◌≡◌, false, IfOk, Some};
ghost use Rattle.dsd_station.specs.Logged.{IsPlayed};
ghost use Rattle.cable_world.specs.Noted.{runs_by};
ghost use Rattle.cable_world.specs.SeatSteps.{Grows, IsPollable, PlayerPolls, noted_answer};
ghost use Rattle.cable_world.specs.Seats.{RestsIfEnded};

use crate::answer::Answer;
use crate::player::Player;
use dsd_end::{EndFault, Turn};
use dsd_station::MemoryStation;
use dsd_values::Memory;

/// Polls an end at its station.
pub(crate) fn poll_at(player: &mut Player, station: &mut MemoryStation) -> Result<Answer, Memory>
    requires pollable { IsPollable player.old station.old.calls }
    requires unstarved { station.old.starved ≡ false }
    ensures grows { Grows station.old station.new }
    ensures polls { IfOk result (λ answer. PlayerPolls answer player.old player.new station.old station.new) }
    ensures unstarved { IfOk result (λ answer. station.new.starved ≡ false) }
    // Where the session has ended, the image holds what the book knows.
    ensures rests { IfOk result (λ answer. RestsIfEnded answer (Some player.new) station.new) }
{
    // What holds of each station in memory is known of its record.
    let _ = station.calls();
    let polled = player.poll(station);
    // The run stands under the header of its book.
    let _ = player.refused();
    if station.starved() {
        return Err(Memory);
    }
    answer_to(polled)
}

/// What is noted of an answer; want of memory is none.
fn answer_to(polled: Result<Turn, EndFault>) -> Result<Answer, Memory>
    ensures { result ≡ noted_answer polled }
{
    match polled {
        Ok(Turn::Running) => Ok(Answer::Running),
        Ok(Turn::Ended(end)) => Ok(Answer::Ended(end)),
        Err(EndFault::Memory) => Err(Memory),
        Err(fault) => Ok(Answer::Broken(fault)),
    }
}

impl Answer {
    /// Whether the end runs by what it answered.
    pub(crate) fn runs(&self) -> bool
        ensures { result ≡ runs_by self.now }
    {
        matches!(self, Answer::Opened | Answer::Running)
    }
}
