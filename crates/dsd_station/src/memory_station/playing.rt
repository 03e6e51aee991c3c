ghost use Rattle.std.specs.Prelude.{◌≡◌, ◌<◌, ◌^◌, List, drop, true, false, if◌then◌else◌, Err};
ghost use Rattle.dsd_station.specs.ByPlan.{answered, due_after, due_by, is_counted, outcome_by, unless_stopped as answer_unless_stopped};
ghost use Rattle.dsd_station.specs.Causes.{HasCause};
ghost use Rattle.dsd_station.specs.Cursors.{due_at, IsIn};
ghost use Rattle.dsd_station.specs.Effects.{count_in, heard_in, IsPiece};
ghost use Rattle.dsd_station.specs.Failures.{has_failed, is_refused};
ghost use Rattle.dsd_station.specs.Logged.{played, starving, IsPlayed, Plays};
ghost use Rattle.dsd_station.specs.Notes.{Fits};
ghost use Rattle.dsd_station.specs.Planned.{Due, heard_of, left_due};
ghost use Rattle.dsd_station.specs.Replayed.{state_of};

use crate::Failed;
use crate::call::{Call, Outcome};
use crate::memory_station::MemoryStation;
use crate::port::{Cursor, hear};
use crate::station::Heard;
use crate::tape::Tape;

/// How a call of a station in memory is played: what it is to answer, and its place in the record.
impl MemoryStation {
    pub(crate) fn tape(&self) -> &Tape
        ensures { result.now ≡ self.now.calls }
    {
        &self.tape
    }

    pub(crate) fn cursor(&self) -> Cursor
        ensures inside { IsIn self.now.plan.fed result }
        ensures due { due_at self.now.plan.fed result ≡ due_by self.now.plan.fed self.now.calls }
    {
        self.cursor
    }

    /// How the next counted call goes.
    pub(crate) fn next_outcome(&self) -> Outcome
        ensures { result ≡ outcome_by self.now.plan self.now.calls }
    {
        if self.tape.is_stopped() {
            return Outcome::Failing;
        }
        match self.stop {
            Some(stop) if self.stop_in == 1 => Outcome::Stopped(stop.pick),
            _ if self.fail_in == 1 => Outcome::Failing,
            _ => Outcome::Done,
        }
    }

    /// What the next `listen` hears, and the place behind it.
    pub(crate) fn next_heard(&self, into: &mut [u8; 64]) -> (Heard, Cursor)
        ensures piece { IsPiece result.0 }
        ensures rest { drop (count_in result.0) into.new ≡ drop (count_in result.0) into.old }
        ensures heard { heard_in into.new result.0 ≡ heard_of (due_by self.now.plan.fed self.now.calls) }
        ensures inside { IsIn self.now.plan.fed result.1 }
        ensures left { due_at self.now.plan.fed result.1 ≡ left_due (due_by self.now.plan.fed self.now.calls) }
    {
        hear(&self.fed, self.cursor, into)
    }

    /// Records a call and does what it says, or fails for want of memory.
    pub(crate) fn play(&mut self, call: Call, cursor: Cursor) -> bool
        requires fits { Fits (state_of self.old.calls) call }
        requires answer { call ≡ answered self.old.plan self.old.calls call }
        requires inside { IsIn self.old.plan.fed cursor }
        requires due { due_at self.old.plan.fed cursor ≡ due_after call (due_by self.old.plan.fed self.old.calls) }
        ensures log { self.new ≡ (if result then played self.old call else starving self.old) }
        ensures played { IsPlayed self.new }
        ensures small { self.old.faults < 2 ^ 64 }
    {
        let steps = steps_of(&call);
        let failures = failures_of(&call);
        if self.tape.play(call).is_err() {
            self.starved = true;
            self.faults = self.faults.saturating_add(1);
            return false;
        }
        self.cursor = cursor;
        self.fail_in = self.fail_in.saturating_sub(steps);
        self.stop_in = self.stop_in.saturating_sub(steps);
        self.faults = self.faults.saturating_add(failures);
        true
    }

    /// Records a call that hears nothing and does what it says, and gives its answer, or fails for want of memory.
    pub(crate) fn play_here<T: Drop>(
        &mut self,
        call: Call,
        answer: Result<T, Failed>,
    ) -> Result<T, Failed>
        requires fits { Fits (state_of self.old.calls) call }
        requires answer { call ≡ answered self.old.plan self.old.calls call }
        requires deaf { (dues : List Due) → due_after call dues ≡ dues }
        requires fails { has_failed call ≡ is_refused answer }
        ensures plays { Plays call answer result self.old self.new }
        ensures played { IsPlayed self.new }
        ensures cause { HasCause self.old.faults self.new.faults result }
    {
        let cursor = self.cursor();
        if self.play(call, cursor) {
            return answer;
        }
        Err(Failed)
    }

    /// The value, unless the station has stopped.
    pub(crate) fn unless_stopped<T: Drop>(&self, value: T) -> Result<T, Failed>
        ensures { result ≡ answer_unless_stopped self.now.calls value }
    {
        if self.tape.is_stopped() {
            return Err(Failed);
        }
        Ok(value)
    }

    /// Fails for want of memory.
    pub(crate) fn starve<T>(&mut self) -> Result<T, Failed>
        ensures log { self.new ≡ starving self.old }
        ensures result { result ≡ Err (record {}) }
        ensures played { IsPlayed self.new }
        ensures cause { HasCause self.old.faults self.new.faults result }
    {
        self.starved = true;
        self.faults = self.faults.saturating_add(1);
        Err(Failed)
    }
}

/// By how much a call brings an arming nearer.
fn steps_of(call: &Call) -> u64
    ensures { result ≡ (if is_counted call.now then 1 else 0) }
{
    match call {
        Call::Write { .. } | Call::Sync { .. } | Call::Speak { .. } => 1,
        Call::Attach { .. }
        | Call::Size { .. }
        | Call::Read { .. }
        | Call::Listen { .. }
        | Call::Restart => 0,
    }
}

/// How many faults a call is.
fn failures_of(call: &Call) -> u64
    ensures { result ≡ (if has_failed call.now then 1 else 0) }
{
    let failed = match call {
        Call::Attach { answer, .. } => answer.is_err(),
        Call::Size { answer } => answer.is_err(),
        Call::Read { answer, .. } => answer.is_err(),
        Call::Write { outcome, .. } | Call::Sync { outcome } | Call::Speak { outcome, .. } => {
            !matches!(outcome, Outcome::Done)
        }
        Call::Listen { answer } => answer.is_err(),
        Call::Restart => false,
    };
    u64::from(failed)
}
