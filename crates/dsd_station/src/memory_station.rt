ghost use Rattle.std.specs.Prelude.{◌≡◌, ◌<◌, ◌^◌, [], true, false, length, OnOk, OnErr};
ghost use Rattle.dsd_station.specs.ByPlan.{due_by};
ghost use Rattle.dsd_station.specs.Logged.{image_by, new_log, IsPlayed};
ghost use Rattle.dsd_station.specs.Plans.{with_fed, with_failure, with_stop, disarmed, after_restart};
ghost use Rattle.dsd_station.specs.Replayed.{state_of};

mod playing;

use crate::arming::{ArmedFail, ArmedStop};
use crate::call::{Call, Pick};
use crate::feeding::{Fed, Given};
use crate::handed::Handed;
use crate::port::{Cursor, is_silent};
use crate::tape::Tape;
use dsd_values::Memory;
use std::alloc::Global;
use std::marker::Model;

/// A station in memory. It hears what it was fed, and fails and stops where it is told to.
///
/// Contracts see its record of calls and its plan. Each answer is the one that these two give. A call that finds no
/// memory to be recorded does nothing and fails, which `starved` tells.
#[derive(Drop)]
pub struct MemoryStation {
    tape: Tape,
    fed: Vec<Fed>,
    cursor: Cursor,
    failure: Option<ArmedFail>,
    fail_in: u64,
    stop: Option<ArmedStop>,
    stop_in: u64,
    since: u64,
    faults: u64,
    starved: bool,
}

impl Model for MemoryStation {
    ghost use Rattle.dsd_station.specs.Logged.{Log};
    ghost use Rattle.dsd_station.specs.Placed.{log_of, IsPlaced};

    ghost Value = { Log };

    ghost view = { log_of };

    ghost invariant = { IsPlaced };
}

impl MemoryStation {
    /// A station with an empty journal, on which nothing is armed.
    pub fn new(alloc: Global) -> MemoryStation
        ensures { result ≡ new_log }
    {
        MemoryStation {
            tape: Tape::new(alloc),
            fed: Vec::new(alloc),
            cursor: Cursor { head: 0, offset: 0 },
            failure: None,
            fail_in: 0,
            stop: None,
            stop_in: 0,
            since: 0,
            faults: 0,
            starved: false,
        }
    }

    /// Says what `listen` will hear: these bytes.
    pub fn feed(&mut self, bytes: &[u8]) -> Result<(), Memory>
        ensures ok { OnOk result (self.new ≡ with_fed self.old (Given.Bytes bytes.now)) }
        ensures err { OnErr result (self.new ≡ self.old) }
    {
        let bytes = Handed::new(self.tape.allocator(), bytes)?;
        self.feed_one(Given::Bytes(bytes))
    }

    /// That nothing comes, so many times.
    pub fn feed_quiet(&mut self, times: u32) -> Result<(), Memory>
        ensures ok { OnOk result (self.new ≡ with_fed self.old (Given.Quiet times)) }
        ensures err { OnErr result (self.new ≡ self.old) }
    {
        self.feed_one(Given::Quiet(times))
    }

    /// That the cable is unplugged, once.
    pub fn feed_unplugged(&mut self) -> Result<(), Memory>
        ensures ok { OnOk result (self.new ≡ with_fed self.old Given.Unplugged) }
        ensures err { OnErr result (self.new ≡ self.old) }
    {
        self.feed_one(Given::Unplugged)
    }

    fn feed_one(&mut self, given: Given) -> Result<(), Memory>
        ensures ok { OnOk result (self.new ≡ with_fed self.old given) }
        ensures err { OnErr result (self.new ≡ self.old) }
    {
        let at = self.tape.len();
        self.fed.push(Fed { given, at })?;
        self.since = at;
        Ok(())
    }

    /// Makes one of the calls `write_at`, `sync` and `speak` fail: the one of this number from here, the next
    /// being 1.
    pub fn arm_fail(&mut self, number: u64)
        ensures { self.new ≡ with_failure self.old number }
    {
        let at = self.tape.len();
        self.failure = Some(ArmedFail { number, at });
        self.fail_in = number;
        self.since = at;
    }

    /// Makes the station stop inside one of these calls. After that every call fails, until a restart.
    pub fn arm_stop(&mut self, number: u64, pick: Pick)
        ensures { self.new ≡ with_stop self.old number pick }
    {
        let at = self.tape.len();
        self.stop = Some(ArmedStop { number, pick, at });
        self.stop_in = number;
        self.since = at;
    }

    /// Takes away what is armed and has not fallen.
    pub fn disarm(&mut self)
        ensures { self.new ≡ disarmed self.old }
    {
        if self.fail_in > 0 {
            self.failure = None;
        }
        if self.stop_in > 0 {
            self.stop = None;
        }
        self.fail_in = 0;
        self.stop_in = 0;
        self.since = self.tape.len();
    }

    /// Makes the station work again: over the image that a stop left, or where none came over the journal as it is,
    /// with what was written and not synced. What was fed is dropped, and what is armed stays.
    pub fn restart(&mut self) -> Result<(), Memory>
        ensures ok { OnOk result (self.new ≡ after_restart self.old) }
        ensures err { OnErr result (self.new ≡ self.old) }
    {
        self.tape.play(Call::Restart)?;
        self.fed.clear();
        self.cursor = Cursor { head: 0, offset: 0 };
        self.since = self.tape.len();
        Ok(())
    }

    /// Whether a call failed by neither an armed failure nor a stop, which is want of memory.
    pub fn starved(&self) -> bool
        ensures value { result ≡ self.now.starved }
        ensures played { IsPlayed self.now }
        ensures short { length self.now.calls < 2 ^ 63 }
    {
        let _ = self.tape.len();
        self.starved
    }

    /// The record of its calls, the oldest first.
    pub fn calls(&self) -> &[Call]
        ensures value { result.now ≡ self.now.calls }
        ensures played { IsPlayed self.now }
    {
        self.tape.calls()
    }

    /// Whether all that was fed is heard.
    pub fn is_heard(&self) -> bool
        ensures heard { result ≡ true → due_by self.now.plan.fed self.now.calls ≡ [] }
        ensures left { result ≡ false → 0 < length (due_by self.now.plan.fed self.now.calls) }
    {
        is_silent(&self.fed, self.cursor)
    }

    /// All bytes gone out.
    pub fn spoken(&self) -> &[u8]
        ensures value { result.now ≡ (state_of self.now.calls).now.gone }
        ensures played { IsPlayed self.now }
        ensures short { length self.now.calls < 2 ^ 63 }
    {
        self.tape.spoken()
    }

    /// The image that a stop left until the restart, and else the journal as a read gives it.
    pub fn image(&self) -> &[u8]
        ensures value { result.now ≡ image_by self.now }
        ensures played { IsPlayed self.now }
        ensures short { length self.now.calls < 2 ^ 63 }
    {
        self.tape.image()
    }
}
