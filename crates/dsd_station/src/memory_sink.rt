ghost use Rattle.std.specs.Prelude.{◌≡◌, ◌+◌, ◌-◌, ◌<◌, ◌≤◌, ◌↔◌, min, [], ◌⊎◌, Some, length, IfOk, OnErr, IsErr, is_err, if◌then◌else◌, Contains};
ghost use Rattle.std.specs.Io.KnownBytes.{WriteAppends};
ghost use Rattle.dsd_station.specs.Causes.{HasCause, TakesSome};
ghost use Rattle.dsd_station.specs.Feeds.{counted};

use crate::{Failed, Sink};
use dsd_values::Memory;
use std::alloc::Global;
use std::marker::Model;

/// A sink in memory with a room of its own, which fails where it is told. Its calls are counted from 1, and
/// the count stops at the last number of 64 bits.
#[derive(Drop)]
pub struct MemorySink {
    bytes: Vec<u8>,
    room: usize,
    failing: Vec<u64>,
    calls: u64,
    faults: u64,
}

impl Model for MemorySink {
    ghost use Rattle.std.specs.Prelude.{◌≤◌, ◌+◌, vec_len, vec_capacity};
    ghost use Rattle.dsd_station.specs.Feeds.{Basin};

    ghost Value = { Basin };

    ghost view = { λ s. record { written = s.bytes.items; room = s.room; failing = s.failing.items; calls = s.calls; faults = s.faults } };

    ghost invariant = { λ s. s.room + vec_len s.bytes ≤ vec_capacity s.bytes };
}

impl MemorySink {
    /// Takes the memory for `room` bytes. The calls with these numbers will fail.
    pub fn new(alloc: Global, room: usize, failing: &[u64]) -> Result<MemorySink, Memory>
        ensures { IfOk result (λ s. s ≡ record { written = []; room = room; failing = failing.now; calls = 0; faults = 0 }) }
    {
        Ok(MemorySink {
            bytes: Vec::with_capacity(alloc, room)?,
            room,
            failing: Vec::from_slice(alloc, failing)?,
            calls: 0,
            faults: 0,
        })
    }

    pub fn written(&self) -> &[u8]
        ensures { result.now ≡ self.now.written }
    {
        self.bytes.as_slice()
    }
}

impl Sink for MemorySink {
    ghost written = { λ s. Some s.written };

    ghost faults = { λ s. s.faults };

    /// Takes what fits, and fails exactly where this call's number is in the list, or where no room is left
    /// for a piece that is not empty.
    fn write(&mut self, from: &[u8]) -> Result<usize, Failed>
        ensures bound { TakesSome result from.now }
        ensures bytes { WriteAppends (Some self.old.written) (Some self.new.written) result from.now }
        ensures cause { HasCause self.old.faults self.new.faults result }
        ensures number { self.new.calls ≡ counted self.old.calls }
        ensures failing { self.new.failing ≡ self.old.failing }
        ensures fails { IsErr result ↔ (Contains self.old.failing (counted self.old.calls) ⊎ ((self.old.room ≡ 0) × (0 < length from.now))) }
        ensures most { IfOk result (λ n. (n ≡ min (length from.now) self.old.room) × (self.new.room + n ≡ self.old.room)) }
        ensures room { OnErr result (self.new.room ≡ self.old.room) }
        ensures faults { self.new.faults ≡ (if is_err result then counted self.old.faults else self.old.faults) }
    {
        self.calls = self.calls.saturating_add(1);
        let count = from.len().min(self.room);
        if self.failing.contains(&self.calls)
            || (count == 0 && !from.is_empty())
            || self.bytes.extend_from_slice(&from[..count]).is_err()
        {
            self.faults = self.faults.saturating_add(1);
            return Err(Failed);
        }
        self.room -= count;
        Ok(count)
    }
}
