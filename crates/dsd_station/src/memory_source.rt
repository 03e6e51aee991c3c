ghost use Rattle.std.specs.Prelude.{◌≡◌, ◌+◌, ◌-◌, ◌<◌, ◌≤◌, ◌↔◌, min, ◌++◌, Some, length, take, drop, IfOk, OnErr, IsErr, is_err, if◌then◌else◌, Contains};
ghost use Rattle.std.specs.Io.{ReadsAtMost};
ghost use Rattle.std.specs.Io.KnownBytes.{ReadConsumes};
ghost use Rattle.dsd_station.specs.Causes.{CountsEnd, HasCause};
ghost use Rattle.dsd_station.specs.Feeds.{counted};

use crate::{Failed, Source};
use dsd_values::Memory;
use std::alloc::Global;
use std::marker::Model;

/// A source over bytes in memory that fails where it is told. Its calls are counted from 1, and the count
/// stops at the last number of 64 bits.
#[derive(Drop)]
pub struct MemorySource {
    bytes: Vec<u8>,
    at: usize,
    failing: Vec<u64>,
    calls: u64,
    ends: u64,
    faults: u64,
}

impl Model for MemorySource {
    ghost use Rattle.std.specs.Prelude.{◌≤◌, drop, vec_len};
    ghost use Rattle.dsd_station.specs.Feeds.{Feed};

    ghost Value = { Feed };

    ghost view = { λ s. record { left = drop s.at s.bytes.items; failing = s.failing.items; calls = s.calls; ends = s.ends; faults = s.faults } };

    ghost invariant = { λ s. s.at ≤ vec_len s.bytes };
}

impl MemorySource {
    /// The bytes, and the numbers of the calls that fail.
    pub fn new(alloc: Global, bytes: &[u8], failing: &[u64]) -> Result<MemorySource, Memory>
        ensures { IfOk result (λ s. s ≡ record { left = bytes.now; failing = failing.now; calls = 0; ends = 0; faults = 0 }) }
    {
        Ok(MemorySource {
            bytes: Vec::from_slice(alloc, bytes)?,
            at: 0,
            failing: Vec::from_slice(alloc, failing)?,
            calls: 0,
            ends: 0,
            faults: 0,
        })
    }
}

impl Source for MemorySource {
    ghost left = { λ s. Some s.left };

    ghost ends = { λ s. s.ends };

    ghost faults = { λ s. s.faults };

    /// Gives as many of the bytes left as fit, and fails exactly where this call's number is in the list.
    fn read(&mut self, into: &mut [u8]) -> Result<usize, Failed>
        ensures bound { ReadsAtMost result into.new }
        ensures bytes { ReadConsumes (Some self.old.left) (Some self.new.left) result into.new }
        ensures ended { CountsEnd self.old.ends self.new.ends result }
        ensures cause { HasCause self.old.faults self.new.faults result }
        ensures number { self.new.calls ≡ counted self.old.calls }
        ensures failing { self.new.failing ≡ self.old.failing }
        ensures fails { IsErr result ↔ Contains self.old.failing (counted self.old.calls) }
        ensures most { IfOk result (λ n. n ≡ min (length into.old) (length self.old.left)) }
        ensures buffer { IfOk result (λ n. into.new ≡ take n self.old.left ++ drop n into.old) }
        ensures untouched { OnErr result (into.new ≡ into.old) }
        ensures faults { self.new.faults ≡ (if is_err result then counted self.old.faults else self.old.faults) }
    {
        self.calls = self.calls.saturating_add(1);
        if self.failing.contains(&self.calls) {
            self.faults = self.faults.saturating_add(1);
            return Err(Failed);
        }
        let count = into.len().min(self.bytes.len() - self.at);
        into[..count].copy_from_slice(&self.bytes[self.at..self.at + count]);
        self.at += count;
        self.ends = self.ends.saturating_add(u64::from(count == 0));
        Ok(count)
    }
}
