//! The check of bytes that come one after another.

ghost use Rattle.std.specs.Prelude.{◌≡◌, []};
ghost use Rattle.block_check.specs.Crc16.{crc_from, crc_of, crc_step};

use super::check::{check_after, check_from};
use std::marker::Model;

/// The check of the bytes taken so far. A contract sees it as that number.
#[derive(Debug, Clone, Copy, PartialEq, Eq)]
pub struct Running {
    check: u16,
}

impl Model for Running {
    ghost use Rattle.std.specs.Prelude.{ℕ, ◌^◌, ◌<◌};

    ghost Value = { ℕ };

    ghost view = { λ running. running.check };

    ghost invariant = { λ running. running.check < 2 ^ 16 };

    ghost inverse = { λ check. record { check = check } };
}

impl Running {
    /// The check of no bytes, which is 0.
    pub fn new() -> Running
        ensures { result ≡ crc_of [] }
    {
        Running { check: 0 }
    }

    /// Takes the next byte.
    pub fn take(&mut self, byte: u8)
        ensures { self.new ≡ crc_step self.old byte }
    {
        self.check = check_after(self.check, byte);
    }

    /// Takes the next bytes at once, which gives what a `take` of each in turn gives.
    pub fn take_all(&mut self, bytes: &[u8])
        ensures { self.new ≡ crc_from self.old bytes.now }
    {
        self.check = check_from(self.check, bytes);
    }

    /// The check of the bytes taken so far.
    pub fn value(&self) -> u16
        ensures { result ≡ self.now }
    {
        self.check
    }
}
