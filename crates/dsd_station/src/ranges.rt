ghost use Rattle.std.specs.Prelude.{◌≡◌, ◌≤◌, ◌<◌, ◌+◌, ◌-◌, ◌^◌, ◌++◌, length, replicate, vec_len, vec_capacity, IsOk, IfOk, OnOk};
ghost use Rattle.dsd_station.specs.Disk.{overwritten};
ghost use Rattle.dsd_station.specs.Replayed.{applied, picked, taken};

use crate::call::Pick;
use std::alloc::{AllocError, Global};
use std::marker::Model;

/// A range of bytes that was written and not synced.
#[derive(Drop)]
pub struct Range {
    at: usize,
    bytes: Vec<u8>,
}

impl Model for Range {
    ghost use Rattle.std.specs.Prelude.{ℕ, List, ◌<◌, ◌+◌, ◌^◌, vec_len};

    ghost Value = { ℕ × List ℕ };

    ghost view = { λ range. (range.at, range.bytes.items) };

    ghost invariant = { λ range. range.at + vec_len range.bytes < 2 ^ 64 };
}

impl Range {
    pub fn new(alloc: Global, at: usize, bytes: &[u8]) -> Result<Range, AllocError>
        requires { at + length bytes.now < 2 ^ 64 }
        ensures { IfOk result (λ range. range ≡ (at, bytes.now)) }
    {
        Ok(Range {
            at,
            bytes: bytes.to_vec(alloc)?,
        })
    }

    /// Puts what a pick takes of it over others.
    fn put(&self, pick: Pick, bytes: &mut Vec<u8>) -> Result<(), AllocError>
        ensures { OnOk result (bytes.new.items ≡ applied (taken pick (length self.now.1)) self.now.0 self.now.1 bytes.old.items) }
    {
        let count = count_of(pick, self.bytes.len());
        put_first(bytes, self.at, &self.bytes, count)
    }
}

/// How many of so many bytes a pick takes.
pub fn count_of(pick: Pick, length: usize) -> usize
    ensures count { result ≡ taken pick length }
    ensures within { result ≤ length }
{
    match pick {
        Pick::Keep => length,
        Pick::Drop => 0,
        Pick::Half => length / 2,
    }
}

/// What a stop leaves of sure bytes and the ranges written since.
pub fn left_by(
    alloc: Global,
    sure: &[u8],
    pending: &[Range],
    pick: Pick,
) -> Result<Vec<u8>, AllocError>
    ensures { IfOk result (λ image. image.items ≡ picked pick sure.now pending.now) }
{
    let mut image = sure.to_vec(alloc)?;
    for range in pending {
        range.put(pick, &mut image)?;
    }
    Ok(image)
}

/// Puts the first of a piece's bytes over others from a place on, with zeros where the rest would pass their end.
pub fn put_first(
    bytes: &mut Vec<u8>,
    at: usize,
    piece: &[u8],
    count: usize,
) -> Result<(), AllocError>
    requires fits { at + length piece.now < 2 ^ 64 }
    requires count { count ≤ length piece.now }
    ensures ok { OnOk result (bytes.new.items ≡ applied count at piece.now bytes.old.items) }
    ensures room { at + length piece.now ≤ vec_capacity bytes.old → IsOk result }
{
    pad(bytes, at + piece.len())?;
    bytes.as_mut_slice()[at..at + count].copy_from_slice(&piece[..count]);
    Ok(())
}

/// Puts zeros behind the bytes up to an end.
fn pad(bytes: &mut Vec<u8>, end: usize) -> Result<(), AllocError>
    ensures ok { OnOk result (bytes.new.items ≡ bytes.old.items ++ replicate (end - length bytes.old.items) 0) }
    ensures long { OnOk result (end ≤ vec_len bytes.new) }
    ensures room { end ≤ vec_capacity bytes.old → IsOk result }
{
    if end <= bytes.len() {
        return Ok(());
    }
    bytes.resize(end, 0)
}

/// Puts a piece over the bytes from a place on, where there is room for it.
pub fn put_all(bytes: &mut Vec<u8>, at: usize, piece: &[u8])
    requires within { at ≤ vec_len bytes.old }
    requires fits { at + length piece.now < 2 ^ 64 }
    requires room { at + length piece.now ≤ vec_capacity bytes.old }
    ensures { bytes.new.items ≡ overwritten bytes.old.items at piece.now }
{
    match put_first(bytes, at, piece, piece.len()) {
        Ok(()) => {}
        Err(_) => unreachable!(),
    }
}

/// Adds a piece at the end, where there is room for it.
pub fn add(bytes: &mut Vec<u8>, piece: &[u8])
    requires { vec_len bytes.old + length piece.now ≤ vec_capacity bytes.old }
    ensures { bytes.new.items ≡ bytes.old.items ++ piece.now }
{
    match bytes.extend_from_slice(piece) {
        Ok(()) => {}
        Err(_) => unreachable!(),
    }
}
