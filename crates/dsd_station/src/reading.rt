ghost use Rattle.std.specs.Prelude.{◌≡◌, ℕ, ◌+◌, ◌<◌, ◌≤◌, ◌^◌, List, length, IfOk, OnOk, OnErr, IsErrOf, vec_len};
ghost use Rattle.std.specs.Io.KnownBytes.{Consumes, IsAtEnd};
ghost use Rattle.dsd_station.specs.Causes.{OneEndAtMost, Rose, TakesUpTo};
ghost use Rattle.dsd_station.specs.Pieces.{HasGiven, HoldsMore};
ghost use Rattle.dsd_station.specs.declared.reading.ReadFault.TheVariants.{Failed as ReadFailed, Memory};

use crate::{Failed, Source, Taker};
use dsd_values::Memory as NoMemory;
use std::alloc::{AllocError, Global};

/// How many bytes one read of a source asks for at most.
const PIECE_BYTES: usize = 16_384;

/// Why a source was not read to its end.
#[derive(Clone, Copy, Debug, PartialEq, Eq)]
pub enum ReadFault {
    /// A read failed.
    Failed,
    /// No memory was left for the bytes.
    Memory,
}

impl From<Failed> for ReadFault {
    ghost from_gives = { λ _ fault. fault ≡ ReadFailed };

    fn from(_: Failed) -> ReadFault {
        ReadFault::Failed
    }
}

impl From<AllocError> for ReadFault {
    ghost from_gives = { λ _ fault. fault ≡ Memory };

    fn from(_: AllocError) -> ReadFault {
        ReadFault::Memory
    }
}

impl From<NoMemory> for ReadFault {
    ghost from_gives = { λ _ fault. fault ≡ Memory };

    fn from(_: NoMemory) -> ReadFault {
        ReadFault::Memory
    }
}

/// Reads a source to its end, or until it has given `limit` bytes. It asks for no byte more, and does not read again
/// after the end: no second one can be heard.
pub fn read_up_to<S: Source>(
    alloc: Global,
    source: &mut S,
    limit: usize,
) -> Result<Vec<u8>, ReadFault>
    ensures bound { IfOk result (λ all. vec_len all ≤ limit) }
    ensures bytes { IfOk result (λ all. Consumes (S.left source.old) (S.left source.new) all.items) }
    ensures kept { OnOk result (S.faults source.new ≡ S.faults source.old) }
    ensures end { IfOk result (λ all. vec_len all < limit → IsAtEnd (S.left source.new)) }
    ensures ended { OneEndAtMost (S.ends source.old) (S.ends source.new) }
    ensures taken { OnErr result (TakesUpTo limit (S.left source.old) (S.left source.new)) }
    ensures later { S.faults source.old ≤ S.faults source.new }
    ensures failed { IsErrOf result ReadFault.Failed → Rose (S.faults source.old) (S.faults source.new) }
{
    let mut all = Vec::new(alloc);
    read_through(source, &mut all, limit)?;
    Ok(all)
}

/// Reads a source to its end, or until it has given `limit` bytes, and hands them on in pieces as they come. It asks
/// for no byte more, and does not read again after the end. It answers how many came.
pub fn read_through<S: Source, T: Taker>(
    source: &mut S,
    taker: &mut T,
    limit: usize,
) -> Result<usize, ReadFault>
    requires { T.reach taker.old + limit < 2 ^ 64 }
    ensures read { IfOk result (λ count. (bytes : List ℕ) × (length bytes ≡ count) × HasGiven limit (S.left source.old) (S.left source.new) bytes × HoldsMore T.holds taker.old taker.new bytes) }
    ensures kept { OnOk result (S.faults source.new ≡ S.faults source.old) }
    ensures ended { OneEndAtMost (S.ends source.old) (S.ends source.new) }
    ensures taken { OnErr result (TakesUpTo limit (S.left source.old) (S.left source.new)) }
    ensures later { S.faults source.old ≤ S.faults source.new }
    ensures failed { IsErrOf result ReadFault.Failed → Rose (S.faults source.old) (S.faults source.new) }
{
    let mut piece = [0u8; PIECE_BYTES];
    let mut room = limit;
    while room > 0 {
        let count = hand_piece(source, taker, &mut piece, room)?;
        if count == 0 {
            break;
        }
        room -= count;
    }
    Ok(limit - room)
}

/// Reads once through the lent piece, and hands on what came.
fn hand_piece<S: Source, T: Taker>(
    source: &mut S,
    taker: &mut T,
    piece: &mut [u8; PIECE_BYTES],
    room: usize,
) -> Result<usize, ReadFault>
    requires some { 0 < room }
    requires reach { T.reach taker.old + room < 2 ^ 64 }
    ensures bound { IfOk result (λ n. n ≤ room) }
    ensures bytes { IfOk result (λ n. (bytes : List ℕ) × (length bytes ≡ n) × Consumes (S.left source.old) (S.left source.new) bytes × HoldsMore T.holds taker.old taker.new bytes) }
    ensures reach { IfOk result (λ n. T.reach taker.new ≤ T.reach taker.old + n) }
    ensures kept { OnOk result (S.faults source.new ≡ S.faults source.old) }
    ensures end { IfOk result (λ n. n ≡ 0 → IsAtEnd (S.left source.new)) }
    ensures ended { IfOk result (λ n. 0 < n → S.ends source.new ≡ S.ends source.old) }
    ensures once { OneEndAtMost (S.ends source.old) (S.ends source.new) }
    ensures taken { OnErr result (TakesUpTo room (S.left source.old) (S.left source.new)) }
    ensures later { S.faults source.old ≤ S.faults source.new }
    ensures failed { IsErrOf result ReadFault.Failed → Rose (S.faults source.old) (S.faults source.new) }
{
    let most = PIECE_BYTES.min(room);
    let count = source.read(&mut piece[..most])?;
    taker.take(&piece[..count])?;
    Ok(count)
}
