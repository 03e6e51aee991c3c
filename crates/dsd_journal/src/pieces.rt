//! Reading an image piece by piece.

ghost use Rattle.std.specs.Prelude.{◌≡◌, ◌≢◌, ◌⊎◌, ◌+◌, ◌<◌, ◌≤◌, ℕ, Err, [], drop, length, IfOk, vec_len};
ghost use Rattle.dsd_station.specs.Causes.{Rose};
ghost use Rattle.dsd_journal.specs.Devices.{IsStationFault, Looks};
ghost use Rattle.dsd_journal.specs.Pieces.{IsSoFar, ReadsOn};

use crate::limits::HEADER_BYTES;
use crate::opening::OpenFault;
use dsd_station::Station;

/// How many bytes are asked for at once.
pub(crate) const PIECE_BYTES: usize = 65_536;

/// Reads once from a place on, through the lent piece, and puts what came behind the bytes. A 0 is the image's end.
pub(crate) fn read_more<T: Station>(
    station: &mut T,
    at: u64,
    bytes: &mut Vec<u8>,
    piece: &mut [u8],
) -> Result<u64, OpenFault>
    ensures later { T.faults station.old ≤ T.faults station.new }
    ensures cause { result ≡ Err OpenFault.Station → Rose (T.faults station.old) (T.faults station.new) }
    ensures kept { IsStationFault result ⊎ (T.faults station.new ≡ T.faults station.old) }
    ensures no_refusal { (place : ℕ) → result ≢ Err (OpenFault.NotAJournal place) }
    ensures piece { length piece.new ≡ length piece.old }
    ensures len { IfOk result (λ count. vec_len bytes.new ≡ vec_len bytes.old + count) }
    ensures most { IfOk result (λ count. count ≤ length piece.old) }
    ensures bytes { T.tells → IfOk result (λ count. ReadsOn (T.told station.old).journal at (length piece.old) count bytes.old.items bytes.new.items) }
    ensures told { T.tells → Looks (IsStationFault result) (T.told station.old) (T.told station.new) }
{
    let Ok(count) = station.read_at(at, piece) else {
        return Err(OpenFault::Station);
    };
    match bytes.extend_from_slice(&piece[..count]) {
        Ok(()) => Ok(count as u64),
        Err(_) => Err(OpenFault::Memory),
    }
}

/// Reads the front of an image: at least a header's bytes, where it has them. Answers up to which place.
pub(crate) fn read_front<T: Station>(
    station: &mut T,
    bytes: &mut Vec<u8>,
    piece: &mut [u8],
) -> Result<u64, OpenFault>
    requires empty { bytes.old.items ≡ [] }
    requires piece { length piece.old ≡ PIECE_BYTES }
    ensures later { T.faults station.old ≤ T.faults station.new }
    ensures cause { result ≡ Err OpenFault.Station → Rose (T.faults station.old) (T.faults station.new) }
    ensures kept { IsStationFault result ⊎ (T.faults station.new ≡ T.faults station.old) }
    ensures no_refusal { (place : ℕ) → result ≢ Err (OpenFault.NotAJournal place) }
    ensures piece { length piece.new ≡ PIECE_BYTES }
    ensures len { IfOk result (λ at. vec_len bytes.new ≡ at) }
    ensures bytes { T.tells → IfOk result (λ at. IsSoFar (T.told station.old).journal at bytes.new.items) }
    ensures end { T.tells → IfOk result (λ at. at < HEADER_BYTES → at ≡ length (T.told station.old).journal) }
    ensures told { T.tells → Looks (IsStationFault result) (T.told station.old) (T.told station.new) }
{
    let mut at = 0;
    while at < HEADER_BYTES as u64 {
        match read_more(station, at, bytes, piece) {
            Err(fault) => return Err(fault),
            Ok(0) => return Ok(at),
            Ok(count) => at += count,
        }
    }
    Ok(at)
}

/// Drops bytes at the front.
pub(crate) fn cut_front(bytes: &mut Vec<u8>, count: usize)
    requires { count ≤ vec_len bytes.old }
    ensures { bytes.new.items ≡ drop count bytes.old.items }
{
    let left = bytes.len() - count;
    bytes.copy_within(count.., 0);
    bytes.truncate(left);
}
