//! Segments of a text in pieces, handed to the reader of a set.

ghost use Rattle.std.specs.Prelude.{◌≡◌, ◌+◌, ◌<◌, ◌≤◌, ◌^◌, ℕ, List, [], drop, length, IfErr, IfOk, OnOk, None};
ghost use Rattle.segments.specs.Streaming.{reached};
ghost use Rattle.set_stream.specs.StreamedSets.{IsRefusedBy, Reads};

use dsd_record::SetReader;
use segments::SegmentStream;
use transaction_set::SetFault;

/// Takes a whole piece, up to the first refusal.
pub fn feed(segments: &mut SegmentStream, set: &mut SetReader, piece: &[u8]) -> Result<(), SetFault>
    requires placed { reached segments.old + length piece.now < 2 ^ 64 }
    ensures reach { OnOk result (reached segments.new ≡ reached segments.old + length piece.now) }
    ensures goes { OnOk result ((text : List ℕ) → Reads text segments.old set.old piece.now → Reads text segments.new set.new []) }
    ensures stops { IfErr result (λ fault. (text : List ℕ) → Reads text segments.old set.old piece.now → IsRefusedBy text fault) }
{
    let mut rest = piece;
    while !rest.is_empty() {
        match feed_one(segments, set, rest) {
            Ok(size) => rest = behind(rest, size),
            Err(fault) => return Err(fault),
        }
    }
    Ok(())
}

/// Takes the bytes up to the end of a segment, and the segment that they end.
#[inline(always)]
fn feed_one(
    segments: &mut SegmentStream,
    set: &mut SetReader,
    rest: &[u8],
) -> Result<usize, SetFault>
    requires placed { reached segments.old + length rest.now < 2 ^ 64 }
    ensures inside { IfOk result (λ size. size ≤ length rest.now) }
    ensures some { IfOk result (λ size. 0 < length rest.now → 0 < size) }
    ensures reach { IfOk result (λ size. reached segments.new ≡ reached segments.old + size) }
    ensures goes { IfOk result (λ size. (text : List ℕ) → Reads text segments.old set.old rest.now → Reads text segments.new set.new (drop size rest.now)) }
    ensures stops { IfErr result (λ fault. (text : List ℕ) → Reads text segments.old set.old rest.now → IsRefusedBy text fault) }
{
    let size = match segments.take(rest) {
        Ok(size) => size,
        Err(fault) => return Err(set.broken(fault)),
    };
    let Some(segment) = segments.segment() else {
        return Ok(size);
    };
    match set.take(&segment) {
        Ok(_) => Ok(size),
        Err(fault) => Err(fault),
    }
}

/// The bytes behind so many.
fn behind(bytes: &[u8], count: usize) -> &[u8]
    requires { count ≤ length bytes.now }
    ensures { result.now ≡ drop count bytes.now }
{
    &bytes[count..]
}
