//! Laws of a stream of segments.

ghost use Rattle.std.specs.Prelude.{List, [], ◌++◌, is_some, true, ℕ, ◌⊎◌, ◌≡◌};
ghost use Rattle.segments.specs.SegmentCut.{cut_of};
ghost use Rattle.segments.specs.Streaming.{IsOpen, Stream, after_piece, cut_ahead, each_call, fault_at_end, push_each, unread};

/// However a text comes in pieces, a stream tells the segments that a reader of the whole text lends, one after another, and
/// then the same fault: `told` is that of all calls so far, and `whole` of a text that was taken, or on which a fault was
/// answered.
pub fn a_stream_reads_its_text()
    ensures told { (text sizes : List ℕ) → cut_of text ≡ record { segments = (each_call sizes (unread text)).segments ++ (cut_ahead (each_call sizes (unread text))).segments; fault = (cut_ahead (each_call sizes (unread text))).fault } }
    ensures whole { (text sizes : List ℕ) → ((each_call sizes (unread text)).more ≡ []) ⊎ (is_some (each_call sizes (unread text)).stream.fault ≡ true) → cut_of text ≡ record { segments = (each_call sizes (unread text)).segments; fault = fault_at_end (each_call sizes (unread text)).stream } }
{}

/// To take a piece is to push its bytes, one after another, up to the one that ends a segment or is a fault. So a segment is
/// told at the last byte of its terminator, and a fault at the first byte at which it stands.
pub fn pieces_are_their_bytes()
    ensures { (stream : Stream) (piece : List ℕ) → IsOpen stream.begun → after_piece stream piece ≡ push_each (after_piece stream []) piece }
{}
