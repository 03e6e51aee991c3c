//! Laws of the parts of a text.

ghost use Rattle.std.specs.Prelude.{List, None, [], ◌++◌, ℕ, ◌≡◌};
ghost use Rattle.dxs_envelope.specs.FirstFault.{told_of};
ghost use Rattle.dxs_envelope.specs.TextParts.{grouped, parts_of};
ghost use Rattle.dxs_envelope.specs.TextPieces.{each_taken, text_left, unheard};

/// The parts that are told of a text are the sets that are told of it, segment by segment, and then the same fault.
pub fn parts_tell_the_sets()
    ensures { (text : List ℕ) → told_of text ≡ record { sets = grouped None (parts_of text).parts; fault = (parts_of text).fault } }
{}

/// However a text comes in pieces, a stream tells its parts, one after another, and then the same fault: `told` is that of
/// all calls so far, and `whole` of a text that was taken.
pub fn a_text_stream_reads_its_text()
    ensures told { (text sizes : List ℕ) → parts_of text ≡ record { parts = (each_taken sizes (unheard text)).parts ++ (text_left (each_taken sizes (unheard text)).text (each_taken sizes (unheard text)).more).parts; fault = (text_left (each_taken sizes (unheard text)).text (each_taken sizes (unheard text)).more).fault } }
    ensures whole { (text sizes : List ℕ) → (each_taken sizes (unheard text)).more ≡ [] → parts_of text ≡ record { parts = (each_taken sizes (unheard text)).parts; fault = (text_left (each_taken sizes (unheard text)).text []).fault } }
{}
