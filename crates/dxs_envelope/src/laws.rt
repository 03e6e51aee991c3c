//! Laws of the definitions, each on a function that does nothing.

ghost use Rattle.std.specs.Prelude.{All, List, None, Some, length, take, true, ℕ, ◌↔◌, ◌≡◌, ◌≤◌};
ghost use Rattle.std.specs.List.{list_all};
ghost use Rattle.dex_line.specs.Bytes.{is_text};
ghost use Rattle.dex_line.specs.TextUnits.{UnitsFit};
ghost use Rattle.dex_line.specs.declared.cutter.TheConstants.{BLOCK_WRITTEN};
ghost use Rattle.segments.specs.SegmentSpelling.{SpellsSegments};
ghost use Rattle.segments.specs.SegmentWriting.{line_of};
ghost use Rattle.segments.specs.Views.{Seg};
ghost use Rattle.segments.specs.declared.segment_write_fault.TheConstants.{SEGMENT_WRITTEN};
ghost use Rattle.dxs_envelope.specs.FirstFault.{first_fault, told_of};
ghost use Rattle.segments.specs.SetUnits.{IsInUnits};
ghost use Rattle.dxs_envelope.specs.Sending.{IsOutgoing, Sent, header_row, placed};
ghost use Rattle.dxs_envelope.specs.Transmission.{Envelope, StandsIn};
ghost use Rattle.dxs_envelope.specs.Views.{SetAt};
ghost use Rattle.dxs_envelope.specs.declared.fault.EnvelopeFault.{EnvelopeFault as FaultValue};

/// A text is a transmission of some sets, which are those that are told of it, or it has a first fault, and never both.
pub fn sets_are_told()
    ensures told { (text : List ℕ) (sets : List SetAt) → Envelope sets text ↔ (told_of text ≡ record { sets = sets; fault = None }) }
    ensures one { (text : List ℕ) (a b : List SetAt) → Envelope a text → Envelope b text → a ≡ b }
    ensures right { (text : List ℕ) → (first_fault text ≡ None) ↔ ((sets : List SetAt) × Envelope sets text) }
    ensures wrong { (text : List ℕ) (sets : List SetAt) (fault : FaultValue) → first_fault text ≡ Some fault → Envelope sets text → ⊥ }
{}

/// Each set that is told of a text, up to a fault too, is one and stands in the text at its start, behind whole segments.
pub fn sets_stand_in_their_text()
    ensures { (text : List ℕ) → All (StandsIn text) (told_of text).sets }
{}

/// The fault of a text stands in it, or at its end, and all before it is whole segments.
pub fn faults_stand_in_their_text()
    ensures within { (text : List ℕ) (fault : FaultValue) → first_fault text ≡ Some fault → fault.place ≤ length text }
    ensures behind { (text : List ℕ) (fault : FaultValue) → first_fault text ≡ Some fault
        → (segments : List Seg) × SpellsSegments 0 segments (take fault.place text) }
{}

/// What is written is a transmission of the sets that were handed in, one behind another from the end of the header on, and
/// there is one list of sets of which a text is written. It is whole units of the line.
pub fn written_sets_are_read()
    ensures read { (text : List ℕ) (sets : List (List ℕ)) (sender receiver : List ℕ) (control : ℕ) → Sent sets sender receiver control text
        → Envelope (placed (length (line_of (header_row sender receiver control))) sets) text }
    ensures one { (text : List ℕ) (a b : List (List ℕ)) (sender sender' receiver receiver' : List ℕ) (control control' : ℕ)
        → Sent a sender receiver control text → Sent b sender' receiver' control' text → a ≡ b }
    ensures units { (text : List ℕ) (sets : List (List ℕ)) (sender receiver : List ℕ) (control : ℕ) → Sent sets sender receiver control text → IsInUnits text }
{}

/// Whole units of segments are whole units of a line, of text bytes alone: so a written transmission can be cut into blocks. What is
/// written as a segment fits into one.
pub fn units_are_blocks()
    ensures units { (text : List ℕ) → IsInUnits text → UnitsFit text × (list_all is_text text ≡ true) }
    ensures outgoing { (text : List ℕ) → IsOutgoing text → UnitsFit text × (list_all is_text text ≡ true) }
    ensures segment { SEGMENT_WRITTEN ≤ BLOCK_WRITTEN }
{}
