//! Laws of the definitions, each on a function that does nothing.

ghost use Rattle.std.specs.Prelude.{[], ◌≡◌, ◌≤◌, ◌++◌, ◌∷◌, true, ℕ, Bool, List, Option, codes, length, map};
ghost use Rattle.std.specs.List.{concat, flat_map, fold};
ghost use Rattle.dex_line.specs.BlockCut.{blocks_of, CutOf, CutRun, IsCutInto};
ghost use Rattle.dex_line.specs.Captured.{frames_in, with_places, FramesIn, IsCoveredBy};
ghost use Rattle.dex_line.specs.declared.frame.Opened.{Opened};
ghost use Rattle.dex_line.specs.FrameShapes.{Block, Damaged, Enq, Eot, FrameShape};
ghost use Rattle.dex_line.specs.FrameSpelling.{high_check, is_closing, low_check, spelling, wrapped, Answers, IsTextOf, Spelled};
ghost use Rattle.dex_line.specs.Hearing.{hear_all, hearing, nothing_heard, AreSpoken, HeardAs};
ghost use Rattle.dex_line.specs.Judging.{judge};
ghost use Rattle.dex_line.specs.Occurrence.{AreItems, IsCutShort, IsOneItem, Occurs, OccursBetween};
ghost use Rattle.dex_line.specs.TextUnits.{units_of, UnitsFit};

/// No bytes spell two frames, and no spelling is a proper front of another one.
pub fn spellings_stand_apart()
    ensures one { (a b : FrameShape) (bytes : List ℕ) → Spelled a bytes → Spelled b bytes → a ≡ b }
    ensures whole { (a b : FrameShape) (bytes : List ℕ) (x : ℕ) (more : List ℕ)
        → Spelled a bytes → Spelled b (bytes ++ x ∷ more) → ⊥ }
    // What differs from a header's or block's spelling in the check alone spells Damaged.
    ensures damaged { (opened : Opened) (text : List ℕ) (closing low high : ℕ)
        → IsTextOf opened text → is_closing opened closing ≡ true
        → ((low ≡ low_check text closing) × (high ≡ high_check text closing) → ⊥)
        → Spelled Damaged (wrapped opened text closing low high) }
{}

/// There is one answer to the bytes since the last one, and the decision from the left finds it.
pub fn answers_are_decided()
    ensures one { (bytes : List ℕ) (a b : Option FrameShape) → Answers bytes a → Answers bytes b
        → a ≡ b }
    ensures found { (bytes : List ℕ) → Answers bytes (judge bytes) }
{}

/// A stream is heard as the frames that it spells, in whatever pieces it comes.
pub fn streams_are_heard_whole()
    ensures pieces { (pieces : List (List ℕ))
        → fold hear_all nothing_heard pieces ≡ hear_all nothing_heard (concat pieces) }
    ensures frames { (bytes : List ℕ)
        → HeardAs bytes (hear_all nothing_heard bytes).shapes (hear_all nothing_heard bytes).begun }
    ensures only { (bytes : List ℕ) (shapes : List FrameShape) (rest : List ℕ) → HeardAs bytes shapes rest
        → hear_all nothing_heard bytes ≡ hearing rest shapes }
{}

/// What is spelled is heard: frames, the last one perhaps cut short, are heard as themselves, and no bytes are two such
/// lists.
pub fn spoken_frames_are_heard()
    ensures heard { (shapes : List FrameShape) (cut : List ℕ) → AreSpoken shapes → IsCutShort cut
        → hear_all nothing_heard (flat_map spelling shapes ++ cut) ≡ hearing cut shapes }
    ensures one { (a b : List FrameShape) (v w : List ℕ) → AreSpoken a → AreSpoken b → IsCutShort v → IsCutShort w
        → flat_map spelling a ++ v ≡ flat_map spelling b ++ w → (a ≡ b) × (v ≡ w) }
{}

/// Captured bytes have one list of frames with their places, which is the join of their spellings up to the one that is
/// refused.
pub fn captured_frames_are_found()
    ensures found { (bytes : List ℕ) → FramesIn 0 bytes (frames_in bytes) }
    ensures one { (bytes : List ℕ) (frames : List (ℕ × FrameShape)) → FramesIn 0 bytes frames
        → frames ≡ frames_in bytes }
    ensures covered { (bytes : List ℕ) → IsCoveredBy bytes (frames_in bytes) }
    ensures said { (shapes : List FrameShape) → AreSpoken shapes
        → frames_in (flat_map spelling shapes) ≡ with_places 0 shapes }
{}

/// The blocks that the calls of a cutter give are the blocks of the text. There is one such list, and no cut into whole
/// units has fewer.
pub fn cuts_are_fewest()
    ensures some { (text : List ℕ) → UnitsFit text → CutOf text (blocks_of text) }
    ensures run { (text : List ℕ) (blocks : List (List ℕ × Bool)) → CutRun text blocks []
        → CutOf text blocks }
    ensures joined { (text : List ℕ) (blocks : List (List ℕ × Bool)) → CutOf text blocks
        → concat (map (λ block. block.0) blocks) ≡ text }
    ensures one { (text : List ℕ) (a b : List (List ℕ × Bool)) → CutOf text a → CutOf text b
        → a ≡ b }
    ensures fewest { (text : List ℕ) (blocks : List (List ℕ × Bool)) (others : List (List (List ℕ)))
        → CutOf text blocks → IsCutInto text others → length blocks ≤ length others }
{}

/// In a join of frames, each whole or with its last byte inverted, a spelling of a data block occurs only as one whole
/// frame. So it is too where the last frame is cut short.
pub fn blocks_stand_alone()
    ensures whole { (last : Bool) (text : List ℕ) (items : List (List ℕ)) (front back : List ℕ)
        → AreItems items → OccursBetween front back last text (concat items)
        → IsOneItem items front (spelling (Block last text)) back }
    ensures cut { (last : Bool) (text : List ℕ) (items : List (List ℕ)) (short front back : List ℕ)
        → AreItems items → IsCutShort short → OccursBetween front back last text (concat items ++ short)
        → (before : List (List ℕ)) × (after : List (List ℕ)) × (items ≡ before ++ spelling (Block last text) ∷ after)
        × (front ≡ concat before) × (back ≡ concat after ++ short) }
    ensures item { (last : Bool) (text : List ℕ) (items : List (List ℕ)) (short : List ℕ)
        → AreItems items → IsCutShort short → Occurs last text (concat items ++ short)
        → (before : List (List ℕ)) × (after : List (List ℕ)) × (items ≡ before ++ spelling (Block last text) ∷ after) }
{}

/// A G85 and the SE behind it are one unit.
pub fn trailers_stay_with_their_set_end()
    ensures { units_of (codes "G85*5170" ++ 13 ∷ 10 ∷ codes "SE*2*1" ++ 13 ∷ 10 ∷ [])
        ≡ (codes "G85*5170" ++ 13 ∷ 10 ∷ codes "SE*2*1" ++ 13 ∷ 10 ∷ []) ∷ [] }
{}

/// A block that occurs has a text that a block may have. Bytes alone do not tell: the blocks `#KN` and `B` with an end and
/// an enquiry between them have the bytes of one block of twelve, which nobody can say.
pub fn no_block_holds_frames()
    ensures alike { flat_map spelling (Block true (codes "#KN") ∷ Eot ∷ Enq ∷ Block true (codes "B") ∷ [])
        ≡ spelling (Block true (0x23 ∷ 0x4B ∷ 0x4E ∷ 0x10 ∷ 0x03 ∷ 0x0E ∷ 0x33 ∷ 0x04 ∷ 0x05 ∷ 0x10 ∷ 0x02 ∷ 0x42 ∷ [])) }
    ensures none { (bytes : List ℕ)
        → Occurs true (0x23 ∷ 0x4B ∷ 0x4E ∷ 0x10 ∷ 0x03 ∷ 0x0E ∷ 0x33 ∷ 0x04 ∷ 0x05 ∷ 0x10 ∷ 0x02 ∷ 0x42 ∷ []) bytes → ⊥ }
{}
