//! Laws of the cut of a text into its segments.

ghost use Rattle.std.specs.Prelude.{All, List, None, ℕ, ◌↔◌, ◌≡◌};
ghost use Rattle.segments.specs.CutSpelling.{IsCut, StandsIn, StartsFrom};
ghost use Rattle.segments.specs.SegmentCut.{Cut, cut_left, cut_of};
ghost use Rattle.segments.specs.SegmentSpelling.{SpellsSegment, SpellsSegments};
ghost use Rattle.segments.specs.Views.{Left, Seg};

/// The segments that are read from a text, one after another, are those that it spells, and no text spells two lists of
/// them. Up to a fault they are those that a front of it spells.
pub fn segments_are_those_spelled()
    ensures whole { (text : List ℕ) (segments : List Seg) → SpellsSegments 0 segments text ↔ (cut_of text ≡ record { segments = segments; fault = None }) }
    ensures one { (text : List ℕ) (a b : List Seg) → SpellsSegments 0 a text → SpellsSegments 0 b text → a ≡ b }
    ensures cut { (left : Left) (cut : Cut) → IsCut cut left ↔ (cut ≡ cut_left left) }
{}

/// Each segment of a cut is one, starts where the one before it ends, and stands in the text at its start.
pub fn segments_stand_in_their_text()
    ensures spelled { (text : List ℕ) → All SpellsSegment (cut_of text).segments }
    ensures starts { (text : List ℕ) → StartsFrom 0 (cut_of text).segments }
    ensures there { (text : List ℕ) → All (StandsIn text) (cut_of text).segments }
{}
