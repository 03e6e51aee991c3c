//! Laws of the lines and extras that sets are made of.

ghost use Rattle.std.specs.Prelude.{All, Bool, List, [], length, true, ℕ, ◌≤◌};
ghost use Rattle.dsd_values.specs.declared.allowance.Allowance.{Allowance as AllowanceValue};
ghost use Rattle.dsd_values.specs.declared.cost.TheConstants.Cost.{MAX as MOST_COST};
ghost use Rattle.dsd_values.specs.declared.extra.Extra.{Extra};
ghost use Rattle.dsd_values.specs.declared.extra.Extra.TheVariants.{Allow, Note as Noted};
ghost use Rattle.dsd_values.specs.declared.limits.TheConstants.{SET_BYTES};
ghost use Rattle.dsd_values.specs.declared.line.Line.{Line};
ghost use Rattle.dsd_values.specs.declared.quantity.TheConstants.Quantity.{MAX as MOST_QUANTITY};
ghost use Rattle.transaction_set.specs.Extras.{HasExtras};
ghost use Rattle.transaction_set.specs.Grammar.{BehindHead, Shared};
ghost use Rattle.segments.specs.SegmentSpelling.{IsLongSegment};
ghost use Rattle.transaction_set.specs.SoundLines.{AreSoundExtras, HaveFew, IsNote, IsPlainAllowance, IsPlainLine, IsSoundExtra, IsSoundLine};
ghost use Rattle.segments.specs.Views.{Seg};
ghost use Rattle.transaction_set.specs.declared.kind.Form.{Form};

/// A line of plain elements with sound extras is sound, and a sound line stays sound with another quantity and cost. The lines that
/// segments of a set say are sound.
pub fn sound_lines()
    ensures plain { (line : Line) → IsPlainLine line → AreSoundExtras true line.extras → IsSoundLine line }
    ensures counted { (line : Line) (quantity cost : ℕ) → IsSoundLine line → quantity ≤ MOST_QUANTITY → cost ≤ MOST_COST → IsSoundLine (record line { quantity = quantity; cost = cost }) }
    ensures said { (form : Form) (texts : List (List ℕ)) (lines : List Line) (extras : List Extra) (t : Shared) (before segments : List Seg)
        → BehindHead form texts lines extras t before segments → All IsLongSegment segments → All HasExtras lines → HaveFew lines extras → All IsSoundLine lines }
    ensures few { (form : Form) (texts : List (List ℕ)) (lines : List Line) (extras : List Extra) (t : Shared) (before segments : List Seg)
        → BehindHead form texts lines extras t before segments → length segments ≤ SET_BYTES → HaveFew lines extras }
{}

/// No extras are sound, and so is an allowance of plain elements that has a size where it needs one, and a note.
pub fn sound_extras()
    ensures none { (in_line : Bool) → AreSoundExtras in_line [] }
    ensures allowance { (in_line : Bool) (allowance : AllowanceValue) → IsPlainAllowance in_line allowance → IsSoundExtra in_line (Allow allowance) }
    ensures note { (in_line : Bool) (text : List ℕ) → IsNote in_line text → IsSoundExtra in_line (Noted text) }
{}
