//! Laws of the texts that are sets.

ghost use Rattle.std.specs.Prelude.{◌≡◌, ◌↔◌, ℕ, List, [], None, Some, true, false};
ghost use Rattle.transaction_set.specs.Kinds.{is_start_of};
ghost use Rattle.transaction_set.specs.Refusal.{Refusal};
ghost use Rattle.segments.specs.SegmentCut.{text_start};
ghost use Rattle.segments.specs.SegmentRefusal.{IsFault};
ghost use Rattle.segments.specs.SegmentSpelling.{IsFront};
ghost use Rattle.segments.specs.Views.{Left, Seg};
ghost use Rattle.transaction_set.specs.declared.kind.Form.{Form};
ghost use Rattle.transaction_set.specs.declared.kind.Form.TheVariants as forms;
ghost use Rattle.segments.specs.declared.segment_fault.SegmentFault.{SegmentFault};
ghost use Rattle.transaction_set.specs.declared.set_fault.SetReason.TheVariants as reasons;
ghost use Rattle.dsd_record.specs.ReadSets.{set_in};
ghost use Rattle.dsd_record.specs.SetTexts.{BeginsAs, IsSet, begins_as, form_of, set_refusal};
ghost use Rattle.dsd_record.specs.declared.set_view.SetView.{SetView};

/// A text is at most one set: never a base record and an answer, and neither of two values or seals.
pub fn one_set()
    ensures { (text : List ℕ) (set other : SetView) → IsSet set text → IsSet other text → set ≡ other }
{}

/// A text either is a set or has a refusal.
pub fn set_or_refusal()
    ensures spelled { (text : List ℕ) → set_refusal text ≡ None → (set : SetView) × IsSet set text }
    ensures refused { (text : List ℕ) (refusal : Refusal) → set_refusal text ≡ Some refusal → (set : SetView) → IsSet set text → ⊥ }
{}

/// The set that is read of a text is the one that the text is, and none is read of a text with a refusal.
pub fn set_in_is_the_set()
    ensures read { (text : List ℕ) (set : SetView) → (set_in text ≡ Some set) ↔ IsSet set text }
    ensures refused { (text : List ℕ) (refusal : Refusal) → set_refusal text ≡ Some refusal → set_in text ≡ None }
{}

/// A text begins as a set where an ST of it is spelled at its front, and each set begins as it is.
pub fn set_begins_as_it_is()
    ensures begins { (form : Form) (text : List ℕ) → (begins_as form text ≡ true) ↔ BeginsAs form text }
    ensures own { (set : SetView) (text : List ℕ) → IsSet set text → BeginsAs (form_of set) text }
{}

/// A text that begins as neither set is refused at its front: for its order where it is empty or another segment stands
/// there, an ST of another set too, and else for the segment that cannot be read.
pub fn text_that_begins_no_set()
    ensures empty { set_refusal [] ≡ Some (record { place = 0; reason = reasons.Order }) }
    ensures other { (text : List ℕ) (first : Seg) (behind : Left) → IsFront first (text_start text) behind → is_start_of forms.Base first ≡ false → is_start_of forms.Answer first ≡ false
        → set_refusal text ≡ Some (record { place = 0; reason = reasons.Order }) }
    ensures broken { (text : List ℕ) (fault : SegmentFault) → IsFault (text_start text) fault → set_refusal text ≡ Some (record { place = 0; reason = reasons.Segment fault }) }
{}
