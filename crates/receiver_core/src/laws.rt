//! Laws of counts and their texts.

ghost use Rattle.std.specs.Prelude.{◌≡◌, ◌↔◌, ℕ, Bool, true, false, List, [], ◌∷◌, Some, None, Ok, Err, codes};
ghost use Rattle.dsd_values.specs.declared.fault.ValueFault.TheVariants.{OutOfRange, TooLong};
ghost use Rattle.dsd_values.specs.declared.line.Line.{Line};
ghost use Rattle.dsd_record.specs.declared.choice.Choice.TheVariants.{Accept, Adjust, Wait};
ghost use Rattle.dsd_record.specs.declared.draft_fault.DraftFault.TheVariants.{Refused};
ghost use Rattle.dsd_record.specs.declared.draft_fault.DraftReason.TheVariants as reasons;
ghost use Rattle.plain_lines.specs.Counting.{recounted};
ghost use Rattle.plain_lines.specs.PlainText.{text_of};
ghost use Rattle.plain_lines.specs.declared.counted.Counted.{Counted};
ghost use Rattle.receiver_core.specs.Choosing.{change_of, choice_with, uncounted as without};
ghost use Rattle.receiver_core.specs.Worked.{count_with};
ghost use Rattle.receiver_core.specs.CountTexts.{Says};
ghost use Rattle.receiver_core.specs.Reading.{counts_of};
ghost use Rattle.receiver_core.specs.declared.count.Count.{Count};

/// What is read of a text is what it says, and it says one thing.
pub fn counts_are_what_a_text_says()
    ensures read { (text : List ℕ) (counts : List Count) → (counts_of text ≡ Ok counts) ↔ Says counts text }
    ensures one { (text : List ℕ) (counts other : List Count) → Says counts text → Says other text → counts ≡ other }
{}

/// Worked refusals of counts: their places, and their first reasons.
pub fn worked_refusals_of_counts()
    ensures mark { counts_of (text_of (codes "COUNT 1" ∷ codes "SIGN TWELVECHARS12" ∷ [])) ≡ Err (Refused 8 (reasons.Value 1 (TooLong 13))) }
    ensures answer { counts_of (text_of (codes "COUNT 1" ∷ codes "SIGN S" ∷ codes "COUNTER MAYBE" ∷ [])) ≡ Err (Refused 15 (reasons.Value 1 OutOfRange)) }
    ensures order { counts_of (text_of (codes "COUNT 1" ∷ codes "ITEM 1 1 1" ∷ [])) ≡ Err (Refused 8 reasons.Line) }
    ensures inside { counts_of (count_with []) ≡ Err (Refused 35 reasons.Line) }
    ensures words { counts_of (count_with (codes "ITEM 1 12" ∷ [])) ≡ Err (Refused 35 reasons.Words) }
    ensures number { counts_of (count_with (codes "ITEM 0 12 1" ∷ [])) ≡ Err (Refused 35 (reasons.Value 1 OutOfRange)) }
    ensures twice { counts_of (count_with (codes "ITEM 1 12 1.25" ∷ codes "ITEM 1 3 1" ∷ [])) ≡ Err (Refused 50 reasons.Twice) }
    ensures again { counts_of (count_with (codes "END" ∷ codes "COUNT 100001" ∷ [])) ≡ Err (Refused 39 reasons.Twice) }
    ensures none { counts_of [] ≡ Ok [] }
{}

/// What is done on lines that differ: by the level, and by whether counters are accepted.
pub fn choices_by_level()
    ensures agreed { (counters : Bool) (level : ℕ) → choice_with [] counters level ≡ Accept }
    ensures first { (change : Line) (changes : List Line) (counters : Bool) → choice_with (change ∷ changes) counters 0 ≡ Adjust (change ∷ changes) }
    ensures second { (change : Line) (changes : List Line) (counters : Bool) → choice_with (change ∷ changes) counters 1 ≡ Wait }
    ensures accepted { (change : Line) (changes : List Line) → choice_with (change ∷ changes) true 2 ≡ Accept }
    ensures waits { (change : Line) (changes : List Line) → choice_with (change ∷ changes) false 2 ≡ Wait }
{}

/// When a line differs: a line that was not counted has quantity 0, and one of quantity 0 stays.
pub fn lines_that_differ()
    ensures none { (line : Line) → line.quantity ≡ 0 → change_of None line ≡ None }
    ensures agreed { (line : Line) (counted : Counted) → counted.quantity ≡ line.quantity → counted.cost ≡ line.cost → change_of (Some counted) line ≡ None }
    ensures fewer { (line : Line) (counted : Counted) → line.quantity ≡ 12 → counted.quantity ≡ 10 → change_of (Some counted) line ≡ Some (recounted counted line) }
    ensures uncounted { (line : Line) → line.quantity ≡ 3 → change_of None line ≡ Some (without line) }
{}
