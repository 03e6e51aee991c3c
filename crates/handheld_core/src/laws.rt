//! Laws of drafts and their texts.

ghost use Rattle.std.specs.Prelude.{◌≡◌, ◌↔◌, ℕ, List, [], ◌∷◌, Ok, Err, true, false, codes};
ghost use Rattle.dsd_values.specs.declared.fault.ValueFault.TheVariants.{NoSuchDay, OutOfRange};
ghost use Rattle.dsd_record.specs.declared.draft_fault.DraftFault.TheVariants.{Refused};
ghost use Rattle.dsd_record.specs.declared.draft_fault.DraftReason.TheVariants as reasons;
ghost use Rattle.handheld_core.specs.Choosing.{is_within};
ghost use Rattle.handheld_core.specs.DraftTexts.{Says};
ghost use Rattle.plain_lines.specs.PlainText.{text_of};
ghost use Rattle.handheld_core.specs.Worked.{draft_with};
ghost use Rattle.handheld_core.specs.Reading.{drafts_of};
ghost use Rattle.handheld_core.specs.declared.draft.Draft.{Draft};

/// What is read of a text is what it says, and it says one thing.
pub fn drafts_are_what_a_text_says()
    ensures read { (text : List ℕ) (drafts : List Draft) → (drafts_of text ≡ Ok drafts) ↔ Says drafts text }
    ensures one { (text : List ℕ) (drafts other : List Draft) → Says drafts text → Says other text → drafts ≡ other }
{}

/// Worked refusals of drafts: their places, and their first reasons.
pub fn worked_refusals_of_drafts()
    ensures flag { drafts_of (text_of (codes "DRAFT 1 X 20240229 - - - -" ∷ [])) ≡ Err (Refused 0 (reasons.Value 2 OutOfRange)) }
    ensures day { drafts_of (text_of (codes "DRAFT 1 D 20230229 - - - -" ∷ [])) ≡ Err (Refused 0 (reasons.Value 3 NoSuchDay)) }
    ensures ends { drafts_of (codes "DRAFT 1 D 20240229 - - - -") ≡ Err (Refused 0 reasons.Words) }
    ensures inside { drafts_of (draft_with []) ≡ Err (Refused 50 reasons.Line) }
    ensures spaces { drafts_of (draft_with (codes "ITEM 1 12 EA  1.25" ∷ [])) ≡ Err (Refused 50 reasons.Words) }
    ensures twice { drafts_of (draft_with (codes "ITEM 1 12 EA - 1.25" ∷ codes "ITEM 1 3 EA - 1" ∷ [])) ≡ Err (Refused 70 reasons.Twice) }
    ensures behind { drafts_of (draft_with (codes "ITEM 1 12 EA - 1.25" ∷ codes "COUNTER 1 1 1" ∷ codes "ITEM 2 1 EA - 1" ∷ [])) ≡ Err (Refused 84 reasons.Line) }
    ensures rate { drafts_of (draft_with (codes "ALLOW 90 02 R x" ∷ [])) ≡ Err (Refused 50 (reasons.Value 3 OutOfRange)) }
    ensures price { drafts_of (draft_with (codes "ALLOW 90 02 T 1" ∷ codes "END" ∷ [])) ≡ Err (Refused 66 reasons.Price) }
    ensures none { drafts_of [] ≡ Ok [] }
{}

/// At a tolerance of 500 amounts that differ by 500 agree, and those that differ by 501 do not.
pub fn worked_tolerance()
    ensures at { (is_within 500 1600 1100 ≡ true) × (is_within 500 1600 2100 ≡ true) }
    ensures above { (is_within 500 1600 1099 ≡ false) × (is_within 500 1600 2101 ≡ false) }
{}
