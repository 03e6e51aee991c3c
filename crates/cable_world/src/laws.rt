//! Laws of scripts and their texts.

ghost use Rattle.std.specs.Prelude.{◌≡◌, ◌↔◌, ℕ, List, [], ◌∷◌, ◌++◌, Ok, Err, codes};
ghost use Rattle.dsd_values.specs.declared.fault.ValueFault.TheVariants.{Empty, NotDigit, OutOfRange};
ghost use Rattle.dsd_record.specs.declared.draft_fault.DraftFault.TheVariants.{Refused};
ghost use Rattle.dsd_record.specs.declared.draft_fault.DraftReason.TheVariants as reasons;
ghost use Rattle.plain_lines.specs.PlainText.{text_of};
ghost use Rattle.cable_world.specs.Reading.{script_of};
ghost use Rattle.cable_world.specs.ScriptTexts.{Says};
ghost use Rattle.cable_world.specs.Worked.{script_with, two_ends};
ghost use Rattle.cable_world.specs.declared.script.Script.{Script};

/// What is read of a text is what it says, and it says one thing.
pub fn scripts_are_what_a_text_says()
    ensures read { (text : List ℕ) (script : Script) → (script_of text ≡ Ok script) ↔ Says script text }
    ensures one { (text : List ℕ) (script other : Script) → Says script text → Says other text → script ≡ other }
{}

/// Worked refusals of scripts: their places, and their first reasons.
pub fn worked_refusals_of_scripts()
    ensures odd { script_of (script_with (codes "HEAR R 053" ∷ [])) ≡ Err (Refused 83 (reasons.Value 2 OutOfRange)) }
    ensures dash { script_of (script_with (codes "HEAR R -" ∷ [])) ≡ Err (Refused 83 (reasons.Value 2 Empty)) }
    ensures digit { script_of (script_with (codes "HEAR R 0g" ∷ [])) ≡ Err (Refused 83 (reasons.Value 2 (NotDigit 1))) }
    ensures end { script_of (script_with (codes "START R" ∷ codes "START S" ∷ [])) ≡ Err (Refused 91 (reasons.Value 1 OutOfRange)) }
    ensures times { script_of (script_with (codes "QUIET R 101" ∷ [])) ≡ Err (Refused 83 (reasons.Value 2 OutOfRange)) }
    ensures words { script_of (script_with (codes "LOSE 1" ∷ [])) ≡ Err (Refused 83 reasons.Words) }
    ensures line { script_of (script_with (codes "WAIT" ∷ [])) ≡ Err (Refused 83 reasons.Line) }
    ensures inside { script_of (text_of (two_ends ++ codes "DRAFTS" ∷ codes "COUNTS" ∷ [])) ≡ Err (Refused 76 reasons.Line) }
    ensures order { script_of (text_of (two_ends ++ codes "COUNTS" ∷ [])) ≡ Err (Refused 62 reasons.Line) }
    ensures none { script_of [] ≡ Err (Refused 0 reasons.Line) }
{}
