//! Laws of the text of an answer.

ghost use Rattle.std.specs.Prelude.{◌≡◌, ◌≤◌, ℕ, List, None, Some, length};
ghost use Rattle.dsd_pricing.specs.declared.amounts.Totals.{Totals};
ghost use Rattle.dsd_values.specs.SignatureRecord.{IsSignature, SignatureRecord};
ghost use Rattle.dsd_values.specs.declared.cents.TheConstants.Cents.{MAX as MOST_CENTS};
ghost use Rattle.dsd_values.specs.declared.limits.TheConstants.{MOST_LINES};
ghost use Rattle.dsd_values.specs.declared.line.Line.{Line};
ghost use Rattle.dsd_values.specs.declared.quantity.TheConstants.{MOST_TOTAL_QUANTITY};
ghost use Rattle.transaction_set.specs.SoundLines.{AreSoundLines};
ghost use Rattle.transaction_set.specs.Refusal.{Refusal};
ghost use Rattle.transaction_set.specs.declared.seal.Seal.{Seal};
ghost use Rattle.adjustment_895.specs.AnswerRecord.{AnswerRecord};
ghost use Rattle.adjustment_895.specs.AnswerText.{Is895, IsAnswer};
ghost use Rattle.adjustment_895.specs.FirstRefusal.{refusal_of};
ghost use Rattle.adjustment_895.specs.Grammar.{IsLevelled};
ghost use Rattle.adjustment_895.specs.Making.{IsPlainHead, answer_made};
ghost use Rattle.adjustment_895.specs.declared.head.AnswerHead.{AnswerHead};

/// A text spells at most one answer, sealed in one way.
pub fn one_answer()
    ensures { (text : List ℕ) (answer other : AnswerRecord) (seal seal' : Seal) → Is895 answer seal text → Is895 other seal' text → (answer ≡ other) × (seal ≡ seal') }
{}

/// A text either spells an answer or has a refusal.
pub fn spelled_or_refused()
    ensures spelled { (text : List ℕ) → refusal_of text ≡ None → (answer : AnswerRecord) × (seal : Seal) × Is895 answer seal text }
    ensures refused { (text : List ℕ) (refusal : Refusal) → refusal_of text ≡ Some refusal → (answer : AnswerRecord) (seal : Seal) → Is895 answer seal text → ⊥ }
{}

/// Plain head fields, sound lines and a signature make an answer; and the lines of an answer are sound.
pub fn made_of_sound_lines()
    ensures made { (head : AnswerHead) (lines : List Line) (totals : Totals) (signature : SignatureRecord) → IsPlainHead head → AreSoundLines lines → length lines ≤ MOST_LINES → IsLevelled lines head.level
        → totals.quantity ≤ MOST_TOTAL_QUANTITY → totals.amount ≤ MOST_CENTS → IsSignature signature → IsAnswer (answer_made head lines totals signature) }
    ensures lines { (answer : AnswerRecord) → IsAnswer answer → AreSoundLines answer.lines }
{}
