//! Laws of versions and of the chains that make them.

ghost use Rattle.std.specs.Prelude.{◌≡◌, ◌↔◌, ℕ, List, None, Option, length, map};
ghost use Rattle.std.specs.List.{range_with_len};
ghost use Rattle.dsd_pricing.specs.declared.amounts.Totals.{Totals};
ghost use Rattle.dsd_values.specs.SignatureRecord.{IsSignature, SignatureRecord};
ghost use Rattle.dsd_values.specs.declared.line.Line.{Line};
ghost use Rattle.adjustment_895.specs.AnswerRecord.{AnswerRecord};
ghost use Rattle.adjustment_895.specs.AnswerText.{IsAnswer};
ghost use Rattle.adjustment_895.specs.Grammar.{IsLevelled};
ghost use Rattle.adjustment_895.specs.Making.{IsPlainHead, answer_made};
ghost use Rattle.adjustment_895.specs.declared.head.AnswerHead.{AnswerHead};
ghost use Rattle.dsd_record.specs.Applying.{Applies, apply_fault, stated_by};
ghost use Rattle.dsd_record.specs.Chain.{Chain, IsChained};
ghost use Rattle.dsd_record.specs.ChangedPrice.{IsPriceAfter};
ghost use Rattle.dsd_record.specs.Choices.{Chooser, ChoosesSoundly};
ghost use Rattle.dsd_record.specs.Naming.{Names, proposal_of};
ghost use Rattle.dsd_record.specs.Version.{IsVersion, Version};
ghost use Rattle.dsd_record.specs.declared.choice.Choice.TheVariants.{Adjust};

/// The levels of the adjustments of a chain are 1, 2 and so on.
pub fn levels_of_a_chain()
    ensures { (chain : Chain) → IsChained chain → map (λ adjustment. adjustment.answer.level) chain.adjustments ≡ range_with_len 1 (length chain.adjustments) }
{}

/// An answer applies to a version exactly where it has no fault.
pub fn answers_without_fault_apply()
    ensures { (version : Version) (answer : AnswerRecord) → (apply_fault version answer ≡ None) ↔ Applies version answer }
{}

/// An answer with the flag of a version, which names the proposal that made it, applies exactly where it states the totals
/// that the rows would have with its lines.
pub fn answers_at_their_price_apply()
    ensures applies { (version : Version) (answer : AnswerRecord) → answer.flag ≡ version.flag → Names answer (proposal_of version) → IsPriceAfter version answer.lines (stated_by answer) → Applies version answer }
    ensures price { (version : Version) (answer : AnswerRecord) → IsAnswer answer → Applies version answer → IsPriceAfter version answer.lines (stated_by answer) }
{}

/// Lines that are chosen on a version, and have a price there, make an answer with each plain head, level and signature: so it
/// can be written, lengths aside.
pub fn chosen_lines_can_be_stated()
    ensures { (chooser : Chooser) (version : Version) (own_amount : Option ℕ) (lines : List Line) (totals : Totals) → ChoosesSoundly chooser → IsVersion version → chooser.choice version own_amount ≡ Adjust lines → IsPriceAfter version lines totals
        → (head : AnswerHead) (signature : SignatureRecord) → IsPlainHead head → IsLevelled lines head.level → IsSignature signature → IsAnswer (answer_made head lines totals signature) }
{}
