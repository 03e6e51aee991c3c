//! Laws of what an end chooses and asks of one delivery, whatever it does of others.

ghost use Rattle.std.specs.Prelude.{All, Contains, List, Ok, Option, bytes_eq, false, ℕ, ◌+◌, ◌≡◌, ◌≤◌};
ghost use Rattle.std.specs.Option.{option_map};
ghost use Rattle.dsd_values.specs.declared.role.Role.{Role};
ghost use Rattle.dsd_values.specs.declared.role.Role.TheVariants.{Supplier};
ghost use Rattle.base_record_894.specs.BaseRecord.{BaseRecord};
ghost use Rattle.base_record_894.specs.RecordText.{IsBase};
ghost use Rattle.base_record_894.specs.WrittenText.{written_of as base_written};
ghost use Rattle.adjustment_895.specs.AnswerRecord.{AnswerRecord};
ghost use Rattle.adjustment_895.specs.WrittenText.{written_of};
ghost use Rattle.dsd_record.specs.Choices.{Chooser};
ghost use Rattle.dsd_record.specs.Version.{Version};
ghost use Rattle.dsd_journal.specs.declared.entry.Entry.{Entry};
ghost use Rattle.dsd_journal.specs.declared.header.Header.{Header};
ghost use Rattle.delivery_book.specs.Deeds.{deeds_of};
ghost use Rattle.delivery_book.specs.Signing.{Legal, next_control};
ghost use Rattle.delivery_book.specs.Standing.{IsNew};
ghost use Rattle.own_turn.specs.Choosing.{ChoosesAnswer};
ghost use Rattle.own_turn.specs.DueSets.{Asked, DueSet, asked_of, with_asked};
ghost use Rattle.own_turn.specs.OwnTurn.{Desk, Takes, Turned, sets_lent};
ghost use Rattle.handheld_core.specs.Choosing.{supplier};
ghost use Rattle.handheld_core.specs.declared.draft.Draft.{Draft};
ghost use Rattle.receiver_core.specs.Choosing.{receiver};
ghost use Rattle.receiver_core.specs.declared.count.Count.{Count};
ghost use Rattle.clean_sessions.specs.ChosenAnswers.{ChoosesRightly, IgnoresCheck, IsChosenAnswer, IsChosenOn, MayProposeIt, MaySignIt, answer_of, but_for_check, but_for_named, naming, nine_digits};
ghost use Rattle.clean_sessions.specs.DeliveryStands.{IsBetweenTurns, sets_in};
ghost use Rattle.clean_sessions.specs.Untouched.{AreOther, IsUntouched};

/// A chosen answer is the written form of what the choice on the version makes. On two versions that differ in their integrity value alone it differs
/// in the value named alone, where the chooser does not look at that value.
pub fn answers_ignore_checks()
    ensures chosen { (role : Role) (chooser : Chooser) (before : List Entry) (number text : List ℕ) → ChoosesAnswer role chooser before number text → IsChosenAnswer role chooser before number text }
    ensures alike { (role : Role) (chooser : Chooser) (number : List ℕ) (version other : Version) (amount : Option ℕ) → IgnoresCheck chooser → but_for_check version ≡ but_for_check other
        → option_map but_for_named (answer_of role chooser number version amount) ≡ option_map but_for_named (answer_of role chooser number other amount) }
{}

/// What due sets ask of one delivery stands apart from what they ask of another.
pub fn deliveries_are_asked_apart()
    ensures own { (all : List Asked) (new : Asked) → asked_of new.number (with_asked all new) ≡ new }
    ensures other { (all : List Asked) (new : Asked) (number : List ℕ) → bytes_eq new.number number ≡ false → asked_of number (with_asked all new) ≡ asked_of number all }
{}

/// Taking what was heard leaves a delivery as it was of which no set was heard: its deeds, and what due sets ask of it.
pub fn taking_leaves_other_deliveries()
    ensures { (role : Role) (number text : List ℕ) (old new : Desk) → AreOther number (sets_lent text) → Takes role text old new → IsUntouched number old new }
{}

/// Neither the supplier with its drafts nor the receiver with its counts looks at integrity values.
pub fn cores_ignore_checks()
    ensures supplier { (drafts : List Draft) → IgnoresCheck (supplier drafts) }
    ensures receiver { (counts : List Count) → IgnoresCheck (receiver counts) }
{}

/// What can be written with a control number of nine digits can be written with each lower one, whatever integrity value an answer then names.
pub fn lower_controls_can_be_written()
    ensures answer { (answer : AnswerRecord) (check control : ℕ) (text : List ℕ) → control ≤ nine_digits → written_of answer nine_digits ≡ Ok text → (other : List ℕ) × (written_of (naming answer check) control ≡ Ok other) }
    ensures base { (base : BaseRecord) (control : ℕ) (text : List ℕ) → control ≤ nine_digits → base_written base nine_digits ≡ Ok text → (other : List ℕ) × (base_written base control ≡ Ok other) }
{}

/// What an end chooses for a delivery behind a legal list may be signed, where it can be written with nine digits, and the text is that very answer, or that
/// draft: a set that its chooser makes is a set that its own turn signs.
pub fn chosen_sets_may_be_signed()
    ensures answer { (role : Role) (chooser : Chooser) (entries : List Entry) (number : List ℕ) (version : Version) (answer : AnswerRecord) → ChoosesRightly chooser → Legal role entries → next_control entries ≤ nine_digits
        → IsChosenOn role chooser entries number version answer → MaySignIt role chooser entries number answer }
    ensures draft { (chooser : Chooser) (entries : List Entry) (draft : BaseRecord) (text : List ℕ) → All IsBase chooser.drafts → Legal Supplier entries → next_control entries ≤ nine_digits → Contains chooser.drafts draft
        → IsNew draft.number (deeds_of entries) → base_written draft nine_digits ≡ Ok text → MayProposeIt chooser entries draft }
{}

/// An own turn signs what its end chooses, in that very turn: a delivery for which an answer is chosen, where it has taken what it heard, has one set more
/// once it has answered.
pub fn chosen_answers_are_signed_at_once()
    ensures { (header : Header) (chooser : Chooser) (old partner new : Desk) (sets : List DueSet) (text load : List ℕ) → ChoosesRightly chooser → IsBetweenTurns header.role old partner sets text
        → (turned : Turned header chooser old text new load) → next_control turned.answered.entries ≤ nine_digits → (number : List ℕ) (version : Version) (answer : AnswerRecord)
        → IsChosenOn header.role chooser turned.taken.entries number version answer → sets_in number turned.answered.entries ≡ sets_in number turned.taken.entries + 1 }
{}
