//! Answering deliveries, and proposing new ones.

ghost use Rattle.std.specs.Prelude.{◌≡◌, ◌<◌, [], IfErr, IfOk, IsOk, OnOk, Some, false, length, slice_get, true};
ghost use Rattle.transaction_set.specs.SoundLines.{AreSoundLines};
ghost use Rattle.base_record_894.specs.BaseRecord.{BaseRecord};
ghost use Rattle.dsd_record.specs.Choices.{IsSoundChoice};
ghost use Rattle.dsd_journal.specs.declared.adding_fault.StageFault.TheVariants.{Memory as NoMemory};
ghost use Rattle.delivery_book.specs.Answering.{IsAcceptance, IsAdjustment};
ghost use Rattle.delivery_book.specs.Deeds.{deeds_of};
ghost use Rattle.delivery_book.specs.Lookups.{awaits_us as is_ours_to_answer, number_at, numbers_of};
ghost use Rattle.delivery_book.specs.Signing.{Legal, next_control};
ghost use Rattle.delivery_book.specs.Standing.{IsNew};
ghost use Rattle.own_turn.specs.DueSets.{with_signed};
ghost use Rattle.own_turn.specs.IdleTurns.{AreKnown};
ghost use Rattle.own_turn.specs.NextEntry.{AddsNext, AnswersNext, ProposesNext};
ghost use Rattle.own_turn.specs.OwnTurn.{Answers, AnswersEach, Proposes, ProposesEach, awaiting as awaiting_us};
ghost use Rattle.own_turn.specs.Staging.{IsChoice, IsStaging, KeepsJournal, ProposesDraft, SignsChoice, SignsSome, StagesTo};

use super::Desk;
use crate::refusal::unsigned;
use base_record_894::Base;
use dsd_journal::StageFault;
use dsd_record::{Choice, Decider};
use dsd_values::{DeliveryNumber, Lines, Memory, Signature};

impl Desk {
    /// Answers each delivery that awaits this end, as the decider chooses.
    pub(super) fn answer_each<D: Decider>(&mut self, decider: &D) -> Result<(), StageFault>
        requires staging { IsStaging self.old.book }
        ensures journal { KeepsJournal self.old.book self.new.book }
        ensures idle { awaiting_us self.old.book.known ≡ [] → IsOk result }
        ensures exact { StagesTo result (AnswersEach self.old.book.header.role (D.chooser decider.now)) (AnswersNext self.old.book.header.role (D.chooser decider.now)) self.old self.new }
    {
        let Ok(numbers) = self.awaiting() else {
            return Err(StageFault::Memory);
        };
        for number in &numbers {
            self.answer(decider, number)?;
        }
        Ok(())
    }

    /// The numbers of the deliveries that await this end.
    fn awaiting(&self) -> Result<Vec<DeliveryNumber>, Memory>
        ensures numbers { IfOk result (λ numbers. numbers.items ≡ awaiting_us self.now.book.known) }
        ensures idle { awaiting_us self.now.book.known ≡ [] → IsOk result }
    {
        let mut numbers = Vec::new(self.alloc);
        for index in 0..self.book.deliveries() {
            if self.book.awaits_us(index) {
                numbers.push(self.book.number(index).copy())?;
            }
        }
        Ok(numbers)
    }

    /// Answers the delivery of this number, where it awaits this end and an answer is chosen.
    fn answer<D: Decider>(&mut self, decider: &D, number: &DeliveryNumber) -> Result<(), StageFault>
        requires staging { IsStaging self.old.book }
        ensures journal { KeepsJournal self.old.book self.new.book }
        ensures exact { StagesTo result (Answers self.old.book.header.role (D.chooser decider.now) number.now) (AddsNext (Answers self.old.book.header.role (D.chooser decider.now) number.now)) self.old self.new }
    {
        let Some(index) = self.book.find(number) else {
            return Ok(());
        };
        if !self.book.awaits_us(index) {
            return Ok(());
        }
        let Some(signature) = decider.signature(number) else {
            return Ok(());
        };
        match self.choose(decider, index) {
            Ok(choice) => self.sign(number, choice, signature),
            Err(_) => Err(StageFault::Memory),
        }
    }

    /// What is done on the highest proposal of a delivery.
    fn choose<D: Decider>(&self, decider: &D, index: usize) -> Result<Choice, Memory>
        requires { index < length (numbers_of self.now.book.known) }
        ensures chosen { IfOk result (IsChoice (D.chooser decider.now) self.now.book.known (number_at self.now.book.known index)) }
        ensures sound { IfOk result IsSoundChoice }
    {
        let seen = self.book.seen(index);
        // What a version keeps is known once its lines are lent.
        let _ = seen.lines();
        decider.choose(self.alloc, seen, self.book.own_amount(index))
    }

    /// Signs what is chosen.
    fn sign(
        &mut self,
        number: &DeliveryNumber,
        choice: Choice,
        signature: &Signature,
    ) -> Result<(), StageFault>
        requires staging { IsStaging self.old.book }
        requires awaits { is_ours_to_answer self.old.book.known number.now ≡ true }
        requires sound { IsSoundChoice choice }
        ensures journal { KeepsJournal self.old.book self.new.book }
        ensures exact { StagesTo result (SignsChoice self.old.book.header.role choice number.now signature.now) (AddsNext (SignsChoice self.old.book.header.role choice number.now signature.now)) self.old self.new }
    {
        match choice {
            Choice::Accept => self.accept(number, signature),
            Choice::Adjust(lines) => self.adjust(number, &lines, signature),
            Choice::Wait => Ok(()),
        }
    }

    /// Signs an acceptance.
    fn accept(&mut self, number: &DeliveryNumber, signature: &Signature) -> Result<(), StageFault>
        requires staging { IsStaging self.old.book }
        requires awaits { is_ours_to_answer self.old.book.known number.now ≡ true }
        ensures journal { KeepsJournal self.old.book self.new.book }
        ensures exact { StagesTo result (SignsSome self.old.book.header.role number.now true (λ entries text. IsAcceptance self.old.book.header.role entries number.now signature.now text))
            (AddsNext (SignsSome self.old.book.header.role number.now true (λ entries text. IsAcceptance self.old.book.header.role entries number.now signature.now text))) self.old self.new }
    {
        match self.book.accept_later(number, signature) {
            Ok(()) => self.note_signed(number, true),
            Err(fault) => unsigned(fault),
        }
    }

    /// Signs an adjustment.
    fn adjust(
        &mut self,
        number: &DeliveryNumber,
        lines: &Lines,
        signature: &Signature,
    ) -> Result<(), StageFault>
        requires staging { IsStaging self.old.book }
        requires awaits { is_ours_to_answer self.old.book.known number.now ≡ true }
        requires some { 0 < length lines.now }
        requires sound { AreSoundLines lines.now }
        ensures journal { KeepsJournal self.old.book self.new.book }
        ensures exact { StagesTo result (SignsSome self.old.book.header.role number.now false (λ entries text. IsAdjustment self.old.book.header.role entries number.now lines.now signature.now text))
            (AddsNext (SignsSome self.old.book.header.role number.now false (λ entries text. IsAdjustment self.old.book.header.role entries number.now lines.now signature.now text))) self.old self.new }
    {
        // The entries are legal before it, and no byte of a delivery number is a star.
        let _ = self.book.role();
        let _ = number.as_slice();
        match self.book.adjust_later(number, lines, signature) {
            Ok(()) => self.note_signed(number, false),
            Err(fault) => unsigned(fault),
        }
    }

    /// Notes that a set of this delivery was signed last, an acceptance or not.
    fn note_signed(&mut self, number: &DeliveryNumber, acceptance: bool) -> Result<(), StageFault>
        ensures ok { OnOk result (self.new ≡ record self.old { asked = with_signed self.old.asked number.now acceptance }) }
        ensures err { IfErr result (λ fault. fault ≡ NoMemory) }
        ensures book { self.new.book ≡ self.old.book }
        ensures legal { Legal self.old.book.header.role self.old.book.known }
    {
        let _ = self.book.role();
        match self.asked.sign(number, acceptance) {
            Ok(()) => Ok(()),
            Err(_) => Err(StageFault::Memory),
        }
    }

    /// Proposes each draft of a delivery that is not known.
    pub(super) fn propose_each<D: Decider>(&mut self, decider: &D) -> Result<(), StageFault>
        requires staging { IsStaging self.old.book }
        ensures journal { KeepsJournal self.old.book self.new.book }
        ensures idle { AreKnown (D.chooser decider.now).drafts self.old.book.known → IsOk result }
        ensures exact { StagesTo result (ProposesEach self.old.book.header.role (D.chooser decider.now)) (ProposesNext self.old.book.header.role (D.chooser decider.now)) self.old self.new }
    {
        for index in 0..decider.drafts() {
            match self.propose_at(decider, index) {
                Ok(()) => {}
                Err(fault) => return Err(fault),
            }
        }
        Ok(())
    }

    /// Proposes the draft at a place, where its delivery is not known.
    fn propose_at<D: Decider>(&mut self, decider: &D, index: usize) -> Result<(), StageFault>
        requires staging { IsStaging self.old.book }
        requires within { index < length (D.chooser decider.now).drafts }
        ensures journal { KeepsJournal self.old.book self.new.book }
        ensures idle { (draft : BaseRecord) → slice_get (D.chooser decider.now).drafts index ≡ Some draft → (IsNew draft.number (deeds_of self.old.book.known) → ⊥) → IsOk result }
        ensures exact { (draft : BaseRecord) → slice_get (D.chooser decider.now).drafts index ≡ Some draft
            → StagesTo result (Proposes self.old.book.header.role (D.chooser decider.now) draft) (AddsNext (Proposes self.old.book.header.role (D.chooser decider.now) draft)) self.old self.new }
    {
        match decider.draft(index) {
            Some(draft) => self.propose(draft),
            None => unreachable!(),
        }
    }

    /// Proposes a draft, where its delivery is not known.
    fn propose(&mut self, draft: &Base) -> Result<(), StageFault>
        requires staging { IsStaging self.old.book }
        ensures journal { KeepsJournal self.old.book self.new.book }
        ensures idle { (IsNew draft.now.number (deeds_of self.old.book.known) → ⊥) → IsOk result }
        ensures exact { StagesTo result (ProposesDraft self.old.book.header.role draft.now) (AddsNext (ProposesDraft self.old.book.header.role draft.now)) self.old self.new }
    {
        match self.book.find(draft.number()) {
            Some(index) => {
                // What is known has a version.
                let _ = self.book.seen(index);
                Ok(())
            }
            None => self.propose_copy(draft),
        }
    }

    /// Proposes a copy of the draft of a delivery that is not known.
    fn propose_copy(&mut self, draft: &Base) -> Result<(), StageFault>
        requires staging { IsStaging self.old.book }
        requires new { IsNew draft.now.number (deeds_of self.old.book.known) }
        ensures journal { KeepsJournal self.old.book self.new.book }
        ensures exact { StagesTo result (ProposesDraft self.old.book.header.role draft.now) (AddsNext (ProposesDraft self.old.book.header.role draft.now)) self.old self.new }
    {
        match draft.try_copy(self.alloc) {
            Ok(base) => self.propose_new(base),
            Err(_) => Err(StageFault::Memory),
        }
    }

    /// Proposes a delivery that is not known.
    fn propose_new(&mut self, base: Base) -> Result<(), StageFault>
        requires staging { IsStaging self.old.book }
        requires new { IsNew base.number (deeds_of self.old.book.known) }
        ensures journal { KeepsJournal self.old.book self.new.book }
        ensures exact { StagesTo result (ProposesDraft self.old.book.header.role base) (AddsNext (ProposesDraft self.old.book.header.role base)) self.old self.new }
    {
        let number = base.number().copy();
        match self.book.propose_later(base) {
            Ok(()) => self.note_signed(&number, false),
            Err(fault) => unsigned(fault),
        }
    }
}
