//! Taking the sets that were heard.

ghost use Rattle.std.specs.Prelude.{◌≡◌, ◌+◌, ◌<◌, ◌^◌, [], IfErr, IsOk, OnOk, Some};
ghost use Rattle.dsd_record.specs.ReadSets.{set_in};
ghost use Rattle.dsd_journal.specs.declared.adding_fault.StageFault.TheVariants.{Memory as NoMemory};
ghost use Rattle.own_turn.specs.DueSets.{with_known_set};
ghost use Rattle.own_turn.specs.NextEntry.{AddsNext, TakesNext};
ghost use Rattle.own_turn.specs.OwnTurn.{Takes, TakesSet, sets_lent};
ghost use Rattle.own_turn.specs.Staging.{IsStaging, KeepsJournal, PassesOver, StagesTo, TakesTold, TakesToldNext};

use super::Desk;
use crate::refusal::{Refusal, refusal_of};
use dsd_journal::StageFault;
use dsd_record::{SetView, set_of};
use dxs_envelope::Sets;
use transaction_set::SetFault;

impl Desk {
    /// Takes the sets that a heard text lends, up to its first envelope fault, which counts as a refused set. Without a heard text there are none.
    pub(super) fn take_text(&mut self, text: &[u8]) -> Result<(), StageFault>
        requires staging { IsStaging self.old.book }
        ensures journal { KeepsJournal self.old.book self.new.book }
        ensures idle { sets_lent text.now ≡ [] → self.old.refused + 1 < 2 ^ 64 → IsOk result }
        ensures exact { StagesTo result (Takes self.old.book.header.role text.now) (TakesNext self.old.book.header.role text.now) self.old self.new }
    {
        if text.is_empty() {
            return Ok(());
        }
        let mut sets = Sets::new(text);
        self.take_told(&mut sets)
    }

    /// Takes the sets that are still to be told.
    fn take_told(&mut self, sets: &mut Sets<'_>) -> Result<(), StageFault>
        requires staging { IsStaging self.old.book }
        ensures journal { KeepsJournal self.old.book self.new.book }
        ensures idle { sets.old.sets ≡ [] → self.old.refused + 1 < 2 ^ 64 → IsOk result }
        ensures exact { StagesTo result (TakesTold self.old.book.header.role sets.old) (TakesToldNext self.old.book.header.role sets.old) self.old self.new }
    {
        loop {
            match sets.next() {
                Ok(Some(set)) => self.take_set(set.bytes())?,
                Ok(None) => return Ok(()),
                Err(_) => return self.refuse(),
            }
        }
    }

    /// Takes a set, or passes it over.
    fn take_set(&mut self, set: &[u8]) -> Result<(), StageFault>
        requires staging { IsStaging self.old.book }
        ensures journal { KeepsJournal self.old.book self.new.book }
        ensures exact { StagesTo result (TakesSet self.old.book.header.role set.now) (AddsNext (TakesSet self.old.book.header.role set.now)) self.old self.new }
    {
        // The entries are legal, before and behind it.
        let _ = self.book.role();
        match self.book.take_later(set) {
            Ok(()) => {
                let _ = self.book.role();
                Ok(())
            }
            Err(fault) => self.pass_over(refusal_of(fault), set),
        }
    }

    /// Passes over a set that is not added.
    fn pass_over(&mut self, refusal: Refusal, set: &[u8]) -> Result<(), StageFault>
        ensures { PassesOver refusal set.now result self.old self.new }
    {
        match refusal {
            Refusal::Known => self.meet_text(set),
            Refusal::Rules => self.refuse(),
            Refusal::Staging(fault) => Err(fault),
        }
    }

    /// Notes that a set was met which was taken before.
    fn meet_text(&mut self, set: &[u8]) -> Result<(), StageFault>
        ensures ok { OnOk result (self.new ≡ record self.old { asked = with_known_set self.old.asked (set_in set.now) }) }
        ensures err { IfErr result (λ fault. fault ≡ NoMemory) }
        ensures book { self.new.book ≡ self.old.book }
    {
        match set_of(self.alloc, set) {
            Ok(view) => self.meet(&view),
            Err(SetFault::Refused { .. }) => Ok(()),
            Err(SetFault::Memory) => Err(StageFault::Memory),
        }
    }

    /// Notes that this set was met, which was taken before: of a proposal, that its delivery's was.
    fn meet(&mut self, set: &SetView) -> Result<(), StageFault>
        ensures ok { OnOk result (self.new ≡ record self.old { asked = with_known_set self.old.asked (Some set.now) }) }
        ensures err { IfErr result (λ fault. fault ≡ NoMemory) }
        ensures book { self.new.book ≡ self.old.book }
    {
        let met = match set {
            SetView::Base(base, _seal) => self.asked.meet(base.number()),
            SetView::Answer(answer, _seal) => {
                if answer.is_acknowledgement() {
                    Ok(())
                } else {
                    self.asked.meet(answer.number())
                }
            }
        };
        met.map_err(|_| StageFault::Memory)
    }

    /// Counts a refused set. Where the count would not fit, there is no memory.
    fn refuse(&mut self) -> Result<(), StageFault>
        ensures ok { OnOk result (self.new ≡ record self.old { refused = self.old.refused + 1 }) }
        ensures room { self.old.refused + 1 < 2 ^ 64 → IsOk result }
        ensures err { IfErr result (λ fault. fault ≡ NoMemory) }
        ensures book { self.new.book ≡ self.old.book }
    {
        match self.refused.checked_add(1) {
            None => Err(StageFault::Memory),
            Some(refused) => {
                self.refused = refused;
                Ok(())
            }
        }
    }
}
