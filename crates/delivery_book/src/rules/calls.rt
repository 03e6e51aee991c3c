//! The calls that add entries.

ghost use Rattle.std.specs.Prelude.{◌≡◌, ◌<◌, ◌++◌, ◌∷◌, [], None, OnErr, Ok, length};
ghost use Rattle.dsd_journal.specs.declared.entry.EntryKind.TheVariants.{Signed as IsSigned, Took as IsTook};
ghost use Rattle.transaction_set.specs.SoundLines.{AreSoundLines};
ghost use Rattle.base_record_894.specs.WrittenText.{written_of as base_written};
ghost use Rattle.delivery_book.specs.Answering.{IsAcceptance, IsAdjustment};
ghost use Rattle.delivery_book.specs.Changes.{IsChange};
ghost use Rattle.delivery_book.specs.Outcomes.{Adds, Admits, Judges};
ghost use Rattle.delivery_book.specs.Refusals.{accept_fault, adjust_fault, propose_fault, take_fault};
ghost use Rattle.delivery_book.specs.Signing.{Allows, Legal, next_control};

use super::Rules;
use crate::admitting::admitting;
use crate::change::Change;
use crate::fault::{AdmitFault, RuleFault};
use crate::signing::{accepting, adjusting, proposing};
use crate::taking::taking;
use base_record_894::Base;
use dsd_journal::EntryKind;
use dsd_values::{DeliveryNumber, Lines, Signature};

impl Rules {
    /// Adds an entry as it stands in a journal, where it may stand behind the others: where they are legal with it.
    pub fn admit(&mut self, kind: EntryKind, payload: &[u8]) -> Result<(), AdmitFault>
        ensures exact { Admits result (Legal self.old.role (self.old.entries ++ (record { kind = kind; payload = payload.now }) ∷ [])) (λ done. self.new.entries ≡ self.old.entries ++ (record { kind = kind; payload = payload.now }) ∷ []) }
        ensures role { self.new.role ≡ self.old.role }
        ensures err { OnErr result (self.new.entries ≡ self.old.entries) }
    {
        // That the entries are legal is known once the role is told.
        let _ = self.role();
        match self.admitting(kind, payload) {
            Ok(change) => match self.add(change) {
                Ok(()) => Ok(()),
                Err(_) => Err(AdmitFault::Memory),
            },
            Err(fault) => Err(fault),
        }
    }

    /// Signs the base record of a new delivery, with the next control number.
    pub fn propose(&mut self, base: Base) -> Result<(), RuleFault>
        ensures exact { Adds result (propose_fault self.old.role self.old.entries base) IsSigned (λ text. base_written base (next_control self.old.entries) ≡ Ok text) self.old.entries self.new.entries }
        ensures role { self.new.role ≡ self.old.role }
    {
        match self.proposing(&base) {
            Ok(change) => self.add(change),
            Err(fault) => Err(fault),
        }
    }

    /// Signs an adjustment of the highest proposal of a delivery, which states each of these lines whole.
    pub fn adjust(
        &mut self,
        number: &DeliveryNumber,
        changes: &Lines,
        signature: &Signature,
    ) -> Result<(), RuleFault>
        requires some { 0 < length changes.now }
        requires sound { AreSoundLines changes.now }
        ensures exact { Adds result (adjust_fault self.old.role self.old.entries number.now changes.now signature.now) IsSigned (IsAdjustment self.old.role self.old.entries number.now changes.now signature.now) self.old.entries self.new.entries }
        ensures role { self.new.role ≡ self.old.role }
    {
        match self.adjusting(number, changes, signature) {
            Ok(change) => self.add(change),
            Err(fault) => Err(fault),
        }
    }

    /// Signs an acceptance of the highest proposal of a delivery.
    pub fn accept(
        &mut self,
        number: &DeliveryNumber,
        signature: &Signature,
    ) -> Result<(), RuleFault>
        ensures exact { Adds result (accept_fault self.old.role self.old.entries number.now signature.now) IsSigned (IsAcceptance self.old.role self.old.entries number.now signature.now) self.old.entries self.new.entries }
        ensures role { self.new.role ≡ self.old.role }
    {
        match self.accepting(number, signature) {
            Ok(change) => self.add(change),
            Err(fault) => Err(fault),
        }
    }

    /// Takes a set that the other end signed.
    pub fn take(&mut self, set: &[u8]) -> Result<(), RuleFault>
        ensures exact { Adds result (take_fault self.old.role self.old.entries set.now) IsTook (λ text. text ≡ set.now) self.old.entries self.new.entries }
        ensures role { self.new.role ≡ self.old.role }
    {
        match self.taking(set) {
            Ok(change) => self.add(change),
            Err(fault) => Err(fault),
        }
    }

    /// What an entry adds, where it may stand behind the others.
    fn admitting(&self, kind: EntryKind, payload: &[u8]) -> Result<Change, AdmitFault>
        ensures { Admits result (Allows self.now.role self.now.entries (record { kind = kind; payload = payload.now })) (λ change. IsChange self.now.role self.now.entries change × (change.entry ≡ record { kind = kind; payload = payload.now })) }
    {
        let entries = self.entries.as_slice();
        admitting(
            self.alloc,
            self.role,
            entries,
            &self.deliveries,
            self.signed,
            kind,
            payload,
        )
    }

    /// What a proposal adds, or why this end does not sign it.
    pub(crate) fn proposing(&self, base: &Base) -> Result<Change, RuleFault>
        ensures { Judges result (propose_fault self.now.role self.now.entries base.now) (λ change. IsChange self.now.role self.now.entries change × ((change.entry.kind ≡ IsSigned) × (base_written base.now (next_control self.now.entries) ≡ Ok change.entry.payload))) }
    {
        let entries = self.entries.as_slice();
        proposing(
            self.alloc,
            self.role,
            entries,
            &self.deliveries,
            self.signed,
            base,
        )
    }

    /// What an adjustment adds, or why this end does not sign it.
    pub(crate) fn adjusting(
        &self,
        number: &DeliveryNumber,
        changes: &Lines,
        signature: &Signature,
    ) -> Result<Change, RuleFault>
        requires some { 0 < length changes.now }
        requires sound { AreSoundLines changes.now }
        ensures { Judges result (adjust_fault self.now.role self.now.entries number.now changes.now signature.now) (λ change. IsChange self.now.role self.now.entries change × ((change.entry.kind ≡ IsSigned) × IsAdjustment self.now.role self.now.entries number.now changes.now signature.now change.entry.payload)) }
    {
        let entries = self.entries.as_slice();
        let (deliveries, signed) = (&self.deliveries, self.signed);
        adjusting(
            self.alloc, self.role, entries, deliveries, signed, number, changes, signature,
        )
    }

    /// What an acceptance adds, or why this end does not sign it.
    pub(crate) fn accepting(
        &self,
        number: &DeliveryNumber,
        signature: &Signature,
    ) -> Result<Change, RuleFault>
        ensures { Judges result (accept_fault self.now.role self.now.entries number.now signature.now) (λ change. IsChange self.now.role self.now.entries change × ((change.entry.kind ≡ IsSigned) × IsAcceptance self.now.role self.now.entries number.now signature.now change.entry.payload)) }
    {
        let entries = self.entries.as_slice();
        accepting(
            self.alloc,
            self.role,
            entries,
            &self.deliveries,
            self.signed,
            number,
            signature,
        )
    }

    /// What a set adds that this end takes, or why it does not take it.
    pub(crate) fn taking(&self, set: &[u8]) -> Result<Change, RuleFault>
        ensures { Judges result (take_fault self.now.role self.now.entries set.now) (λ change. IsChange self.now.role self.now.entries change × (change.entry ≡ record { kind = IsTook; payload = set.now })) }
    {
        taking(
            self.alloc,
            self.role,
            self.entries.as_slice(),
            &self.deliveries,
            set,
        )
    }

    /// Adds an entry that is allowed.
    fn add(&mut self, change: Change) -> Result<(), RuleFault>
        requires { IsChange self.old.role self.old.entries change }
        ensures exact { Adds result None change.entry.kind (λ text. text ≡ change.entry.payload) self.old.entries self.new.entries }
        ensures role { self.new.role ≡ self.old.role }
    {
        match self.reserve() {
            Ok(()) => {
                self.keep(change);
                Ok(())
            }
            Err(_) => Err(RuleFault::Memory),
        }
    }
}
