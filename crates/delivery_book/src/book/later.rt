//! The calls that stage a set.

ghost use Rattle.std.specs.Prelude.{◌≡◌, ◌<◌, IsTrue, Ok, length};
ghost use Rattle.dsd_journal.specs.declared.entry.EntryKind.TheVariants.{Signed as IsSigned, Took as IsTook};
ghost use Rattle.transaction_set.specs.SoundLines.{AreSoundLines};
ghost use Rattle.base_record_894.specs.WrittenText.{written_of as base_written};
ghost use Rattle.delivery_book.specs.Answering.{IsAcceptance, IsAdjustment};
ghost use Rattle.delivery_book.specs.Books.{Stages};
ghost use Rattle.delivery_book.specs.Refusals.{accept_fault, adjust_fault, propose_fault, take_fault};
ghost use Rattle.delivery_book.specs.Signing.{next_control};

use super::Book;
use crate::book_fault::BookFault;
use base_record_894::Base;
use dsd_values::{DeliveryNumber, Lines, Signature};

impl Book {
    /// Signs the base record of a new delivery, with the next control number. It stands in the journal behind the next flush.
    pub fn propose_later(&mut self, base: Base) -> Result<(), BookFault>
        requires works { IsTrue self.old.works }
        ensures exact { Stages result (propose_fault self.old.header.role self.old.known base) IsSigned (λ text. base_written base (next_control self.old.known) ≡ Ok text) self.old self.new }
    {
        match self.rules().proposing(&base) {
            Ok(change) => self.stage(change),
            Err(fault) => Err(BookFault::from(fault)),
        }
    }

    /// Signs an adjustment of the highest proposal of a delivery, which states each of these lines whole. It stands in the journal behind the next flush.
    pub fn adjust_later(
        &mut self,
        number: &DeliveryNumber,
        changes: &Lines,
        signature: &Signature,
    ) -> Result<(), BookFault>
        requires works { IsTrue self.old.works }
        requires some { 0 < length changes.now }
        requires sound { AreSoundLines changes.now }
        ensures exact { Stages result (adjust_fault self.old.header.role self.old.known number.now changes.now signature.now) IsSigned (IsAdjustment self.old.header.role self.old.known number.now changes.now signature.now) self.old self.new }
    {
        match self.rules().adjusting(number, changes, signature) {
            Ok(change) => self.stage(change),
            Err(fault) => Err(BookFault::from(fault)),
        }
    }

    /// Signs an acceptance of the highest proposal of a delivery. It stands in the journal behind the next flush.
    pub fn accept_later(
        &mut self,
        number: &DeliveryNumber,
        signature: &Signature,
    ) -> Result<(), BookFault>
        requires works { IsTrue self.old.works }
        ensures exact { Stages result (accept_fault self.old.header.role self.old.known number.now signature.now) IsSigned (IsAcceptance self.old.header.role self.old.known number.now signature.now) self.old self.new }
    {
        match self.rules().accepting(number, signature) {
            Ok(change) => self.stage(change),
            Err(fault) => Err(BookFault::from(fault)),
        }
    }

    /// Takes a set that the other end signed. It stands in the journal behind the next flush.
    pub fn take_later(&mut self, set: &[u8]) -> Result<(), BookFault>
        requires works { IsTrue self.old.works }
        ensures exact { Stages result (take_fault self.old.header.role self.old.known set.now) IsTook (λ text. text ≡ set.now) self.old self.new }
    {
        match self.rules().taking(set) {
            Ok(change) => self.stage(change),
            Err(fault) => Err(BookFault::from(fault)),
        }
    }
}
