//! Staging an entry that the rules allow.

ghost use Rattle.std.specs.Prelude.{◌≡◌, IsTrue, None};
ghost use Rattle.delivery_book.specs.Books.{Stages};
ghost use Rattle.delivery_book.specs.Changes.{IsChange};

use super::Book;
use crate::book_fault::BookFault;
use crate::change::Change;
use crate::rules::Rules;
use dsd_journal::StageFault;

impl Book {
    /// The rules over all that the book knows.
    pub(super) fn rules(&self) -> &Rules
        ensures role { result.now.role ≡ self.now.header.role }
        ensures entries { result.now.entries ≡ self.now.known }
    {
        &self.rules
    }

    /// Stages an entry that is allowed.
    pub(super) fn stage(&mut self, change: Change) -> Result<(), BookFault>
        requires works { IsTrue self.old.works }
        requires change { IsChange self.old.header.role self.old.known change }
        ensures { Stages result None change.entry.kind (λ text. text ≡ change.entry.payload) self.old self.new }
    {
        if self.rules.reserve().is_err() {
            return Err(BookFault::Memory);
        }
        match self
            .journal
            .stage(change.entry.kind, change.entry.payload.as_slice())
        {
            Ok(()) => {
                self.rules.keep(change);
                Ok(())
            }
            Err(StageFault::Full(length)) => Err(BookFault::Full(length)),
            Err(StageFault::Memory) => Err(BookFault::Memory),
        }
    }
}
