//! The book of an end: its signing rules over the entries of its journal.

ghost use Rattle.std.specs.Prelude.{◌≡◌, ◌<◌, ◌++◌, [], MatchOption, Some, length, true};
ghost use Rattle.std.specs.Option.{option_copied};
ghost use Rattle.delivery_book.specs.Deeds.{deeds_of};
ghost use Rattle.delivery_book.specs.Finals.{final_of as final_version};
ghost use Rattle.delivery_book.specs.Lookups.{awaits_us as is_ours_to_answer, last_signed as last_text, number_at, numbers_of, own_amount as amount_of_own, seen_of};
ghost use Rattle.delivery_book.specs.Signing.{Legal};
ghost use Rattle.delivery_book.specs.Standing.{IsNew};

mod flushing;
mod later;
mod staging;

use crate::rules::Rules;
use dsd_journal::Journal;
use dsd_record::DsdRecord;
use dsd_values::{Cents, DeliveryNumber, Role, SetText};
use std::marker::Model;

/// The rules of an end, and the journal that its entries stand in.
///
/// What is signed or taken is staged first, and stands in the journal once it is flushed. Both keep the texts of the entries.
#[derive(Drop)]
pub struct Book {
    rules: Rules,
    journal: Journal,
}

impl Model for Book {
    ghost use Rattle.delivery_book.specs.BookInside.{IsBook, book_of};
    ghost use Rattle.delivery_book.specs.Books.{BookView};

    ghost Value = { BookView };

    ghost view = { book_of };

    ghost invariant = { IsBook };
}

impl Book {
    /// The book of an end whose rules have the entries of its journal.
    pub(crate) fn over(rules: Rules, journal: Journal) -> Book
        requires role { rules.role ≡ journal.header.role }
        requires entries { rules.entries ≡ journal.entries }
        requires none_staged { journal.staged ≡ [] }
        ensures header { result.header ≡ journal.header }
        ensures entries { result.entries ≡ journal.entries }
        ensures staged { result.staged ≡ [] }
        ensures known { result.known ≡ journal.entries }
        ensures works { result.works ≡ journal.works }
    {
        // That the entries are legal is known once the role is told.
        let _ = rules.role();
        Book { rules, journal }
    }

    pub fn role(&self) -> Role
        ensures value { result ≡ self.now.header.role }
        // The entries are always legal.
        ensures legal { Legal self.now.header.role self.now.known }
    {
        self.journal.role()
    }

    /// The journal. What is staged is not among its entries yet.
    pub fn journal(&self) -> &Journal
        ensures header { result.now.header ≡ self.now.header }
        ensures entries { result.now.entries ≡ self.now.entries }
        ensures staged { result.now.staged ≡ self.now.staged }
        ensures works { result.now.works ≡ self.now.works }
    {
        &self.journal
    }

    /// False from a call on that answered `Station`.
    pub fn works(&self) -> bool
        ensures value { result ≡ self.now.works }
        // While it works its calls speak of the entries and those that are staged.
        ensures known { self.now.works ≡ true → self.now.known ≡ self.now.entries ++ self.now.staged }
    {
        self.journal.works()
    }

    /// How many deliveries there are.
    pub fn deliveries(&self) -> usize
        ensures { result ≡ length (numbers_of self.now.known) }
    {
        self.rules.deliveries()
    }

    /// Which of them has this number.
    pub fn find(&self, number: &DeliveryNumber) -> Option<usize>
        ensures { MatchOption result (IsNew number.now (deeds_of self.now.known)) (λ index. (index < length (numbers_of self.now.known)) × (number_at self.now.known index ≡ number.now)) }
    {
        self.rules.find(number)
    }

    /// The number of a delivery.
    pub fn number(&self, index: usize) -> &DeliveryNumber
        requires { index < length (numbers_of self.now.known) }
        ensures { result.now ≡ number_at self.now.known index }
    {
        self.rules.number(index)
    }

    /// The version that a delivery's highest proposal makes.
    pub fn seen(&self, index: usize) -> &DsdRecord
        requires { index < length (numbers_of self.now.known) }
        ensures { seen_of self.now.known (number_at self.now.known index) ≡ Some result.now }
    {
        self.rules.seen(index)
    }

    /// Whether the highest proposal of a delivery was taken, and no acceptance of it stands.
    pub fn awaits_us(&self, index: usize) -> bool
        requires { index < length (numbers_of self.now.known) }
        ensures { result ≡ is_ours_to_answer self.now.known (number_at self.now.known index) }
    {
        self.rules.awaits_us(index)
    }

    /// The amount of the last proposal that this end signed of a delivery.
    pub fn own_amount(&self, index: usize) -> Option<Cents>
        requires { index < length (numbers_of self.now.known) }
        ensures { result ≡ amount_of_own self.now.known (number_at self.now.known index) }
    {
        self.rules.own_amount(index)
    }

    /// The last set that this end signed of a delivery.
    pub fn last_signed(&self, index: usize) -> Option<&SetText>
        requires { index < length (numbers_of self.now.known) }
        ensures { option_copied result ≡ last_text self.now.known (number_at self.now.known index) }
    {
        self.rules.last_signed(index)
    }

    /// The version that ends at the accepted proposal of a delivery, where one is accepted: where the book knows the proposal and an acceptance of it,
    /// one of them signed and the other taken.
    pub fn final_of(&self, number: &DeliveryNumber) -> Option<&DsdRecord>
        ensures { option_copied result ≡ final_version self.now.known number.now }
    {
        self.rules.final_of(number)
    }
}
