//! What is told of a world.

ghost use Rattle.std.specs.Prelude.{◌≡◌, ◌<◌, ◌≤◌, ◌^◌, length};
ghost use Rattle.std.specs.List.{count_by};
ghost use Rattle.delivery_book.specs.Finals.{final_of};
ghost use Rattle.delivery_book.specs.Lookups.{numbers_of};
ghost use Rattle.dsd_values.specs.declared.cents.TheConstants.Cents.{MAX as MOST_CENTS};
ghost use Rattle.dsd_journal.specs.declared.limits.TheConstants.{MOST_ENTRIES};
ghost use Rattle.cable_world.specs.WorldReports.{amount_of, is_adjusted_at_both, is_final_at_both as are_both_final, quantity_of, total_amount, total_quantity};

use delivery_book::Book;
use dsd_values::DeliveryNumber;

/// What is told of a world that was played.
#[derive(Debug, Drop)]
pub struct WorldReport {
    /// What is printed of it: `HANDHELD` and the handheld's lines, `RECEIVER` and the receiver's lines.
    pub lines: Vec<u8>,
    /// Whether each delivery of both journals and each draft is final at both ends.
    pub all_final: bool,
    /// How many deliveries are final at both ends.
    pub finals: u64,
    /// How many of them are final above level 0.
    pub adjusted: u64,
    /// The sum of the quantities of the handheld's finals.
    pub quantity: u64,
    /// The sum of their amounts in cents.
    pub amount: u64,
}

/// How many deliveries are final in both books.
pub(crate) fn finals_at_both(handheld: &Book, receiver: &Book) -> u64
    ensures { result ≡ count_by (are_both_final handheld.now.known receiver.now.known) (numbers_of handheld.now.known) }
{
    let mut count = 0;
    for index in 0..handheld.deliveries() {
        if is_final_at_both(handheld, receiver, handheld.number(index)) {
            count += 1;
        }
    }
    count
}

fn is_final_at_both(handheld: &Book, receiver: &Book, number: &DeliveryNumber) -> bool
    ensures { result ≡ are_both_final handheld.now.known receiver.now.known number.now }
{
    handheld.final_of(number).is_some() && receiver.final_of(number).is_some()
}

/// How many of them are final above level 0.
pub(crate) fn adjusted_at_both(handheld: &Book, receiver: &Book) -> u64
    ensures { result ≡ count_by (is_adjusted_at_both handheld.now.known receiver.now.known) (numbers_of handheld.now.known) }
{
    let mut count = 0;
    for index in 0..handheld.deliveries() {
        if is_adjusted(handheld, receiver, handheld.number(index)) {
            count += 1;
        }
    }
    count
}

fn is_adjusted(handheld: &Book, receiver: &Book, number: &DeliveryNumber) -> bool
    ensures { result ≡ is_adjusted_at_both handheld.now.known receiver.now.known number.now }
{
    match handheld.final_of(number) {
        Some(version) => receiver.final_of(number).is_some() && version.level().get() > 0,
        None => false,
    }
}

/// The sum of the quantities of a book's finals.
pub(crate) fn quantity_of_finals(book: &Book) -> u64
    requires { book.now.known ≡ book.now.entries }
    ensures { result ≡ total_quantity book.now.known }
{
    let mut sum = 0;
    for index in 0..delivery_count(book) {
        sum += final_quantity(book, book.number(index));
    }
    sum
}

/// The quantity of a delivery, where it is final.
fn final_quantity(book: &Book, number: &DeliveryNumber) -> u64
    ensures value { result ≡ quantity_of (final_of book.now.known number.now) }
    ensures few { result < 2 ^ 32 }
{
    match book.final_of(number) {
        Some(version) => u64::from(version.totals().quantity),
        None => 0,
    }
}

/// The sum of the amounts of a book's finals.
pub(crate) fn amount_of_finals(book: &Book) -> u64
    requires { book.now.known ≡ book.now.entries }
    ensures { result ≡ total_amount book.now.known }
{
    let mut sum = 0;
    for index in 0..delivery_count(book) {
        sum += final_amount(book, book.number(index));
    }
    sum
}

/// The amount of a delivery, where it is final.
fn final_amount(book: &Book, number: &DeliveryNumber) -> u64
    ensures value { result ≡ amount_of (final_of book.now.known number.now) }
    ensures few { result ≤ MOST_CENTS }
{
    match book.final_of(number) {
        Some(version) => version.totals().amount.get(),
        None => 0,
    }
}

/// How many deliveries there are: no more than entries, for which a journal has room.
fn delivery_count(book: &Book) -> usize
    requires { book.now.known ≡ book.now.entries }
    ensures value { result ≡ length (numbers_of book.now.known) }
    ensures few { result ≤ MOST_ENTRIES }
{
    let _ = book.journal().len();
    book.deliveries()
}
