//! The book of an end over the image that its station was left with.

ghost use Rattle.std.specs.Prelude.{◌≡◌, true};
ghost use Rattle.cable_world.specs.Finishing.{IsWhole};

use crate::player::Player;
use delivery_book::Book;
use dsd_values::Role;
use std::marker::Model;

/// Whose the book is.
#[derive(Drop)]
enum Keeper {
    /// An end whose session has ended has it.
    Ended(Player),
    /// It was opened over the image.
    Opened(Book),
}

/// The book of an end over the image that its station was left with.
#[derive(Drop)]
pub(crate) struct LeftBook {
    keeper: Keeper,
}

impl Model for LeftBook {
    ghost use Rattle.delivery_book.specs.Books.{BookView};
    ghost use Rattle.cable_world.specs.Finishing.{book_in};

    ghost Value = { BookView };

    ghost view = { λ left. book_in left.keeper };
}

impl LeftBook {
    /// The book of an end whose session has ended.
    pub(crate) fn of_ended(player: Player) -> LeftBook
        ensures { result ≡ player.book }
    {
        LeftBook {
            keeper: Keeper::Ended(player),
        }
    }

    /// A book that was opened over the image.
    pub(crate) fn of_opened(book: Book) -> LeftBook
        ensures { result ≡ book }
    {
        LeftBook {
            keeper: Keeper::Opened(book),
        }
    }

    pub(crate) fn book(&self) -> &Book
        ensures { result.now ≡ self.now }
    {
        match &self.keeper {
            Keeper::Ended(player) => player.book(),
            Keeper::Opened(book) => book,
        }
    }

    /// Lets the book go.
    pub(crate) fn close(self) {
        let LeftBook { keeper } = self;
        match keeper {
            Keeper::Ended(player) => player.close(),
            Keeper::Opened(book) => drop(book),
        }
    }
}

/// Whether a book of this role knows what its journal has, and no more.
pub(crate) fn is_whole(book: &Book, role: Role) -> bool
    ensures { result ≡ true → IsWhole role book.now }
{
    book.role() == role && book.works() && book.journal().staged() == 0
}
