//! The reasons why reading a text stops.

ghost use Rattle.std.specs.Prelude.{◌≡◌};

use crate::book::BookError;

/// The reason why reading the records of a text stopped.
#[derive(Drop)]
pub(crate) enum Unread {
    /// A record is invalid.
    Bad {
        /// The number of the record, from 1.
        number: usize,
        /// The number of its first invalid field, from 1; 0 if it doesn't have six to ten fields.
        field: u8,
    },
    /// A record is valid, but there is no memory to keep it.
    Unkept {
        /// The number of the record, from 1.
        number: usize,
    },
    /// `csv` can't read a record, because memory is lacking. Its error is never about the text.
    Unreadable {
        /// The error.
        error: csv::Error,
    },
}

ghost use Rattle.cal_holidays.specs.Books.{book_error};

impl Unread {
    /// Returns the public error.
    pub(crate) fn book_error(self) -> BookError
        ensures { result ≡ book_error self }
    {
        match self {
            Unread::Bad { number, field } => BookError::Record { number, field },
            Unread::Unkept { .. } => BookError::Memory,
            Unread::Unreadable { .. } => BookError::Memory,
        }
    }
}
