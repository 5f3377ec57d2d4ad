//! The holidays in a window, by the rules of a book.

ghost use Rattle.std.specs.Prelude.{◌≡◌, Some};

use crate::book::Book;
use crate::book_rules::BookRules;
use crate::merged::Merged;
use crate::rest::Rest;
use cal_tables::Tables;
use cal_types::Window;

/// The holidays in a window: an iterator in order of the days, and on one day in order of the rules' numbers.
///
/// [`holidays()`] creates it. It takes no memory. It keeps the next day of each of 64 groups of rules. To return an
/// item, it looks at these 64 days, and then searches for the next day of each rule in the item's group, which has
/// one rule in 64.
///
/// [`Holidays::rest`](Merged::rest) returns the rest of the list.
pub type Holidays<'b, 't> = Merged<BookRules<'b, 't>>;

ghost use Rattle.std.specs.Prelude.{length};
ghost use Rattle.cal_tables.specs.Kinds.{table_contents};
ghost use Rattle.cal_holidays.specs.BookNames.{holidays_in, names_in_book};
ghost use Rattle.cal_holidays.specs.Books.{named_rules};
ghost use Rattle.cal_holidays.specs.Listing.{left_of};
ghost use Rattle.cal_holidays.specs.NamedDays.{AreHolidays};

/// Returns the days of a window that the rules of a book name, each with the number of its rule.
///
/// An item is a day of the window and the number of a rule that names it. Each pair is listed once, in order of the
/// days, and on one day in order of the rules' numbers. [`HolidayRule`](crate::HolidayRule) says which days a rule
/// names.
///
/// On the window's first day, rules with a number below `first_rule` are left out. Pass 0 to list the whole window. A
/// number that isn't below [`Book::len`] leaves out the first day.
///
/// The rules' calendars use the tables; with [`Tables::none`] all years are computed. After some items, the list over
/// [`rest`](Merged::rest) is the list of the remaining items.
///
/// ```text
/// let year = Window::try_new(RataDie::new(738886), RataDie::new(739251))?;
/// for holiday in holidays(&book, Tables::none(), year, 0) {
///     // holiday.day, book.name(holiday.rule)
/// }
/// ```
pub fn holidays<'b, 't>(
    book: &'b Book,
    tables: Tables<'t>,
    window: Window,
    first_rule: usize,
) -> Holidays<'b, 't>
    ensures list { let contents = table_contents result.rules.tables in let rules = named_rules result.rules.book.now in
        left_of (names_in_book contents rules) (length rules) result.rest
        ≡ holidays_in (table_contents tables.entry) (named_rules book.now) window.first window.last first_rule }
    ensures meant { let b = result.rules in let rules = named_rules b.book.now in
        AreHolidays (table_contents tables.entry) (named_rules book.now) window.first window.last first_rule
        (left_of (names_in_book (table_contents b.tables) rules) (length rules) result.rest) }
    ensures rest { result.rest ≡ Some (record { window = window; first_rule = first_rule }) }
    ensures rules { result.rules ≡ record { book = book.entry; tables = tables.entry } }
{
    Merged::new(BookRules { book, tables }, Rest { window, first_rule })
}
