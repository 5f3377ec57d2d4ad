//! Holidays of a book, in a caller's column.

ghost use Rattle.std.specs.Prelude.{◌≡◌};
ghost use Rattle.cal_holidays.specs.Books.{book_records, named_rules};
ghost use Rattle.cal_holidays.specs.Listing.{pair_given};
ghost use Rattle.cal_tables.specs.Kinds.{table_contents};
ghost use Rattle.date_calls.specs.Codes.{contents_of_code};
ghost use Rattle.date_calls.specs.Holidays.{AnswersHolidays, AreHolidaysListed, FillsHolidays, ListsHolidays, NamesHoliday, PutsName, StepsHolidays, name_at, next_rule, pair_told, window_left};

use crate::codes::tables_of;
use crate::lists::{next_day, window_of};
use crate::outcomes::{
    DONE, INVALID_BOOK, INVALID_WINDOW, NO_MEMORY, NO_ROOM, UNKNOWN_HOLIDAY, UNKNOWN_YEARS,
};
use crate::rooms::put;
use cal_holidays::{Book, BookError, Holiday, Holidays, Rest};
use cal_tables::Tables;
use cal_types::Window;
use std::alloc::Global;

/// A day on which a holiday of a book falls.
#[repr(C)]
#[derive(Clone, Copy, Debug, PartialEq, Eq, Drop)]
pub struct CalendarHoliday {
    /// The day number (rata die).
    pub day: i64,
    /// The number of the holiday's rule: its record in the book, from 0.
    pub rule: usize,
}

/// The first invalid record of a book.
#[repr(C)]
#[derive(Clone, Copy, Debug, PartialEq, Eq, Drop)]
pub struct CalendarBookFault {
    /// The number of the record, from 1. Blank lines aren't records.
    pub number: usize,
    /// The number of its first invalid field, from 1 to 10; 0 if it doesn't have six to ten fields.
    pub field: u8,
}

/// How many holidays were written, and where the list goes on.
#[derive(Clone, Copy)]
struct ListedHolidays {
    written: usize,
    next: i64,
    next_rule: usize,
}

/// Returns a holiday in the form that a caller receives.
fn told(item: Holiday) -> CalendarHoliday
    ensures { pair_told result ≡ pair_given item }
{
    CalendarHoliday {
        day: item.day.to_i64_date(),
        rule: item.rule,
    }
}

/// Returns the first holiday that is left.
fn next_holiday<'b, 't>(list: &mut Holidays<'b, 't>) -> Option<Holiday>
    ensures rules { list.new.rules ≡ list.old.rules }
    ensures steps { StepsHolidays list.old.rules list.old.rest result list.new.rest }
{
    list.next()
}

/// Writes the first holidays of a list to a column, and returns how many.
fn fill_holidays<'b, 't>(list: &mut Holidays<'b, 't>, items: &mut [CalendarHoliday]) -> usize
    ensures { FillsHolidays list.old.rules list.old.rest list.new.rest items.old items.new result }
{
    let mut written = 0;
    'given: while written < items.len() {
        match next_holiday(list) {
            Some(item) => {
                items[written] = told(item);
                written += 1;
            }
            None => return written,
        }
    }
    written
}

/// Returns the window of the rest of a list.
fn window_left(rest: Option<Rest>) -> Option<Window>
    ensures { result ≡ window_left rest }
{
    match rest {
        Some(rest) => Some(rest.window),
        None => None,
    }
}

/// Returns the first rule of the rest of a list, or 0 if nothing is left.
fn next_rule(rest: Option<Rest>) -> usize
    ensures { result ≡ next_rule rest }
{
    match rest {
        Some(rest) => rest.first_rule,
        None => 0,
    }
}

/// Writes the first holidays of a book to a column.
fn list_book<'b, 't>(
    book: &'b Book,
    tables: Tables<'t>,
    window: Window,
    first_rule: usize,
    items: &mut [CalendarHoliday],
) -> ListedHolidays
    ensures { AreHolidaysListed (table_contents tables.entry) (named_rules book.now) window.first window.last first_rule
        items.old items.new result.written result.next result.next_rule }
{
    let mut list = cal_holidays::holidays(book, tables, window, first_rule);
    let written = fill_holidays(&mut list, items);
    let rest = list.rest();
    ListedHolidays {
        written,
        next: next_day(window_left(rest), window.last()),
        next_rule: next_rule(rest),
    }
}

/// Reads a book and lists its holidays, and stores how many were written and where the list goes on.
fn list_read(
    alloc: Global,
    tables: Tables<'static>,
    book: &[u8],
    window: Window,
    first_rule: usize,
    items: &mut [CalendarHoliday],
    written: &mut usize,
    next: &mut i64,
    next_rule: &mut usize,
    fault: &mut CalendarBookFault,
) -> u8
    requires { written.old ≡ 0 }
    ensures { AnswersHolidays (table_contents tables.entry) (book_records book.now) window.first window.last first_rule
        result items.old items.new written.new next.old next.new next_rule.old next_rule.new fault.old fault.new }
{
    match Book::try_read(alloc, book) {
        Ok(book) => {
            let listed = list_book(&book, tables, window, first_rule, items);
            *written = listed.written;
            *next = listed.next;
            *next_rule = listed.next_rule;
            DONE
        }
        Err(BookError::Memory) => NO_MEMORY,
        Err(BookError::Record { number, field }) => {
            *fault = CalendarBookFault { number, field };
            INVALID_BOOK
        }
    }
}

/// Lists the holidays of a book from `first` to `last`, in order of their days, and on one day in the order of the book.
/// `book` is a CSV text with a holiday in each record, as [`cal_holidays`] describes it. As many holidays as `items` has
/// places are written to its start, and their number to `written`. On the day `first`, rules with a number below
/// `first_rule` are left out: 0 lists the whole window.
///
/// The list goes on from the day `next` and the rule `next_rule`: the same call with them in place of `first` and
/// `first_rule` writes the items that follow. If `next` comes after `last`, none do, and `next_rule` is 0.
///
/// Each call reads the whole book. It takes memory for the records, and gives it back before it returns.
///
/// # Errors
///
/// The code is 0 if holidays are listed. Otherwise `items`, `next` and `next_rule` are unchanged, `written` is 0, and the
/// code is the first of:
///
/// - 2 for an unknown source of years.
/// - 5 if a day of the window isn't from -365242499 to 365242134, or if `last` comes before `first`.
/// - 23 if a record of the book is invalid. Then `fault` names the first one; otherwise it is unchanged.
/// - 24 if there isn't enough memory for the records up to the first invalid one.
pub fn holidays(
    alloc: Global,
    years: u8,
    book: &[u8],
    first: i64,
    last: i64,
    first_rule: usize,
    items: &mut [CalendarHoliday],
    written: &mut usize,
    next: &mut i64,
    next_rule: &mut usize,
    fault: &mut CalendarBookFault,
) -> u8
    ensures { ListsHolidays (contents_of_code years) book.now first last first_rule result items.old items.new
        written.new next.old next.new next_rule.old next_rule.new fault.old fault.new }
{
    *written = 0;
    let Some(tables) = tables_of(years) else {
        return UNKNOWN_YEARS;
    };
    let Some(window) = window_of(first, last) else {
        return INVALID_WINDOW;
    };
    list_read(
        alloc, tables, book, window, first_rule, items, written, next, next_rule, fault,
    )
}

/// Writes the name of a holiday of a book to the start of `room`.
fn put_name(book: &Book, rule: usize, room: &mut [u8], written: &mut usize) -> u8
    requires { written.old ≡ 0 }
    ensures { PutsName (name_at (named_rules book.now) rule) result written.new room.old room.new }
{
    if rule >= book.len() {
        return UNKNOWN_HOLIDAY;
    }
    if put(book.name(rule), room, written) {
        DONE
    } else {
        NO_ROOM
    }
}

/// Writes the name of a holiday of a book to the start of `room`, and its number of bytes, 1 to 64, to `written`: printable
/// ASCII without enclosing quotes. `rule` is the number of its record, from 0.
///
/// Each call reads the whole book. It takes memory for the records, and gives it back before it returns.
///
/// # Errors
///
/// The code is 0 if the name is written. Otherwise `room` is unchanged, and the code is the first of:
///
/// - 23 if a record of the book is invalid, with 0 in `written`.
/// - 24 if there isn't enough memory for the records up to the first invalid one, with 0 in `written`.
/// - 25 if the book doesn't have the record, with 0 in `written`.
/// - 8 if `room` is too short; `written` is the number of bytes needed.
pub fn holiday_name(
    alloc: Global,
    book: &[u8],
    rule: usize,
    room: &mut [u8],
    written: &mut usize,
) -> u8
    ensures { NamesHoliday book.now rule result written.new room.old room.new }
{
    *written = 0;
    match Book::try_read(alloc, book) {
        Ok(book) => put_name(&book, rule, room, written),
        Err(BookError::Memory) => NO_MEMORY,
        Err(BookError::Record { .. }) => INVALID_BOOK,
    }
}
