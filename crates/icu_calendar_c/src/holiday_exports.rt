//! The calls on books of holidays, exported. Each function has the same contract as the function of `date_calls` that it
//! wraps.

ghost use Rattle.date_calls.specs.Codes.{contents_of_code};
ghost use Rattle.date_calls.specs.Holidays.{ListsHolidays, NamesHoliday};

use date_calls::{CalendarBookFault, CalendarHoliday};
use std::alloc::Global;

/// Lists the holidays of a book from `first` to `last`, in order of their days, and on one day in the order of the book.
/// `book` is a CSV text with a holiday in each record, as the manual describes it. As many holidays as `items` has places
/// are written to its start, and their number to `written`. On the day `first`, rules with a number below `first_rule` are
/// left out: 0 lists the whole window.
///
/// The list goes on from the day `next` and the rule `next_rule`: the same call with them in place of `first` and
/// `first_rule` writes the items that follow. If `next` comes after `last`, none do, and `next_rule` is 0.
///
/// Each call reads the whole book. It takes memory for the records, and gives it back before it returns.
///
/// # Errors
///
/// The code is 0 if holidays are listed. Otherwise `items`, `next` and `next_rule` are unchanged, `written` is 0, and the
/// code is the first of:
///
/// - 2 for an unknown source of years.
/// - 5 if a day of the window isn't from -365242499 to 365242134, or if `last` comes before `first`.
/// - 23 if a record of the book is invalid. Then `fault` names the first one; otherwise it is unchanged.
/// - 24 if there isn't enough memory for the records up to the first invalid one.
#[unsafe(no_mangle)]
pub extern "C" fn icu_calendar_holidays(
    alloc: Global,
    years: u8,
    book: &[u8],
    first: i64,
    last: i64,
    first_rule: usize,
    items: &mut [CalendarHoliday],
    written: &mut usize,
    next: &mut i64,
    next_rule: &mut usize,
    fault: &mut CalendarBookFault,
) -> u8
    ensures { ListsHolidays (contents_of_code years) book.now first last first_rule result items.old items.new
        written.new next.old next.new next_rule.old next_rule.new fault.old fault.new }
{
    date_calls::holidays(
        alloc, years, book, first, last, first_rule, items, written, next, next_rule, fault,
    )
}

/// Writes the name of a holiday of a book to the start of `room`, and its number of bytes, 1 to 64, to `written`: printable
/// ASCII without enclosing quotes. `rule` is the number of its record, from 0.
///
/// Each call reads the whole book. It takes memory for the records, and gives it back before it returns.
///
/// # Errors
///
/// The code is 0 if the name is written. Otherwise `room` is unchanged, and the code is the first of:
///
/// - 23 if a record of the book is invalid, with 0 in `written`.
/// - 24 if there isn't enough memory for the records up to the first invalid one, with 0 in `written`.
/// - 25 if the book doesn't have the record, with 0 in `written`.
/// - 8 if `room` is too short; `written` is the number of bytes needed.
#[unsafe(no_mangle)]
pub extern "C" fn icu_calendar_holiday_name(
    alloc: Global,
    book: &[u8],
    rule: usize,
    room: &mut [u8],
    written: &mut usize,
) -> u8
    ensures { NamesHoliday book.now rule result written.new room.old room.new }
{
    date_calls::holiday_name(alloc, book, rule, room, written)
}
