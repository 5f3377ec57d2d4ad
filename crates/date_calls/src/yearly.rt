//! Anniversaries, in a caller's column.

ghost use Rattle.std.specs.Prelude.{◌≡◌, MatchResult};
ghost use Rattle.cal_types.specs.Anniversary.{anniversaries_between};
ghost use Rattle.cal_types.specs.MonthParts.{month_parts};
ghost use Rattle.date_calls.specs.Calendars.{calendar_of, choice_system};
ghost use Rattle.date_calls.specs.Codes.{overflow_of_code};
ghost use Rattle.date_calls.specs.Fields.{month_of};
ghost use Rattle.date_calls.specs.Lists.{AnswersList, IsUnlisted, ListsUnless};
ghost use Rattle.date_calls.specs.Yearly.{ListsYearly, anniversary_code, leaping_for, yearly_fault};

use crate::calendars::{Chosen, choose, run};
use crate::codes::overflow_of;
use crate::fields::month_of;
use crate::lists::{Listed, WindowList, list_items, tell_list, window_of};
use crate::outcomes::{INVALID_WINDOW, UNKNOWN_OPTION};
use cal_anniversary::{Anniversaries, AnniversaryError};
use cal_base::Calendar;
use cal_types::{Leaping, Month, Overflow, Window};
use kind_calls::CalendarTask;

/// Returns how years that lack the month or the day are handled.
fn leaping_for(overflow: Option<Overflow>) -> Leaping
    ensures { result ≡ leaping_for overflow }
{
    match overflow {
        Some(Overflow::Constrain) => Leaping::Constrain,
        _ => Leaping::Exact,
    }
}

/// Returns the code of an error.
fn code_of(cause: AnniversaryError) -> u8
    ensures { result ≡ anniversary_code cause }
{
    match cause {
        AnniversaryError::MonthNotInCalendar => 16,
        AnniversaryError::InvalidDay => 20,
    }
}

impl<C: Calendar> WindowList<i64> for Anniversaries<C> {
    ghost use Rattle.cal_anniversary.specs.Listing.{anniversaries_in};

    ghost between = { λ a first last. anniversaries_between (C.system a.calendar).list a.asked.leaping
        (month_parts a.asked.month) a.asked.day first last };

    ghost left = { λ a. a.rest };

    fn next_item(&mut self) -> Option<i64> {
        match self.next() {
            Some(day) => Some(day.to_i64_date()),
            None => None,
        }
    }

    fn rest(&self) -> Option<Window> {
        Anniversaries::rest(self)
    }
}

/// A month and a day whose anniversaries in a window are asked.
#[derive(Clone, Copy)]
struct YearlyDays {
    month: Month,
    day: u8,
    leaping: Leaping,
    window: Window,
}

/// Writes the first anniversaries to a column.
fn list_in<C: Calendar>(asked: &YearlyDays, calendar: C, days: &mut [i64]) -> Result<Listed, u8>
    ensures { let list = (C.system calendar).list in let m = month_parts asked.now.month in
        AnswersList (yearly_fault list m asked.now.day) (anniversaries_between list asked.now.leaping m asked.now.day)
        asked.now.window.first asked.now.window.last days.old days.new result }
{
    match cal_anniversary::anniversaries(
        calendar,
        asked.month,
        asked.day,
        asked.leaping,
        asked.window,
    ) {
        Ok(mut list) => Ok(list_items(&mut list, asked.window, days)),
        Err(cause) => Err(code_of(cause)),
    }
}

/// The column that is filled in.
#[derive(Drop)]
struct Days<'c> {
    days: &'c mut [i64],
}

impl<'c> CalendarTask<Days<'c>> for YearlyDays {
    ghost use Rattle.std.specs.Prelude.{⊤};

    type Answer = Result<Listed, u8>;

    ghost asks = { λ _ _ _. ⊤ };

    ghost done = { λ t s before column answer. (column.days.ghost_name ≡ before.days.ghost_name)
        × AnswersList (yearly_fault s.list (month_parts t.month) t.day)
        (anniversaries_between s.list t.leaping (month_parts t.month) t.day) t.window.first t.window.last
        before.days.now column.days.now answer };

    fn run<C: Calendar + Copy>(&self, column: &mut Days<'c>, calendar: C) -> Result<Listed, u8> {
        list_in(self, calendar, column.days)
    }
}

/// Writes the first anniversaries in the chosen calendar to a column.
fn list_chosen(asked: &YearlyDays, chosen: &Chosen, days: &mut [i64]) -> Result<Listed, u8>
    ensures { let list = (choice_system chosen.now).list in let m = month_parts asked.now.month in
        AnswersList (yearly_fault list m asked.now.day) (anniversaries_between list asked.now.leaping m asked.now.day)
        asked.now.window.first asked.now.window.last days.old days.new result }
{
    let mut column = Days { days };
    run(asked, &mut column, chosen)
}

/// Lists the anniversaries of a month and a day, and stores how many were written and where the list goes on.
fn list_yearly(
    chosen: &Chosen,
    asked: &YearlyDays,
    days: &mut [i64],
    written: &mut usize,
    next: &mut i64,
) -> u8
    requires { written.old ≡ 0 }
    ensures { let list = (choice_system chosen.now).list in let m = month_parts asked.now.month in
        ListsUnless (yearly_fault list m asked.now.day) (anniversaries_between list asked.now.leaping m asked.now.day)
        asked.now.window.first asked.now.window.last result days.old days.new written.new next.old next.new }
{
    let answer = list_chosen(asked, chosen, days);
    tell_list(answer, written, next)
}

/// Does the same as `list_yearly`, from the code of the option and the days of the window.
fn list_from(
    chosen: &Chosen,
    month: Month,
    day: u8,
    overflow: u8,
    first: i64,
    last: i64,
    days: &mut [i64],
    written: &mut usize,
    next: &mut i64,
) -> u8
    requires { written.old ≡ 0 }
    ensures { ListsYearly (choice_system chosen.now) (overflow_of_code overflow) (month_parts month) day first last
        result days.old days.new written.new next.old next.new }
{
    let Some(overflow) = overflow_of(overflow) else {
        return UNKNOWN_OPTION;
    };
    let Some(window) = window_of(first, last) else {
        return INVALID_WINDOW;
    };
    let leaping = leaping_for(overflow);
    let asked = YearlyDays {
        month,
        day,
        leaping,
        window,
    };
    list_yearly(chosen, &asked, days, written, next)
}

/// Lists the days from `first` to `last` on which a month and a day of a calendar fall: birthdays, memorial days, yearly
/// feasts. As many of them as `days` has places are written to its start, in order, and their number to `written`.
///
/// The list goes on from the day `next`: the same call with `next` in place of `first` writes the days that follow. If
/// `next` comes after `last`, none do.
///
/// `month_number` and `month_is_leap` are as in [`CalendarFields`](crate::CalendarFields). `overflow` says what happens
/// in a year that lacks the month or the day: 0 or 2 skips the year, 1 takes the nearest date.
///
/// # Errors
///
/// The code is 0 if days are listed. Otherwise `days` and `next` are unchanged, `written` is 0, and the code is the
/// first of:
///
/// - 1, 2 or 3 for an unknown calendar, an unknown source of years or an unknown option.
/// - 5 if a day of the window isn't from -365242499 to 365242134, or if `last` comes before `first`.
/// - 16 if the month isn't one of the calendar's months.
/// - 20 if the day isn't from 1 to 31.
pub fn anniversaries(
    calendar: u8,
    years: u8,
    month_number: u8,
    month_is_leap: u8,
    day: u8,
    overflow: u8,
    first: i64,
    last: i64,
    days: &mut [i64],
    written: &mut usize,
    next: &mut i64,
) -> u8
    ensures { MatchResult (calendar_of calendar years)
        (λ s. ListsYearly s (overflow_of_code overflow) (month_of month_number month_is_leap) day first last result
        days.old days.new written.new next.old next.new)
        (λ why. IsUnlisted why result days.old days.new written.new next.old next.new) }
{
    *written = 0;
    let month = month_of(month_number, month_is_leap);
    match choose(calendar, years) {
        Ok(chosen) => list_from(
            &chosen, month, day, overflow, first, last, days, written, next,
        ),
        Err(code) => code,
    }
}
