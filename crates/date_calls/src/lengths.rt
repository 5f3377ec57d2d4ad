//! How many days and months the month and the year of a day have.

ghost use Rattle.std.specs.Prelude.{MatchResult};
ghost use Rattle.date_calls.specs.Calendars.{calendar_of, choice_system};
ghost use Rattle.date_calls.specs.Calls.{IsLeft};
ghost use Rattle.date_calls.specs.Lengths.{ShowsLengths};

use crate::calendars::{Chosen, ask, choose};
use crate::days::ValidDay;
use crate::outcomes::{DONE, INVALID_DAY_NUMBER};
use crate::questions::Question;
use cal_base::Calendar;

/// The lengths of a date's year and month.
#[repr(C)]
#[derive(Clone, Copy, Debug, PartialEq, Eq, Drop)]
pub struct CalendarLengths {
    /// The number of days in the year.
    pub days_in_year: u16,
    /// The number of months in the year.
    pub months_in_year: u8,
    /// The number of days in the month.
    pub days_in_month: u8,
}

/// The task of finding the lengths of a day's year and month.
#[derive(Clone, Copy)]
struct LengthsOf {
    day: ValidDay,
}

impl Question for LengthsOf {
    ghost use Rattle.date_calls.specs.Lengths.{AreLengths};

    type Answer = CalendarLengths;

    ghost answers = { λ q s lengths. AreLengths s q.day.day lengths };

    fn ask<C: Calendar>(&self, calendar: &C) -> CalendarLengths
        ensures { AreLengths (C.system calendar.now) self.now.day.day result }
    {
        let date = calendar.from_rata_die(self.day.rata_die());
        CalendarLengths {
            days_in_year: calendar.days_in_year(&date),
            months_in_year: calendar.months_in_year(&date),
            days_in_month: calendar.days_in_month(&date),
        }
    }
}

/// Finds the lengths of a day's year and month in a calendar, in `lengths`.
fn show_lengths(chosen: &Chosen, day: i64, lengths: &mut CalendarLengths) -> u8
    ensures { ShowsLengths (choice_system chosen.now) day result lengths.old lengths.new }
{
    let Some(day) = ValidDay::of(day) else {
        return INVALID_DAY_NUMBER;
    };
    *lengths = ask(&LengthsOf { day }, chosen);
    DONE
}

/// Finds how many days and months the year of a day number has, and how many days its month has, in `lengths`.
///
/// # Errors
///
/// The code is 0 if `lengths` is filled in. Otherwise `lengths` is unchanged, and the code is the first of:
///
/// - 1 or 2 for an unknown calendar or an unknown source of years.
/// - 4 if `day` isn't from -365242499 to 365242134.
pub fn lengths_of_day(calendar: u8, years: u8, day: i64, lengths: &mut CalendarLengths) -> u8
    ensures { MatchResult (calendar_of calendar years) (λ s. ShowsLengths s day result lengths.old lengths.new)
        (λ why. IsLeft why result lengths.old lengths.new) }
{
    match choose(calendar, years) {
        Ok(chosen) => show_lengths(&chosen, day, lengths),
        Err(code) => code,
    }
}
