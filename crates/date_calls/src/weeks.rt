//! Weeks and weekdays of a column of day numbers.

ghost use Rattle.std.specs.Prelude.{length};
ghost use Rattle.date_calls.specs.Columns.{Fills};
ghost use Rattle.date_calls.specs.Weeks.{AreWeekParts, IsWeekdayOf, ShowsWeek, ShowsWeekAt};

use crate::columns::{ColumnCall, fill_equal};
use crate::days::ValidDay;
use crate::outcomes::{DONE, INVALID_DAY_NUMBER};
use crate::years::week_of;
use cal_base::{Calendar, Iso};
use cal_types::Weekday;

/// The ISO 8601 week of a day, and its weekday.
#[repr(C)]
#[derive(Clone, Copy, Debug, PartialEq, Eq, Drop)]
pub struct CalendarWeek {
    /// The year that the week belongs to: the year of its Thursday.
    pub year: i32,
    /// The number of the week, from 1 to 53.
    pub week: u8,
    /// The weekday, from 1 for Monday to 7 for Sunday.
    pub weekday: u8,
}

/// Returns the number of a valid day's weekday.
fn weekday_of(day: ValidDay) -> u8
    ensures { IsWeekdayOf day.day result }
{
    Weekday::from(day.rata_die()).number()
}

/// Returns the week and the weekday of a valid day number.
fn parts_of_week(day: ValidDay) -> CalendarWeek
    ensures { AreWeekParts day.day result }
{
    let found = week_of(day);
    CalendarWeek {
        year: found.iso_year,
        week: found.week_number,
        weekday: weekday_of(day),
    }
}

/// Computes the week and the weekday of a day number, in `week`.
fn show_week(day: i64, week: &mut CalendarWeek) -> u8
    ensures { ShowsWeek day result week.old week.new }
{
    let Some(day) = ValidDay::of(day) else {
        return INVALID_DAY_NUMBER;
    };
    *week = parts_of_week(day);
    DONE
}

/// A column of day numbers whose weeks are asked.
#[derive(Drop)]
struct WeeksToShow<'a> {
    days: &'a [i64],
}

impl<'a> ColumnCall<CalendarWeek, u8> for WeeksToShow<'a> {
    ghost places = { λ q. length q.days.now };

    ghost single = { λ q _ k code before now. ShowsWeekAt q.days.now k code before now };

    fn count(&self) -> usize {
        self.days.len()
    }

    fn call_at<C: Calendar>(&self, _calendar: &C, place: usize, week: &mut CalendarWeek) -> u8 {
        show_week(self.days[place], week)
    }
}

/// Computes the ISO 8601 weeks and the weekdays of a column of day numbers, in `weeks`.
///
/// `codes` has at every place 0, or 4 if the day number there isn't from -365242499 to 365242134. A week whose code
/// isn't 0 is unchanged.
///
/// # Errors
///
/// - 9 if the columns don't have the same length; both are unchanged. Otherwise the result is 0.
pub fn weeks_of_days(days: &[i64], weeks: &mut [CalendarWeek], codes: &mut [u8]) -> u8
    ensures { Fills (ShowsWeekAt days.now) (length days.now) result weeks.old weeks.new codes.old codes.new }
{
    fill_equal(&WeeksToShow { days }, &Iso, weeks, codes)
}
