//! The parts of a date, and the date of a day number.

ghost use Rattle.std.specs.Prelude.{◌≡◌, IsTrue};
ghost use Rattle.cal_types.specs.Year.{era_year_or_related_iso_of, extended_year_of};
ghost use Rattle.cal_types.specs.CalendarList.{day_number as day_number_of};
ghost use Rattle.date_calls.specs.Dates.{AreParts, cyclic_number, flag};

use crate::days::ValidDay;
use crate::questions::Question;
use cal_base::Calendar;
use cal_types::{IntoYearInfo, YearInfo};

/// The parts of a date in its calendar.
#[repr(C)]
#[derive(Clone, Copy, Debug, PartialEq, Eq, Drop)]
pub struct CalendarDate {
    /// The day number (rata die): 1 is 0001-01-01 in the ISO calendar.
    pub day_number: i64,
    /// The extended year, which numbers a calendar's years without eras.
    pub extended_year: i32,
    /// The era year, or the ISO year in which a year of the cycle of sixty begins.
    pub era_year: i32,
    /// The year in the cycle of sixty years, from 1; 0 if the year is in an era.
    pub cyclic_year: u8,
    /// The month's ordinal number in its year, from 1.
    pub ordinal_month: u8,
    /// The month's number, as in its code. After a leap month it differs from the ordinal month.
    pub month_number: u8,
    /// 1 for a leap month, otherwise 0.
    pub month_is_leap: u8,
    /// The day of the month, from 1.
    pub day: u8,
}

/// Returns 1 for `true` and 0 for `false`.
fn flag(holds: bool) -> u8
    ensures { result ≡ flag holds }
{
    u8::from(holds)
}

/// The numbers of a year: extended, in its era, and in its cycle.
#[derive(Clone, Copy)]
struct YearNumbers {
    extended: i32,
    in_era: i32,
    in_cycle: u8,
}

/// Returns the numbers of a year.
fn numbers_of(year: YearInfo) -> YearNumbers
    ensures extended { result.extended ≡ extended_year_of year }
    ensures in_era { result.in_era ≡ era_year_or_related_iso_of year }
    ensures in_cycle { result.in_cycle ≡ cyclic_number year }
{
    match year {
        YearInfo::Era(era) => YearNumbers {
            extended: era.extended_year,
            in_era: era.year,
            in_cycle: 0,
        },
        YearInfo::Cyclic(cyclic) => YearNumbers {
            extended: cyclic.related_iso,
            in_era: cyclic.related_iso,
            in_cycle: cyclic.year,
        },
    }
}

/// Returns the parts of an inner date, whose day number is known.
fn parts_on<C: Calendar>(calendar: &C, date: &C::DateInner, day_number: i64) -> CalendarDate
    requires belongs { IsTrue (C.belongs calendar.now date.now) }
    requires on { day_number ≡ day_number_of (C.system calendar.now).list (C.date_of calendar.now date.now) }
    ensures { AreParts (C.system calendar.now) (C.date_of calendar.now date.now) result }
{
    let year = numbers_of(calendar.year_info(date).into_year_info());
    let info = calendar.month(date);
    let month = info.to_input();
    CalendarDate {
        day_number,
        extended_year: year.extended,
        era_year: year.in_era,
        cyclic_year: year.in_cycle,
        ordinal_month: info.ordinal,
        month_number: month.number(),
        month_is_leap: flag(month.is_leap()),
        day: calendar.day_of_month(date).0,
    }
}

/// Returns the parts of an inner date.
pub(crate) fn parts_of<C: Calendar>(calendar: &C, date: &C::DateInner) -> CalendarDate
    requires { IsTrue (C.belongs calendar.now date.now) }
    ensures { AreParts (C.system calendar.now) (C.date_of calendar.now date.now) result }
{
    parts_on(calendar, date, calendar.to_rata_die(date).to_i64_date())
}

/// The task of converting a day number to a date.
#[derive(Clone, Copy)]
pub(crate) struct OfDay {
    pub(crate) day: ValidDay,
}

impl Question for OfDay {
    ghost use Rattle.date_calls.specs.Dates.{IsShown};

    type Answer = CalendarDate;

    ghost answers = { λ q s date. IsShown s q.day.day date };

    fn ask<C: Calendar>(&self, calendar: &C) -> CalendarDate
        ensures { IsShown (C.system calendar.now) self.now.day.day result }
    {
        let date = calendar.from_rata_die(self.day.rata_die());
        parts_on(calendar, &date, self.day.number())
    }
}
