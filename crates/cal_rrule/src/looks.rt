//! Looks at months and years: their first days, their lengths and their names.

ghost use Rattle.std.specs.Prelude.{◌≡◌, neg_ℤ, pos, ◌≤ℤ◌};
ghost use Rattle.cal_days.specs.Day.{is_valid_day};
ghost use Rattle.cal_rrule.specs.Looks.{IsMonthLook, IsYearLook, look_stretch, look_year};
ghost use Rattle.cal_rrule.specs.Stretches.{InStretch, end_of};

use crate::month_look::MonthLook;
use crate::year_look::YearLook;
use cal_base::Calendar;
use cal_days::RataDie;
use cal_days::ranges::{FIRST_VALID_DAY, LAST_VALID_DAY};

/// Returns whether a day is valid.
pub(crate) fn is_valid(day: i64) -> bool
    ensures { result ≡ is_valid_day day }
{
    FIRST_VALID_DAY <= day && day <= LAST_VALID_DAY
}

impl MonthLook {
    /// Returns the day behind the month.
    pub(crate) fn end(&self) -> i64
        ensures { result ≡ end_of (look_stretch self.now) }
    {
        self.first + i64::from(self.days)
    }
}

/// Returns the month of a valid day.
pub(crate) fn month_of<C: Calendar>(calendar: &C, day: i64) -> MonthLook
    requires low { neg_ℤ (pos 365242499) ≤ℤ day }
    requires high { day ≤ℤ pos 365242134 }
    ensures look { IsMonthLook (C.system calendar.now).list result }
    ensures within { InStretch (look_stretch result) day }
{
    let date = calendar.from_rata_die(RataDie::new(day));
    let info = calendar.month(&date);
    MonthLook {
        year: calendar.extended_year(&date),
        place: info.ordinal,
        first: day + 1 - i64::from(calendar.day_of_month(&date).0),
        days: calendar.days_in_month(&date),
        month: info.to_input(),
    }
}

impl YearLook {
    /// Returns the day behind the year.
    pub(crate) fn end(&self) -> i64
        ensures { result ≡ end_of (look_year self.now) }
    {
        self.first + i64::from(self.days)
    }
}

/// Returns the year of a valid day.
pub(crate) fn year_of<C: Calendar>(calendar: &C, day: i64) -> YearLook
    requires low { neg_ℤ (pos 365242499) ≤ℤ day }
    requires high { day ≤ℤ pos 365242134 }
    ensures look { IsYearLook (C.system calendar.now).list result }
    ensures within { InStretch (look_year result) day }
{
    let date = calendar.from_rata_die(RataDie::new(day));
    YearLook {
        year: calendar.extended_year(&date),
        first: day + 1 - i64::from(calendar.day_of_year(&date).0),
        days: calendar.days_in_year(&date),
    }
}
