//! Weeks of the year as ISO 8601 counts them.

ghost use Rattle.cal_days.specs.Day.{IsValidDay};
ghost use Rattle.cal_types.specs.CalendarList.{day_number};
ghost use Rattle.cal_base.specs.IsoSystem.{iso_date, iso_list};
ghost use Rattle.icu_calendar.specs.Weeks.{IsInWeek, IsThursdayOf};

use crate::date::Date;
use cal_base::Iso;
use cal_days::{RataDie, gregorian};
use cal_types::IsoWeekOfYear;

/// Returns the Thursday in the week of a valid day. It is valid too, because the first valid day is a Monday and the
/// last is a Friday.
fn thursday_of(rd: RataDie) -> RataDie
    requires { IsValidDay rd }
    ensures of { IsThursdayOf rd result }
    ensures valid { IsValidDay result }
{
    let day = rd.to_i64_date();
    RataDie::new(day + 3 - (day - 1).rem_euclid(7))
}

/// Returns the week of a valid day number.
fn week_of(rd: RataDie) -> IsoWeekOfYear
    requires { IsValidDay rd }
    ensures { IsInWeek rd result.iso_year result.week_number }
{
    let thursday = thursday_of(rd);
    let iso_year = gregorian::year_from_fixed(thursday);
    let day_of_year = thursday.since(gregorian::year_start(iso_year)) as u16;
    IsoWeekOfYear {
        week_number: (day_of_year / 7) as u8 + 1,
        iso_year,
    }
}

impl Date<Iso> {
    /// Returns the ISO 8601 week of the date and the year that the week belongs to.
    ///
    /// A week runs from Monday to Sunday and belongs to the year of its Thursday, so week 1 has the year's first
    /// Thursday. The week's year may be the year before or after the date's own. (ISO 8601)
    ///
    /// # Examples
    ///
    /// ```
    /// let week = Date::try_new_iso(2024, 12, 30)?.week_of_year();
    /// assert!(rt; week.week_number == 1 && week.iso_year == 2025);
    /// ```
    pub fn week_of_year(&self) -> IsoWeekOfYear
        ensures { let day = day_number iso_list (iso_date self.now.inner) in
            IsInWeek day result.iso_year result.week_number }
    {
        week_of(self.to_rata_die())
    }
}
