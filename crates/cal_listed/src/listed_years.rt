//! A calendar by a list of some of its years, counted through month by month.

ghost use Rattle.std.specs.Prelude.{◌≡◌, ◌≤◌, IsTrue, length};
ghost use Rattle.cal_days.specs.Day.{IsNear, IsRuleYear};
ghost use Rattle.cal_listed.specs.YearList.{are_short};

use cal_types::Month;

mod counting;

/// A month of a listed year.
#[derive(Clone, Copy, Debug, PartialEq, Eq)]
pub struct ListedMonth {
    /// The month's number, and whether it is a leap month.
    pub month: Month,
    /// How many days it has.
    pub days: u8,
}

/// A date of a listed year.
#[derive(Clone, Copy, Debug, PartialEq, Eq)]
pub struct ListedDate {
    /// The extended year.
    pub year: i32,
    /// The month's place in the year, from 1.
    pub month: u8,
    /// The day of the month, from 1.
    pub day: u8,
}

/// Some years of a calendar in a row, each by its months in order.
#[derive(Clone, Copy)]
pub struct ListedYears<'a> {
    first_year: i32,
    first_day: i64,
    years: &'a [&'a [ListedMonth]],
    ghost rule_year: { IsRuleYear first_year },
    ghost near: { IsNear first_day },
    ghost few: { length years.now ≤ 10000 },
    ghost short: { IsTrue (are_short years.now) },
}

impl<'a> ListedYears<'a> {
    /// Years from `first_year` on, the first of which starts on day number `first_day`. At most 10000 years
    /// of at most 13 months, from year -8000000 to 8000000.
    pub const fn new(
        first_year: i32,
        first_day: i64,
        years: &'a [&'a [ListedMonth]],
    ) -> ListedYears<'a>
        requires year { IsRuleYear first_year }
        requires day { IsNear first_day }
        requires few { length years.now ≤ 10000 }
        requires short { IsTrue (are_short years.now) }
        ensures year { result.first_year ≡ first_year }
        ensures day { result.first_day ≡ first_day }
        ensures years { result.years.now ≡ years.now }
    {
        ListedYears {
            first_year,
            first_day,
            years,
        }
    }
}
