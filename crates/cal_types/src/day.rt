//! Numbers of days and weeks in a month or a year.

/// The day of the month, from 1.
#[derive(Clone, Copy, Debug, PartialEq)]
pub struct DayOfMonth(pub u8);

/// The day of the year, from 1.
#[derive(Clone, Copy, Debug, PartialEq)]
pub struct DayOfYear(pub u16);

/// The number of a day among the days of the same weekday in the month, from 1: the second Monday is 2.
#[derive(Clone, Copy, Debug, PartialEq)]
pub struct DayOfWeekInMonth(pub u8);

/// Returns 1 for the first seven days of the month, 2 for the next seven, and so on. Returns 1 for day 0, which no
/// month has.
impl From<DayOfMonth> for DayOfWeekInMonth {
    ghost use Rattle.std.specs.Prelude.{◌≡◌};
    ghost use Rattle.cal_types.specs.WeekNumber.{week_of_day};

    ghost from_gives = { λ day week. week.0 ≡ week_of_day day.0 };

    fn from(day_of_month: DayOfMonth) -> Self {
        DayOfWeekInMonth(1 + day_of_month.0.saturating_sub(1) / 7)
    }
}

/// A week of ISO 8601: its number, and the ISO year that contains its Thursday.
#[derive(Clone, Copy, Debug, PartialEq)]
pub struct IsoWeekOfYear {
    /// The number of the week in its year, from 1. Week 1 contains the first Thursday of the year.
    pub week_number: u8,
    /// The ISO year that contains the Thursday of the week.
    pub iso_year: i32,
}
