//! Weekdays in the week from or up to a day.

ghost use Rattle.std.specs.Prelude.{◌≡◌, true};
ghost use Rattle.cal_days.specs.Day.{IsFieldYear, IsValidDay};
ghost use Rattle.cal_types.specs.MonthParts.{month_parts};
ghost use Rattle.cal_holidays.specs.NamedDays.{HasWeekday, IsInWeek, IsSpanDay};
ghost use Rattle.cal_holidays.specs.OwnDays.{IsValidOne};
ghost use Rattle.cal_holidays.specs.Rules.{is_month_day};

use crate::holiday_rule::SpanWeek;
use crate::months::{YearlyDay, day_in_year};
use crate::valid_days::valid_day;
use crate::weekdays::{on_or_after, on_or_before, since_sunday};
use cal_base::Calendar;
use cal_days::RataDie;
use cal_types::{Leaping, Month, Weekday};

/// A weekday in the week from or up to a day of a month.
#[derive(Clone, Copy)]
pub(crate) struct SpanWeekday {
    pub(crate) month: Month,
    pub(crate) day: u8,
    pub(crate) week: SpanWeek,
    pub(crate) weekday: Weekday,
}

/// Returns the weekday in the week from a day on, or up to it.
fn weekday_in(week: SpanWeek, weekday: Weekday, day: RataDie) -> i64
    requires { IsValidDay day }
    ensures on { HasWeekday weekday result }
    ensures within { IsInWeek week day result }
{
    let sunday = since_sunday(weekday);
    match week {
        SpanWeek::From => on_or_after(sunday, day.to_i64_date()),
        SpanWeek::UpTo => on_or_before(sunday, day.to_i64_date()),
    }
}

/// Returns the weekday in the week from or up to the day of a year, if both are valid days.
pub(crate) fn span_day<C: Calendar>(calendar: &C, asked: SpanWeekday, year: i32) -> Option<RataDie>
    requires month { (C.system calendar.now).list.is_of_kind (month_parts asked.month) ≡ true }
    requires day { is_month_day asked.day ≡ true }
    requires year { IsFieldYear year }
    ensures { IsValidOne (IsSpanDay (C.system calendar.now).list (month_parts asked.month) asked.day asked.week
        asked.weekday year) result }
{
    let date = YearlyDay {
        month: asked.month,
        day: asked.day,
        leaping: Leaping::Exact,
    };
    let day = day_in_year(calendar, date, year)?;
    valid_day(weekday_in(asked.week, asked.weekday, day))
}
