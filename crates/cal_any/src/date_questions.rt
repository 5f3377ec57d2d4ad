//! Questions to a calendar about one of its dates.
//!
//! [`ask`](crate::any_calendar) matches on the calendar once for all questions. Each question is one function over
//! any calendar.

ghost use Rattle.std.specs.Prelude.{◌≡◌, ◌↔◌, pos, ◌+ℤ◌, IsTrue};
ghost use Rattle.cal_types.specs.MonthInfoParts.{month_info_parts};
ghost use Rattle.cal_types.specs.CalendarList.{Date, day_number, month_count, month_length, start_of_year, year_length};
ghost use Rattle.cal_types.specs.CalendarSystem.{CalendarSystem, month_info_of};

use cal_base::Calendar;
use cal_days::RataDie;
use cal_types::{DayOfMonth, DayOfYear, IntoYearInfo, MonthInfo, YearInfo};

/// A question to a calendar about one of its dates.
pub(crate) trait DateQuestion {
    /// The type of the answer.
    type Answer;

    /// The relation of an answer to the date and its calendar.
    ghost answers: { CalendarSystem → Date → Self.Answer → Type 0 };

    /// Asks a calendar the question about one of its dates.
    fn ask<C: Calendar>(&self, calendar: &C, date: &C::DateInner) -> Self::Answer
        requires { IsTrue (C.belongs calendar.now date.now) }
        ensures { answers (C.system calendar.now) (C.date_of calendar.now date.now) result };
}

/// [`Calendar::to_rata_die`].
pub(crate) struct DayNumber;

impl DateQuestion for DayNumber {
    type Answer = RataDie;

    ghost answers = { λ s t answer. answer ≡ day_number s.list t };

    fn ask<C: Calendar>(&self, calendar: &C, date: &C::DateInner) -> RataDie {
        calendar.to_rata_die(date)
    }
}

/// [`Calendar::months_in_year`].
pub(crate) struct MonthsInYear;

impl DateQuestion for MonthsInYear {
    type Answer = u8;

    ghost answers = { λ s t answer. answer ≡ month_count s.list t.year };

    fn ask<C: Calendar>(&self, calendar: &C, date: &C::DateInner) -> u8 {
        calendar.months_in_year(date)
    }
}

/// [`Calendar::days_in_year`].
pub(crate) struct DaysInYear;

impl DateQuestion for DaysInYear {
    type Answer = u16;

    ghost answers = { λ s t answer. answer ≡ year_length s.list t.year };

    fn ask<C: Calendar>(&self, calendar: &C, date: &C::DateInner) -> u16 {
        calendar.days_in_year(date)
    }
}

/// [`Calendar::days_in_month`].
pub(crate) struct DaysInMonth;

impl DateQuestion for DaysInMonth {
    type Answer = u8;

    ghost answers = { λ s t answer. answer ≡ month_length s.list t.year t.month };

    fn ask<C: Calendar>(&self, calendar: &C, date: &C::DateInner) -> u8 {
        calendar.days_in_month(date)
    }
}

/// [`Calendar::is_in_leap_year`].
pub(crate) struct IsInLeapYear;

impl DateQuestion for IsInLeapYear {
    type Answer = bool;

    ghost answers = { λ s t answer. IsTrue answer ↔ IsTrue (s.is_leap_year t.year) };

    fn ask<C: Calendar>(&self, calendar: &C, date: &C::DateInner) -> bool {
        calendar.is_in_leap_year(date)
    }
}

/// [`Calendar::year_info`], as era or cycle.
pub(crate) struct NamedYear;

impl DateQuestion for NamedYear {
    type Answer = YearInfo;

    ghost answers = { λ s t answer. answer ≡ s.year_info t };

    fn ask<C: Calendar>(&self, calendar: &C, date: &C::DateInner) -> YearInfo {
        calendar.year_info(date).into_year_info()
    }
}

/// [`Calendar::extended_year`].
pub(crate) struct ExtendedYear;

impl DateQuestion for ExtendedYear {
    type Answer = i32;

    ghost answers = { λ _ t answer. answer ≡ t.year };

    fn ask<C: Calendar>(&self, calendar: &C, date: &C::DateInner) -> i32 {
        calendar.extended_year(date)
    }
}

/// [`Calendar::month`].
pub(crate) struct NamedMonth;

impl DateQuestion for NamedMonth {
    type Answer = MonthInfo;

    ghost answers = { λ s t answer. month_info_parts answer ≡ month_info_of s t };

    fn ask<C: Calendar>(&self, calendar: &C, date: &C::DateInner) -> MonthInfo {
        calendar.month(date)
    }
}

/// [`Calendar::day_of_month`].
pub(crate) struct DayInMonth;

impl DateQuestion for DayInMonth {
    type Answer = DayOfMonth;

    ghost answers = { λ _ t answer. answer.0 ≡ t.day };

    fn ask<C: Calendar>(&self, calendar: &C, date: &C::DateInner) -> DayOfMonth {
        calendar.day_of_month(date)
    }
}

/// [`Calendar::day_of_year`].
pub(crate) struct DayInYear;

impl DateQuestion for DayInYear {
    type Answer = DayOfYear;

    ghost answers = { λ s t answer. start_of_year s.list t.year +ℤ pos answer.0 ≡ day_number s.list t +ℤ pos 1 };

    fn ask<C: Calendar>(&self, calendar: &C, date: &C::DateInner) -> DayOfYear {
        calendar.day_of_year(date)
    }
}
