//! Holiday rules.

use cal_kinds::AnyCalendarKind;
use cal_types::{Leaping, Month, Weekday};

/// The week in which the weekday of a [`HolidayRule::Span`] lies.
#[derive(Clone, Copy, Debug, PartialEq, Eq)]
pub enum SpanWeek {
    /// The seven days from the day of the month on: the first of the weekday on or after it.
    From,
    /// The seven days up to the day of the month: the last of the weekday on or before it.
    UpTo,
}

/// A rule that names one day in each year of its calendar, or none.
///
/// Every rule that a [`Book`](crate::Book) returns is in the ranges stated here.
#[derive(Clone, Copy, Debug, PartialEq)]
pub enum HolidayRule {
    /// A month and a day of a calendar. Christmas is December 25 of the Gregorian calendar.
    ///
    /// Under [`Leaping::Constrain`], the calendar's stand-in replaces a month that doesn't occur in the year, and the
    /// month's last day replaces a day that doesn't exist (ECMAScript Temporal's overflow `constrain`).
    Fixed {
        /// The calendar.
        calendar: AnyCalendarKind,
        /// The month, which occurs in some year of the calendar.
        month: Month,
        /// The day, from 1 to 31.
        day: u8,
        /// How to handle a year that lacks the month or the day.
        leaping: Leaping,
    },
    /// A number of days after Easter, or before it if the number is negative. Good Friday is 2 days before Easter.
    ///
    /// A Gregorian or Julian year has one Easter, which lies in that year (Reingold and Dershowitz, *Calendrical
    /// Calculations*, chapter 9).
    Easter {
        /// Whether to use Julian Easter, which Orthodox churches keep, instead of Gregorian Easter.
        julian: bool,
        /// The number of days, from -400 to 400.
        offset: i32,
    },
    /// The nth or the last of a weekday in a month of a calendar, such as the fourth Thursday of November.
    ///
    /// In a month without a fifth one, the rule for the fifth names no day.
    Nth {
        /// The calendar.
        calendar: AnyCalendarKind,
        /// The month, which occurs in some year of the calendar.
        month: Month,
        /// The number of the weekday in the month: 1 to 5, or -1 for the last.
        nth: i8,
        /// The weekday.
        weekday: Weekday,
    },
    /// The weekday in the week from a day of a month on, or in the week up to it. The first Sunday of Advent is the
    /// Sunday in the week from November 27 of the Gregorian calendar.
    ///
    /// A year that lacks the month or the day has no such day. If the day found lies in another year than the day of
    /// the month, it counts for the year of the latter.
    Span {
        /// The calendar.
        calendar: AnyCalendarKind,
        /// The month, which occurs in some year of the calendar.
        month: Month,
        /// The day, from 1 to 31.
        day: u8,
        /// Whether the week is that from the day on, or up to it.
        week: SpanWeek,
        /// The weekday.
        weekday: Weekday,
    },
}
