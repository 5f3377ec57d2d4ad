//! Sums and differences of dates.

ghost use Rattle.std.specs.Prelude.{◌≡◌};
ghost use Rattle.date_calls.specs.Durations.{duration_given, duration_told};

use crate::dates::{CalendarDate, parts_of};
use crate::days::ValidDay;
use crate::questions::Question;
use cal_base::Calendar;
use cal_types::{DateAddError, DateAddOptions, DateDifferenceOptions, DateDuration};

/// A signed duration. Its parts have no sign.
#[repr(C)]
#[derive(Clone, Copy, Debug, PartialEq, Eq, Drop)]
pub struct CalendarDuration {
    /// The number of years.
    pub years: u32,
    /// The number of months.
    pub months: u32,
    /// The number of weeks.
    pub weeks: u32,
    /// The number of days.
    pub days: u32,
    /// Not 0 if the duration leads back in time.
    pub is_negative: u8,
}

/// Returns the duration that a caller passes.
pub(crate) fn duration_of(given: &CalendarDuration) -> DateDuration
    ensures { result ≡ duration_given given.now }
{
    DateDuration {
        is_negative: given.is_negative != 0,
        years: given.years,
        months: given.months,
        weeks: given.weeks,
        days: given.days,
    }
}

/// Returns the duration in the form that a caller receives.
pub(crate) fn told(duration: DateDuration) -> CalendarDuration
    ensures { result ≡ duration_told duration }
{
    CalendarDuration {
        years: duration.years,
        months: duration.months,
        weeks: duration.weeks,
        days: duration.days,
        is_negative: u8::from(duration.is_negative),
    }
}

/// The task of adding a duration to a day number.
#[derive(Clone, Copy)]
pub(crate) struct Sum {
    pub(crate) day: ValidDay,
    pub(crate) duration: DateDuration,
    pub(crate) options: DateAddOptions,
}

impl Question for Sum {
    ghost use Rattle.cal_types.specs.Adding.{add_overflow_of};
    ghost use Rattle.date_calls.specs.Durations.{IsAdded};

    type Answer = Result<CalendarDate, DateAddError>;

    ghost answers = { λ q s answer. IsAdded s q.day.day q.duration (add_overflow_of q.options.overflow) answer };

    fn ask<C: Calendar>(&self, calendar: &C) -> Result<CalendarDate, DateAddError>
        ensures { let overflow = add_overflow_of self.now.options.overflow in
            IsAdded (C.system calendar.now) self.now.day.day self.now.duration overflow result }
    {
        let date = calendar.from_rata_die(self.day.rata_die());
        match calendar.add(&date, self.duration, self.options) {
            Ok(sum) => Ok(parts_of(calendar, &sum)),
            Err(cause) => Err(cause),
        }
    }
}

/// The task of computing a difference.
#[derive(Clone, Copy)]
pub(crate) struct Difference {
    pub(crate) from: ValidDay,
    pub(crate) to: ValidDay,
    pub(crate) options: DateDifferenceOptions,
}

impl Question for Difference {
    ghost use Rattle.cal_types.specs.Difference.{largest_unit_of};
    ghost use Rattle.date_calls.specs.Durations.{IsApart};

    type Answer = DateDuration;

    ghost answers = { λ q s duration.
        IsApart s q.from.day q.to.day (largest_unit_of q.options.largest_unit) duration };

    fn ask<C: Calendar>(&self, calendar: &C) -> DateDuration
        ensures { let unit = largest_unit_of self.now.options.largest_unit in
            IsApart (C.system calendar.now) self.now.from.day self.now.to.day unit result }
    {
        let from = calendar.from_rata_die(self.from.rata_die());
        let to = calendar.from_rata_die(self.to.rata_die());
        calendar.until(&from, &to, self.options)
    }
}
