//! The calls on one date as tasks. Each fills in what its caller passes, so nothing is copied on the way.

ghost use Rattle.std.specs.Prelude.{Some, ⊤};
ghost use Rattle.cal_types.specs.Bag.{bag_of};
ghost use Rattle.date_calls.specs.Calls.{AddsIn, DiffersIn, NamesDate, ShowsDay};

use crate::dates::CalendarDate;
use crate::durations::CalendarDuration;
use crate::in_calendar::{add, differ, name, show_day};
use crate::outcomes::CalendarOutcome;
use cal_base::Calendar;
use cal_types::{
    DateAddOptions, DateDifferenceOptions, DateDuration, DateFields, DateFromFieldsOptions,
};
use kind_calls::CalendarTask;

/// The task of converting a day number to a date.
#[derive(Clone, Copy)]
pub(crate) struct Showing {
    pub(crate) day: i64,
}

impl CalendarTask<CalendarDate> for Showing {
    type Answer = u8;

    ghost asks = { λ _ _ _. ⊤ };

    ghost done = { λ t s before now code. ShowsDay s t.day code before now };

    #[inline(never)]
    fn run<C: Calendar + Copy>(&self, date: &mut CalendarDate, calendar: C) -> u8 {
        show_day(&calendar, self.day, date)
    }
}

/// The task of creating a date from fields.
#[derive(Clone, Copy)]
pub(crate) struct Naming<'a> {
    pub(crate) fields: DateFields<'a>,
    pub(crate) options: DateFromFieldsOptions,
}

impl<'a> CalendarTask<CalendarDate> for Naming<'a> {
    type Answer = CalendarOutcome;

    ghost asks = { λ _ _ _. ⊤ };

    ghost done = { λ t s before now it. NamesDate s (bag_of t.fields) t.options it.code it.max before now };

    #[inline(never)]
    fn run<C: Calendar + Copy>(&self, date: &mut CalendarDate, calendar: C) -> CalendarOutcome {
        name(&calendar, self.fields, self.options, date)
    }
}

/// The task of adding a duration to a day number.
#[derive(Clone, Copy)]
pub(crate) struct Adding {
    pub(crate) day: i64,
    pub(crate) duration: DateDuration,
    pub(crate) options: DateAddOptions,
}

impl CalendarTask<CalendarDate> for Adding {
    type Answer = CalendarOutcome;

    ghost asks = { λ _ _ _. ⊤ };

    ghost done = { λ t s before now it.
        AddsIn s (Some t.options.overflow) t.day t.duration it.code it.max before now };

    #[inline(never)]
    fn run<C: Calendar + Copy>(&self, date: &mut CalendarDate, calendar: C) -> CalendarOutcome {
        add(&calendar, self.day, self.duration, self.options, date)
    }
}

/// The task of comparing two day numbers.
#[derive(Clone, Copy)]
pub(crate) struct Comparing {
    pub(crate) first: i64,
    pub(crate) second: i64,
    pub(crate) options: DateDifferenceOptions,
}

impl CalendarTask<CalendarDuration> for Comparing {
    type Answer = u8;

    ghost asks = { λ _ _ _. ⊤ };

    ghost done = { λ t s before now code.
        DiffersIn s (Some t.options.largest_unit) t.first t.second code before now };

    #[inline(never)]
    fn run<C: Calendar + Copy>(&self, duration: &mut CalendarDuration, calendar: C) -> u8 {
        differ(&calendar, self.first, self.second, self.options, duration)
    }
}
