//! The calls on one date, at the places of columns.

ghost use Rattle.std.specs.Prelude.{◌≡◌, length};
ghost use Rattle.date_calls.specs.ColumnCalls.{AddsAt, AddsEachAt, DiffersAt, NamesAt, ShowsDayAt};

use crate::columns::ColumnCall;
use crate::dates::CalendarDate;
use crate::durations::{CalendarDuration, duration_of};
use crate::fields::{CalendarFields, fields_of};
use crate::in_calendar::{add, differ, name, show_day};
use crate::outcomes::CalendarOutcome;
use cal_base::Calendar;
use cal_types::{DateAddOptions, DateDifferenceOptions, DateDuration, DateFromFieldsOptions};

/// A column of day numbers to convert.
#[derive(Drop)]
pub(crate) struct DaysToShow<'a> {
    pub(crate) days: &'a [i64],
}

impl<'a> ColumnCall<CalendarDate, u8> for DaysToShow<'a> {
    ghost places = { λ q. length q.days.now };

    ghost single = { λ q s k code before now. ShowsDayAt s q.days.now k code before now };

    fn count(&self) -> usize {
        self.days.len()
    }

    fn call_at<C: Calendar>(&self, calendar: &C, place: usize, date: &mut CalendarDate) -> u8 {
        show_day(calendar, self.days[place], date)
    }
}

/// Two columns of day numbers to compare.
#[derive(Drop)]
pub(crate) struct DaysToCompare<'a> {
    pub(crate) first: &'a [i64],
    pub(crate) second: &'a [i64],
    pub(crate) options: DateDifferenceOptions,
    ghost same: { length second.now ≡ length first.now },
}

impl<'a> ColumnCall<CalendarDuration, u8> for DaysToCompare<'a> {
    ghost places = { λ q. length q.first.now };

    ghost single = { λ q s k code before now.
        DiffersAt s q.options.largest_unit q.first.now q.second.now k code before now };

    fn count(&self) -> usize {
        self.first.len()
    }

    fn call_at<C: Calendar>(
        &self,
        calendar: &C,
        place: usize,
        duration: &mut CalendarDuration,
    ) -> u8 {
        differ(
            calendar,
            self.first[place],
            self.second[place],
            self.options,
            duration,
        )
    }
}

/// A column of day numbers, and a duration to add to each.
#[derive(Drop)]
pub(crate) struct DaysToMove<'a> {
    pub(crate) days: &'a [i64],
    pub(crate) duration: DateDuration,
    pub(crate) options: DateAddOptions,
}

impl<'a> ColumnCall<CalendarDate, CalendarOutcome> for DaysToMove<'a> {
    ghost places = { λ q. length q.days.now };

    ghost single = { λ q s k outcome before now.
        AddsAt s q.options.overflow q.days.now q.duration k outcome before now };

    fn count(&self) -> usize {
        self.days.len()
    }

    fn call_at<C: Calendar>(
        &self,
        calendar: &C,
        place: usize,
        date: &mut CalendarDate,
    ) -> CalendarOutcome {
        add(
            calendar,
            self.days[place],
            self.duration,
            self.options,
            date,
        )
    }
}

/// A column of day numbers, and a duration for each.
#[derive(Drop)]
pub(crate) struct DaysToMoveEach<'a> {
    pub(crate) days: &'a [i64],
    pub(crate) durations: &'a [CalendarDuration],
    pub(crate) options: DateAddOptions,
    ghost same: { length durations.now ≡ length days.now },
}

impl<'a> ColumnCall<CalendarDate, CalendarOutcome> for DaysToMoveEach<'a> {
    ghost places = { λ q. length q.days.now };

    ghost single = { λ q s k outcome before now.
        AddsEachAt s q.options.overflow q.days.now q.durations.now k outcome before now };

    fn count(&self) -> usize {
        self.days.len()
    }

    fn call_at<C: Calendar>(
        &self,
        calendar: &C,
        place: usize,
        date: &mut CalendarDate,
    ) -> CalendarOutcome {
        let duration = duration_of(&self.durations[place]);
        add(calendar, self.days[place], duration, self.options, date)
    }
}

/// A column of fields, with an era and a month code for all of them.
#[derive(Drop)]
pub(crate) struct FieldsToName<'a> {
    pub(crate) fields: &'a [CalendarFields],
    pub(crate) era: &'a [u8],
    pub(crate) month_code: &'a [u8],
    pub(crate) options: DateFromFieldsOptions,
}

impl<'a> ColumnCall<CalendarDate, CalendarOutcome> for FieldsToName<'a> {
    ghost places = { λ q. length q.fields.now };

    ghost single = { λ q s k outcome before now.
        NamesAt s q.fields.now q.era.now q.month_code.now q.options k outcome before now };

    fn count(&self) -> usize {
        self.fields.len()
    }

    fn call_at<C: Calendar>(
        &self,
        calendar: &C,
        place: usize,
        date: &mut CalendarDate,
    ) -> CalendarOutcome {
        let fields = fields_of(&self.fields[place], self.era, self.month_code);
        name(calendar, fields, self.options, date)
    }
}
