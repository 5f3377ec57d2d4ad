//! The operations, repeated over days of some centuries.

ghost use Rattle.std.specs.Prelude.{◌≡◌};
ghost use Rattle.cal_days.specs.Day.{IsValidDay};
ghost use Rattle.cal_types.specs.CalendarList.{IsOn};

use crate::days::{day_of_turn, far_after, far_before, other_day, published_day_of_turn};
use crate::lists::{
    sum_of_anniversaries, sum_of_first_indices, sum_of_occurrences, sum_of_published_anniversaries,
};
use crate::words::Operation;
use cal_base::{AsCalendar, Calendar};
use cal_days::RataDie;
use cal_types::{DateAddOptions, DateDifferenceOptions, DateDuration, DateDurationUnit, Overflow};
use icu_calendar::Date;

const CONSTRAIN: DateAddOptions = DateAddOptions {
    overflow: Some(Overflow::Constrain),
};

/// Plain ISO date texts.
const TEXTS: [&[u8]; 4] = [b"1643-01-05", b"1992-09-02", b"2024-02-29", b"2465-12-31"];

/// The months of nearly two million years.
const FAR_MONTHS: i32 = 23400000;

/// Returns the date of a valid day.
fn date_on<A: AsCalendar + Copy>(day: i64, calendar: A) -> Date<A>
where
    A::Calendar: Calendar,
    requires { IsValidDay day }
    ensures on { let c = A.cal_of calendar in
        IsOn (A.Calendar.system c).list day (A.Calendar.date_of c result.inner) }
    ensures calendar { result.calendar ≡ calendar }
{
    Date::from_rata_die(RataDie::new(day), calendar)
}

/// Returns the day number, from the date that it was turned into.
fn day_and_back<A: AsCalendar + Copy>(day: i64, calendar: A) -> i64
where
    A::Calendar: Calendar,
    requires { IsValidDay day }
    ensures { result ≡ day }
{
    date_on(day, calendar).to_rata_die().to_i64_date()
}

/// Returns the day number of a date with a duration added, and 0 where there is no such date.
// Inlined as `date_on` is, so that both loops begin alike.
#[inline(always)]
fn day_of_sum<A: AsCalendar + Copy>(day: i64, duration: DateDuration, calendar: A) -> i64
where
    A::Calendar: Calendar,
    requires { IsValidDay day }
{
    match date_on(day, calendar).try_added_with_options(duration, CONSTRAIN) {
        Ok(sum) => sum.to_rata_die().to_i64_date(),
        Err(_) => 0,
    }
}

/// Returns the sum of the parts of the difference of the dates of two days, and 0 where there is no difference.
fn parts_between<A: AsCalendar + Copy>(
    from: i64,
    to: i64,
    largest_unit: DateDurationUnit,
    calendar: A,
) -> i64
where
    A::Calendar: Calendar,
    requires from { IsValidDay from }
    requires to { IsValidDay to }
{
    let options = DateDifferenceOptions {
        largest_unit: Some(largest_unit),
    };
    match date_on(from, calendar).try_until_with_options(&date_on(to, calendar), options) {
        Ok(between) => {
            i64::from(between.years) + i64::from(between.months) + i64::from(between.days)
        }
        Err(_) => 0,
    }
}

/// Returns the sum of the days of the month of the dates of two days.
fn days_of_both<A: AsCalendar + Copy>(first: i64, second: i64, calendar: A) -> i64
where
    A::Calendar: Calendar,
    requires first { IsValidDay first }
    requires second { IsValidDay second }
{
    let first = date_on(first, calendar).day_of_month().0;
    let second = date_on(second, calendar).day_of_month().0;
    i64::from(first) + i64::from(second)
}

/// Returns the day number of the date that a text names, and 0 where it names none.
fn day_of_text<A: AsCalendar + Copy>(turn_day: u64, calendar: A) -> i64
where
    A::Calendar: Calendar,
{
    match Date::try_from_utf8(TEXTS[(turn_day % 4) as usize], calendar) {
        Ok(date) => date.to_rata_die().to_i64_date(),
        Err(_) => 0,
    }
}

/// The sum of the results of an operation on the days of the first turns, in a loop of its own.
macro_rules! sum_of {
    ($turns:ident, $turn_day:ident => $result:expr) => {{
        let mut sum = 0i64;
        for turn in 0..$turns {
            let $turn_day = day_of_turn(turn);
            sum = sum.wrapping_add($result);
        }
        sum
    }};
}

/// Returns the sum of the results of adding a duration.
fn sum_of_sums<A: AsCalendar + Copy>(turns: u32, duration: DateDuration, calendar: A) -> i64
where
    A::Calendar: Calendar,
{
    sum_of!(turns, day => day_of_sum(day as i64, duration, calendar))
}

/// Returns the sum of the day numbers of the first turns in published years, each from the date that it was turned
/// into.
fn sum_of_published_days<A: AsCalendar + Copy>(turns: u32, calendar: A) -> i64
where
    A::Calendar: Calendar,
{
    let mut sum = 0i64;
    for turn in 0..turns {
        let day = published_day_of_turn(turn);
        sum = sum.wrapping_add(day_and_back(day as i64, calendar));
    }
    sum
}

/// Returns the sum of the results of an operation on the days of the first turns.
pub fn measure<A: AsCalendar + Copy>(operation: Operation, turns: u32, calendar: A) -> i64
where
    A::Calendar: Calendar + Copy,
{
    match operation {
        Operation::Day => sum_of!(turns, day => day_and_back(day as i64, calendar)),
        Operation::AddYear => sum_of_sums(turns, DateDuration::for_years(1), calendar),
        Operation::AddMonth => sum_of_sums(turns, DateDuration::for_months(1), calendar),
        Operation::AddDay => sum_of_sums(turns, DateDuration::for_days(1), calendar),
        Operation::AddMonthsOfAYear => sum_of_sums(turns, DateDuration::for_months(12), calendar),
        Operation::AddFarMonths => {
            let months = DateDuration::for_months(FAR_MONTHS);
            sum_of!(turns, day => day_of_sum(far_before(day), months, calendar))
        }
        Operation::Pair => {
            sum_of!(turns, day => days_of_both(other_day(day), day as i64, calendar))
        }
        Operation::Difference => sum_of!(turns, day =>
            parts_between(other_day(day), day as i64, DateDurationUnit::Years, calendar)),
        Operation::MonthsOverAYear => sum_of!(turns, day =>
            parts_between(day as i64, day as i64 + 366, DateDurationUnit::Months, calendar)),
        Operation::FarMonths => sum_of!(turns, day =>
            parts_between(far_before(day), far_after(day), DateDurationUnit::Months, calendar)),
        Operation::Text => sum_of!(turns, day => day_of_text(day, calendar)),
        Operation::PublishedDay => sum_of_published_days(turns, calendar),
        Operation::Anniversary => sum_of_anniversaries(turns, *calendar.as_calendar()),
        Operation::PublishedAnniversary => {
            sum_of_published_anniversaries(turns, *calendar.as_calendar())
        }
        Operation::Occurrence => sum_of_occurrences(turns, *calendar.as_calendar()),
        Operation::FirstIndex => sum_of_first_indices(turns, *calendar.as_calendar()),
    }
}
