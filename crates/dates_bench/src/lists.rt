//! The lists, repeated: anniversaries one after another, and recurrences by their indices.

ghost use Rattle.std.specs.Prelude.{◌≡◌, ◌<◌};
ghost use Rattle.cal_days.specs.Day.{IsValidDay};

use crate::days::{day_of_turn, far_after, far_before};
use cal_anniversary::{Anniversaries, anniversaries};
use cal_arith::Steps;
use cal_base::Calendar;
use cal_days::RataDie;
use cal_recur::{Missing, Rule, first_index_counted, occurrence_counted};
use cal_types::{DateDurationUnit, Leaping, Month, Window};
use std::marker::Brand;
use std::sync::ledger::{Blank, Ledger};

/// Returns the first month's first day of each year, in the days from a first to a last one.
fn first_days<C: Calendar + Copy>(first: i64, last: i64, calendar: C) -> Option<Anniversaries<C>>
    requires first { IsValidDay first }
    requires last { IsValidDay last }
{
    let window = Window::try_new(RataDie::new(first), RataDie::new(last))?;
    match anniversaries(calendar, Month::new(1), 1, Leaping::Exact, window) {
        Ok(list) => Some(list),
        Err(_) => None,
    }
}

/// Returns the sum of the days that a list of first days gives in so many turns. The turn that finds the list's end
/// begins it again.
fn sum_of_first_days<C: Calendar + Copy>(turns: u32, first: i64, last: i64, calendar: C) -> i64
    requires first { IsValidDay first }
    requires last { IsValidDay last }
{
    let mut sum = 0i64;
    let Some(mut list) = first_days(first, last, calendar) else {
        return sum;
    };
    for _ in 0..turns {
        match list.next() {
            Some(day) => sum = sum.wrapping_add(day.to_i64_date()),
            None => match first_days(first, last, calendar) {
                Some(again) => list = again,
                None => return sum,
            },
        }
    }
    sum
}

/// Returns the sum of the first days of the years from 1643 to 2465, listed again and again.
pub(crate) fn sum_of_anniversaries<C: Calendar + Copy>(turns: u32, calendar: C) -> i64 {
    sum_of_first_days(turns, 600000, 899999, calendar)
}

/// Returns the sum of the first days of published years, from May 1912 to December 2097, listed again and again.
pub(crate) fn sum_of_published_anniversaries<C: Calendar + Copy>(turns: u32, calendar: C) -> i64 {
    sum_of_first_days(turns, 698100, 765899, calendar)
}

/// Returns the day of an occurrence of a rule from a day on, with an index below 1024 that changes with the day, and 0
/// where there is none.
fn day_of_occurrence<C: Calendar, L: Ledger>(
    day: u64,
    rule: Rule,
    calendar: &C,
    steps: &mut Steps<L>,
) -> i64
    requires { day < 900000 }
{
    let start = calendar.from_rata_die(RataDie::new(day as i64));
    match occurrence_counted(calendar, &start, rule, (day % 1024) as u32, steps) {
        Some(found) => found.to_i64_date(),
        None => 0,
    }
}

/// Returns the first index that isn't before a day, of a rule from a day nearly two million years earlier on, and 0
/// where there is none.
fn first_index_after<C: Calendar, L: Ledger>(
    day: u64,
    rule: Rule,
    calendar: &C,
    steps: &mut Steps<L>,
) -> i64
    requires { day < 900000 }
{
    let start = calendar.from_rata_die(RataDie::new(far_before(day)));
    match first_index_counted(calendar, &start, rule, RataDie::new(far_after(day)), steps) {
        Some(index) => i64::from(index),
        None => 0,
    }
}

/// Returns the sum of the days of an occurrence of every month from the day of each turn on, by a counter that nobody
/// reads.
fn sum_of_days_with<C: Calendar + Copy, L: Ledger>(turns: u32, calendar: C, blank: Blank) -> i64
    requires name { blank.name ≡ L.name }
    requires parts { blank.parts ≡ L.parts }
    requires some { 0 < blank.parts }
{
    let mut sum = 0i64;
    let mut steps = Steps::<L>::new(blank);
    let Some(rule) = Rule::try_new(DateDurationUnit::Months, 1, Missing::Constrain) else {
        return sum;
    };
    for turn in 0..turns {
        let day = day_of_turn(turn);
        sum = sum.wrapping_add(day_of_occurrence(day, rule, &calendar, &mut steps));
    }
    sum
}

/// Returns the sum of the first indices of every month, one of each turn, by a counter that nobody reads.
fn sum_of_indices_with<C: Calendar + Copy, L: Ledger>(turns: u32, calendar: C, blank: Blank) -> i64
    requires name { blank.name ≡ L.name }
    requires parts { blank.parts ≡ L.parts }
    requires some { 0 < blank.parts }
{
    let mut sum = 0i64;
    let mut steps = Steps::<L>::new(blank);
    let Some(rule) = Rule::try_new(DateDurationUnit::Months, 1, Missing::Constrain) else {
        return sum;
    };
    for turn in 0..turns {
        let day = day_of_turn(turn);
        sum = sum.wrapping_add(first_index_after(day, rule, &calendar, &mut steps));
    }
    sum
}

/// Returns the sum of the days of an occurrence of every month from the day of each turn on.
pub(crate) fn sum_of_occurrences<C: Calendar + Copy>(turns: u32, calendar: C) -> i64 {
    sum_of_days_with::<C, Brand>(turns, calendar, Blank::new(1))
}

/// Returns the sum of the first indices of every month, from a start nearly two million years before a day, one of each
/// turn.
pub(crate) fn sum_of_first_indices<C: Calendar + Copy>(turns: u32, calendar: C) -> i64 {
    sum_of_indices_with::<C, Brand>(turns, calendar, Blank::new(1))
}
