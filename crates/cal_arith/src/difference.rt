//! The difference of two dates (ECMAScript Temporal, `NonISODateUntil`).

ghost use Rattle.std.specs.Prelude.{◌≡◌, ◌+◌, ◌-◌, ◌*◌, ◌<◌, ◌≤◌, ◌<ℤ◌, ◌-ℤ◌, unsigned_abs, IsTrue, false, ◌↔◌};
ghost use Rattle.cal_types.specs.CalendarList.{date};
ghost use Rattle.cal_types.specs.Difference.{admits_weeks, largest_unit_of};
ghost use Rattle.cal_types.specs.Until.{IsUntil};
ghost use Rattle.cal_arith.specs.Dates.{date_of, ymd, Belongs};
ghost use Rattle.cal_arith.specs.Directions.{is_backward};
ghost use Rattle.cal_arith.specs.Ticks.{most_ticks};

use crate::dates::{Ymd, to_rata_die};
use crate::direction::Direction;
use crate::months_between::admitted_months;
use crate::steps::Steps;
use crate::years::YearShapes;
use crate::years_between::{admitted_years, month_after_years};
use cal_days::RataDie;
use cal_types::{DateDifferenceOptions, DateDuration, DateDurationUnit, Overflow};
use std::sync::ledger::Ledger;

/// Returns the direction from the first day to the second: backward if the second is earlier, else forward.
fn direction_between(first: RataDie, second: RataDie) -> Direction
    ensures { IsTrue (is_backward result) ↔ (second <ℤ first) }
{
    Direction::from_sign(second < first)
}

/// Returns the number of days between two days, which must be below 4294967296.
fn days_apart(first: RataDie, second: RataDie) -> u32
    requires { unsigned_abs (second -ℤ first) < 4294967296 }
    ensures { result ≡ unsigned_abs (second -ℤ first) }
{
    second.since(first).unsigned_abs() as u32
}

/// Returns the whole weeks in a number of days if weeks are the largest unit, else 0.
fn admitted_weeks(days: u32, unit: DateDurationUnit) -> u32
    ensures weeks { IsTrue (admits_weeks unit) → (7 * result ≤ days) × (days < 7 * result + 7) }
    ensures none { admits_weeks unit ≡ false → result ≡ 0 }
{
    match unit {
        DateDurationUnit::Weeks => days / 7,
        _ => 0,
    }
}

/// Returns the difference from one date to another: years, then months, then weeks, then days. Each unit that the
/// largest unit admits is the greatest number that doesn't surpass the second date.
pub(crate) fn difference<C: YearShapes, L: Ledger>(
    from: Ymd<C::YearInfo>,
    to: Ymd<C::YearInfo>,
    unit: DateDurationUnit,
    cal: &C,
    steps: &mut Steps<L>,
) -> DateDuration
    requires from { Belongs (C.years cal.now) from }
    requires to { Belongs (C.years cal.now) to }
    ensures until { let y = C.years cal.now in
        IsUntil y.list y.offset (date_of y from) (date_of y to) unit result }
    ensures ticks { let y = C.years cal.now in
        steps.new ≤ steps.old + most_ticks unit (unsigned_abs (y.extended to.year -ℤ y.extended from.year)) }
{
    let second = to_rata_die(to, cal);
    let direction = direction_between(to_rata_die(from, cal), second);
    let years = admitted_years(from, to, unit, direction, cal);
    let start = month_after_years(from, to, years, direction, cal, steps);
    let reached = admitted_months(from, to, start, years, unit, direction, cal, steps);
    let length = cal.days_in_provided_month(reached.year, reached.month);
    let base = cal.to_rata_die_inner(reached.year, reached.month, from.day.min(length));
    let left = days_apart(base, second);
    let weeks = admitted_weeks(left, unit);
    DateDuration {
        is_negative: direction.is_backward(),
        years,
        months: reached.months,
        weeks,
        days: left - 7 * weeks,
    }
}

/// Returns the difference of [`crate::ArithmeticDate::until`] between two dates, each a year, an ordinal month and a
/// day. Both must belong to the calendar.
///
/// It looks up at most 8 years; if months are the largest unit, at most 8 and one more for each year between the
/// dates. Each look-up is one tick: [`YearShapes`] offers no uncounted look-up.
pub fn difference_counted<C: YearShapes, L: Ledger>(
    from: (C::YearInfo, u8, u8),
    to: (C::YearInfo, u8, u8),
    calendar: &C,
    options: DateDifferenceOptions,
    steps: &mut Steps<L>,
) -> DateDuration
    requires from { Belongs (C.years calendar.now) (ymd from.0 from.1 from.2) }
    requires to { Belongs (C.years calendar.now) (ymd to.0 to.1 to.2) }
    ensures until { let y = C.years calendar.now in
        IsUntil y.list y.offset (date (y.extended from.0) from.1 from.2) (date (y.extended to.0) to.1 to.2)
        (largest_unit_of options.largest_unit) result }
    ensures ticks { let y = C.years calendar.now in
        steps.new ≤ steps.old + most_ticks (largest_unit_of options.largest_unit)
        (unsigned_abs (y.extended to.0 -ℤ y.extended from.0)) }
{
    let first = Ymd {
        year: from.0,
        month: from.1,
        day: from.2,
    };
    let second = Ymd {
        year: to.0,
        month: to.1,
        day: to.2,
    };
    difference(first, second, largest_unit(options), calendar, steps)
}

/// Returns the largest unit of the options, which is days by default.
pub(crate) fn largest_unit(options: DateDifferenceOptions) -> DateDurationUnit
    ensures { result ≡ largest_unit_of options.largest_unit }
{
    match options.largest_unit {
        Some(unit) => unit,
        None => DateDurationUnit::Days,
    }
}
