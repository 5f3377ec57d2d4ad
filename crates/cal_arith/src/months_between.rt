//! The months of a difference, counted after its years, and the month that is reached.

ghost use Rattle.std.specs.Prelude.{◌≡◌, ◌≤◌, ◌+◌, ◌+ℤ◌, ◌-ℤ◌, ◌≤ℤ◌, pos, unsigned_abs, IsTrue, false};
ghost use Rattle.cal_days.specs.Day.{IsFieldYear};
ghost use Rattle.cal_types.specs.CalendarList.{month_number};
ghost use Rattle.cal_types.specs.Difference.{toward, IsBeyond, MonthsSurpass, Reaches, IsGreatest, IsGreatestIf, admits_months};
ghost use Rattle.cal_types.proofs.DifferenceLemmas.{IsMonthOrder};
ghost use Rattle.cal_arith.specs.Counting.{IsYearsFrom};
ghost use Rattle.cal_arith.specs.Given.{HasMonth, IsGiven};
ghost use Rattle.cal_arith.specs.Dates.{date_of, IsGivenDate};
ghost use Rattle.cal_arith.specs.Directions.{is_backward};

use crate::dates::Ymd;
use crate::direction::Direction;
use crate::given_years::given_year_counted;
use crate::months::{YearMonth, months_between_counted};
use crate::past::is_past_day;
use crate::steps::Steps;
use crate::years::YearShapes;
use cal_types::DateDurationUnit;
use std::sync::ledger::Ledger;

/// A number of months, and the month that is reached by counting them.
#[derive(Clone, Copy, Debug)]
pub struct MonthsReached<Y> {
    /// The number of months.
    pub months: u32,
    /// The year of the month that is reached.
    pub year: Y,
    /// The ordinal month that is reached, from 1.
    pub month: u8,
}

/// Returns the number of months from one month to another, which must not be earlier. It adds at most one tick for
/// each year between them.
fn months_apart<C: YearShapes, L: Ledger>(
    first: YearMonth<C::YearInfo>,
    last: YearMonth<C::YearInfo>,
    cal: &C,
    steps: &mut Steps<L>,
) -> u32
    requires first_range { IsFieldYear ((C.years cal.now).extended first.year) }
    requires first { HasMonth (C.years cal.now) first.year first.month }
    requires last_range { IsFieldYear ((C.years cal.now).extended last.year) }
    requires last { HasMonth (C.years cal.now) last.year last.month }
    requires order { let y = C.years cal.now in
        month_number y.list (y.extended first.year) first.month
        ≤ℤ month_number y.list (y.extended last.year) last.month }
    ensures count { let y = C.years cal.now in
        month_number y.list (y.extended last.year) last.month
        ≡ month_number y.list (y.extended first.year) first.month +ℤ pos result }
    ensures ticks { let y = C.years cal.now in
        steps.new ≤ steps.old + unsigned_abs (y.extended last.year -ℤ y.extended first.year) }
{
    let between = months_between_counted(first.year, last.year, cal, steps);
    between + u32::from(last.month) - u32::from(first.month)
}

/// Returns the number of months from one month to another in the direction of counting. The second must not be before
/// the first in that direction.
fn months_toward<C: YearShapes, L: Ledger>(
    start: YearMonth<C::YearInfo>,
    end: YearMonth<C::YearInfo>,
    direction: Direction,
    cal: &C,
    steps: &mut Steps<L>,
) -> u32
    requires start_range { IsFieldYear ((C.years cal.now).extended start.year) }
    requires start { HasMonth (C.years cal.now) start.year start.month }
    requires end_range { IsFieldYear ((C.years cal.now).extended end.year) }
    requires end { HasMonth (C.years cal.now) end.year end.month }
    requires order { let y = C.years cal.now in
        IsMonthOrder y.list (is_backward direction) (y.extended start.year) start.month
        (y.extended end.year) end.month }
    ensures count { let y = C.years cal.now in
        month_number y.list (y.extended end.year) end.month
        ≡ month_number y.list (y.extended start.year) start.month +ℤ toward (is_backward direction) result }
    ensures ticks { let y = C.years cal.now in
        steps.new ≤ steps.old + unsigned_abs (y.extended end.year -ℤ y.extended start.year) }
{
    match direction {
        Direction::Forward => months_apart(start, end, cal, steps),
        Direction::Backward => months_apart(end, start, cal, steps),
    }
}

/// Returns the month after a month. It adds at most one tick.
fn next_month<C: YearShapes, L: Ledger>(
    here: YearMonth<C::YearInfo>,
    cal: &C,
    steps: &mut Steps<L>,
) -> YearMonth<C::YearInfo>
    requires range { IsFieldYear ((C.years cal.now).extended here.year) }
    requires month { HasMonth (C.years cal.now) here.year here.month }
    ensures month { HasMonth (C.years cal.now) result.year result.month }
    ensures next { let y = C.years cal.now in
        month_number y.list (y.extended result.year) result.month
        ≡ month_number y.list (y.extended here.year) here.month +ℤ pos 1 }
    ensures ticks { steps.new ≤ steps.old + 1 }
{
    if here.month < cal.months_in_provided_year(here.year) {
        return YearMonth {
            year: here.year,
            month: here.month + 1,
        };
    }
    YearMonth {
        year: given_year_counted(cal.extended_from_year_info(here.year) + 1, cal, steps),
        month: 1,
    }
}

/// Returns the month before a month. It adds at most one tick.
fn previous_month<C: YearShapes, L: Ledger>(
    here: YearMonth<C::YearInfo>,
    cal: &C,
    steps: &mut Steps<L>,
) -> YearMonth<C::YearInfo>
    requires range { IsFieldYear ((C.years cal.now).extended here.year) }
    requires month { HasMonth (C.years cal.now) here.year here.month }
    ensures month { HasMonth (C.years cal.now) result.year result.month }
    ensures next { let y = C.years cal.now in
        month_number y.list (y.extended here.year) here.month
        ≡ month_number y.list (y.extended result.year) result.month +ℤ pos 1 }
    ensures ticks { steps.new ≤ steps.old + 1 }
{
    if here.month > 1 {
        return YearMonth {
            year: here.year,
            month: here.month - 1,
        };
    }
    let year = given_year_counted(cal.extended_from_year_info(here.year) - 1, cal, steps);
    YearMonth {
        year,
        month: cal.months_in_provided_year(year),
    }
}

/// Returns the month that is one month before `here` in the direction of counting. It adds at most one tick.
fn month_short_of<C: YearShapes, L: Ledger>(
    here: YearMonth<C::YearInfo>,
    direction: Direction,
    cal: &C,
    steps: &mut Steps<L>,
) -> YearMonth<C::YearInfo>
    requires range { IsFieldYear ((C.years cal.now).extended here.year) }
    requires month { HasMonth (C.years cal.now) here.year here.month }
    ensures month { HasMonth (C.years cal.now) result.year result.month }
    ensures next { let y = C.years cal.now in
        month_number y.list (y.extended here.year) here.month
        ≡ month_number y.list (y.extended result.year) result.month +ℤ toward (is_backward direction) 1 }
    ensures ticks { steps.new ≤ steps.old + 1 }
{
    match direction {
        Direction::Forward => previous_month(here, cal, steps),
        Direction::Backward => next_month(here, cal, steps),
    }
}

/// Returns the greatest number of months, counted after the years, that doesn't surpass the second date. It also
/// returns the month that is reached. `start` is the month that is reached by the years.
fn months_between<C: YearShapes, L: Ledger>(
    from: Ymd<C::YearInfo>,
    to: Ymd<C::YearInfo>,
    start: YearMonth<C::YearInfo>,
    years: u32,
    direction: Direction,
    cal: &C,
    steps: &mut Steps<L>,
) -> MonthsReached<C::YearInfo>
    requires to_range { IsFieldYear ((C.years cal.now).extended to.year) }
    requires to { IsGivenDate (C.years cal.now) to }
    requires start { IsYearsFrom (C.years cal.now) from (is_backward direction) years start }
    requires within { let y = C.years cal.now in
        ¬ IsBeyond (is_backward direction) (y.extended start.year, start.month, from.day)
        (y.extended to.year, to.month, to.day) }
    ensures greatest { let y = C.years cal.now in
        IsGreatest (MonthsSurpass y.list (date_of y from) (date_of y to) (is_backward direction) years) result.months }
    ensures year { IsGiven (C.years cal.now) result.year }
    ensures reaches { let y = C.years cal.now in
        Reaches y.list (date_of y from) (is_backward direction) years result.months
        (y.extended result.year) result.month }
    ensures ticks { let y = C.years cal.now in
        steps.new ≤ steps.old + unsigned_abs (y.extended to.year -ℤ y.extended start.year) + 1 }
{
    let end = YearMonth {
        year: to.year,
        month: to.month,
    };
    let count = months_toward(start, end, direction, cal, steps);
    if is_past_day(direction, from.day, to.day) {
        let short = month_short_of(end, direction, cal, steps);
        return MonthsReached {
            months: count - 1,
            year: short.year,
            month: short.month,
        };
    }
    MonthsReached {
        months: count,
        year: to.year,
        month: to.month,
    }
}

/// Returns the number of months of a difference, and the month that is reached. The number is 0 unless the largest
/// unit is years or months: then it is the greatest that doesn't surpass the second date.
pub(crate) fn admitted_months<C: YearShapes, L: Ledger>(
    from: Ymd<C::YearInfo>,
    to: Ymd<C::YearInfo>,
    start: YearMonth<C::YearInfo>,
    years: u32,
    unit: DateDurationUnit,
    direction: Direction,
    cal: &C,
    steps: &mut Steps<L>,
) -> MonthsReached<C::YearInfo>
    requires to_range { IsFieldYear ((C.years cal.now).extended to.year) }
    requires to { IsGivenDate (C.years cal.now) to }
    requires start { IsYearsFrom (C.years cal.now) from (is_backward direction) years start }
    requires within { let y = C.years cal.now in
        ¬ IsBeyond (is_backward direction) (y.extended start.year, start.month, from.day)
        (y.extended to.year, to.month, to.day) }
    ensures greatest { let y = C.years cal.now in
        IsGreatestIf (admits_months unit)
        (MonthsSurpass y.list (date_of y from) (date_of y to) (is_backward direction) years) result.months }
    ensures within { let y = C.years cal.now in
        ¬ MonthsSurpass y.list (date_of y from) (date_of y to) (is_backward direction) years result.months }
    ensures year { IsGiven (C.years cal.now) result.year }
    ensures reaches { let y = C.years cal.now in
        Reaches y.list (date_of y from) (is_backward direction) years result.months
        (y.extended result.year) result.month }
    ensures ticks { let y = C.years cal.now in
        IsTrue (admits_months unit)
        → steps.new ≤ steps.old + unsigned_abs (y.extended to.year -ℤ y.extended start.year) + 1 }
    ensures no_ticks { admits_months unit ≡ false → steps.new ≡ steps.old }
{
    if matches!(unit, DateDurationUnit::Years | DateDurationUnit::Months) {
        return months_between(from, to, start, years, direction, cal, steps);
    }
    MonthsReached {
        months: 0,
        year: start.year,
        month: start.month,
    }
}
