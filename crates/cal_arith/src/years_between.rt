//! The years of a difference, and the month that is reached by counting them.

ghost use Rattle.std.specs.Prelude.{◌≡◌, ◌+◌, ◌+ℤ◌, Some};
ghost use Rattle.cal_days.specs.Day.{IsFieldYear};
ghost use Rattle.cal_types.specs.CalendarList.{month_at, spot};
ghost use Rattle.cal_types.specs.WithinYear.{Leads};
ghost use Rattle.cal_types.specs.Difference.{toward, YearsSurpass, IsGreatest, IsGreatestIf, admits_years};
ghost use Rattle.cal_arith.specs.Counting.{IsYearsFrom};
ghost use Rattle.cal_arith.specs.Given.{HasMonth, IsGiven};
ghost use Rattle.cal_arith.specs.Dates.{date_of, IsGivenDate};
ghost use Rattle.cal_arith.specs.Directions.{is_backward};

use crate::dates::Ymd;
use crate::direction::Direction;
use crate::given_years::given_year_counted;
use crate::months::YearMonth;
use crate::past::surpasses_in_year;
use crate::steps::Steps;
use crate::years::YearShapes;
use cal_types::{DateDurationUnit, Overflow};
use std::sync::ledger::Ledger;

/// Returns the ordinal month of a date's month in another year, or of the month that stands in for it there.
fn stand_in_place<C: YearShapes>(from: Ymd<C::YearInfo>, reached: C::YearInfo, cal: &C) -> u8
    requires from { HasMonth (C.years cal.now) from.year from.month }
    requires reached { IsGiven (C.years cal.now) reached }
    ensures { let y = C.years cal.now in
        spot y.list (y.extended reached) (month_at y.list (y.extended from.year) from.month) Overflow.Constrain
        ≡ Some result }
{
    match cal.ordinal_in_other_year(from.year, from.month, reached, Overflow::Constrain) {
        Some(place) => place,
        None => unreachable!(),
    }
}

/// Returns the greatest number of years that doesn't surpass the second date.
fn years_between<C: YearShapes>(
    from: Ymd<C::YearInfo>,
    to: Ymd<C::YearInfo>,
    direction: Direction,
    cal: &C,
) -> u32
    requires from { IsGivenDate (C.years cal.now) from }
    requires to { IsGivenDate (C.years cal.now) to }
    requires leads { let y = C.years cal.now in
        Leads y.list (is_backward direction) (date_of y from) (date_of y to) }
    ensures { let y = C.years cal.now in
        IsGreatest (YearsSurpass y.list (date_of y from) (date_of y to) (is_backward direction)) result }
{
    let year = cal.extended_from_year_info(from.year);
    let other = cal.extended_from_year_info(to.year);
    let apart = (other - year).unsigned_abs();
    let place = stand_in_place(from, to.year, cal);
    if surpasses_in_year(from, to, place, direction, cal) {
        apart - 1
    } else {
        apart
    }
}

/// Returns the number of years of a difference. It is 0 unless the largest unit is years: then it is the greatest
/// that doesn't surpass the second date.
pub(crate) fn admitted_years<C: YearShapes>(
    from: Ymd<C::YearInfo>,
    to: Ymd<C::YearInfo>,
    unit: DateDurationUnit,
    direction: Direction,
    cal: &C,
) -> u32
    requires from { IsGivenDate (C.years cal.now) from }
    requires to { IsGivenDate (C.years cal.now) to }
    requires leads { let y = C.years cal.now in
        Leads y.list (is_backward direction) (date_of y from) (date_of y to) }
    ensures greatest { let y = C.years cal.now in
        IsGreatestIf (admits_years unit)
        (YearsSurpass y.list (date_of y from) (date_of y to) (is_backward direction)) result }
    ensures within { let y = C.years cal.now in
        ¬ YearsSurpass y.list (date_of y from) (date_of y to) (is_backward direction) result }
{
    match unit {
        DateDurationUnit::Years => years_between(from, to, direction, cal),
        _ => 0,
    }
}

/// Returns the month that is reached by adding years to a date, at the cost of one tick. The years must not surpass
/// the second date.
pub(crate) fn month_after_years<C: YearShapes, L: Ledger>(
    from: Ymd<C::YearInfo>,
    to: Ymd<C::YearInfo>,
    years: u32,
    direction: Direction,
    cal: &C,
    steps: &mut Steps<L>,
) -> YearMonth<C::YearInfo>
    requires from_range { IsFieldYear ((C.years cal.now).extended from.year) }
    requires from { IsGivenDate (C.years cal.now) from }
    requires to_range { IsFieldYear ((C.years cal.now).extended to.year) }
    requires within { let y = C.years cal.now in
        ¬ YearsSurpass y.list (date_of y from) (date_of y to) (is_backward direction) years }
    ensures month { IsYearsFrom (C.years cal.now) from (is_backward direction) years result }
    ensures ticks { steps.new ≡ steps.old + 1 }
{
    let year = cal.extended_from_year_info(from.year);
    let reached = given_year_counted(toward_year(year, years, direction), cal, steps);
    YearMonth {
        year: reached,
        month: stand_in_place(from, reached, cal),
    }
}

/// Returns the extended year `years` years later or earlier.
fn toward_year(year: i32, years: u32, direction: Direction) -> i32
    requires year { IsFieldYear year }
    requires result { IsFieldYear (year +ℤ toward (is_backward direction) years) }
    ensures { result ≡ year +ℤ toward (is_backward direction) years }
{
    match direction {
        Direction::Forward => year + years as i32,
        Direction::Backward => year - years as i32,
    }
}
