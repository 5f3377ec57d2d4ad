//! Tests of whether a date is past another in the same year, in the direction of counting.

ghost use Rattle.std.specs.Prelude.{◌≡◌, ◌↔◌, IsTrue};
ghost use Rattle.cal_types.specs.Month.{month_rank};
ghost use Rattle.cal_types.specs.MonthParts.{month_parts};
ghost use Rattle.cal_types.specs.WithinYear.{IsPast, IsPastDay, SurpassesInYear};
ghost use Rattle.cal_arith.specs.Given.{HasMonth};
ghost use Rattle.cal_arith.specs.Dates.{date_of};
ghost use Rattle.cal_arith.specs.Directions.{is_backward};

use crate::dates::Ymd;
use crate::direction::Direction;
use crate::years::YearShapes;
use cal_types::Month;

/// Returns the rank of a month in the order of months: by number, with a leap month after the plain month of its
/// number.
fn rank(month: Month) -> u16
    ensures { result ≡ month_rank (month_parts month) }
{
    2 * u16::from(month.number()) + if month.is_leap() { 1 } else { 0 }
}

/// Returns whether a month and a day are after others in the same year, or before them if counting goes backward.
fn is_past(direction: Direction, month: u16, day: u8, other_month: u16, other_day: u8) -> bool
    ensures { IsTrue result ↔ IsPast (is_backward direction) month day other_month other_day }
{
    match direction {
        Direction::Forward => month > other_month || (month == other_month && day > other_day),
        Direction::Backward => month < other_month || (month == other_month && day < other_day),
    }
}

/// Returns whether a day is after another in the same month, or before it if counting goes backward.
pub(crate) fn is_past_day(direction: Direction, day: u8, other: u8) -> bool
    ensures { IsTrue result ↔ IsPastDay (is_backward direction) day other }
{
    match direction {
        Direction::Forward => day > other,
        Direction::Backward => day < other,
    }
}

/// Returns whether the first date, moved to the second date's year, is past the second date in the direction of
/// counting. Months are compared by the order of months and as ordinal months; being past by either is enough.
///
/// `place`: the ordinal month of the first date's month in the second date's year.
pub(crate) fn surpasses_in_year<C: YearShapes>(
    from: Ymd<C::YearInfo>,
    to: Ymd<C::YearInfo>,
    place: u8,
    direction: Direction,
    cal: &C,
) -> bool
    requires from { HasMonth (C.years cal.now) from.year from.month }
    requires to { HasMonth (C.years cal.now) to.year to.month }
    ensures { let y = C.years cal.now in
        IsTrue result ↔ SurpassesInYear y.list (is_backward direction) (date_of y from) (date_of y to) place }
{
    let month = rank(cal.month_from_ordinal(from.year, from.month));
    let other = rank(cal.month_from_ordinal(to.year, to.month));
    is_past(direction, month, from.day, other, to.day)
        || is_past(
            direction,
            u16::from(place),
            from.day,
            u16::from(to.month),
            to.day,
        )
}
