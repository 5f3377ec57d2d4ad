//! Laws of sums, differences and the order of dates. Each is the proved contract of a function.

ghost use Rattle.std.specs.Prelude.{◌≡◌, ℤ, pos, Ok, Result, MatchResult};
ghost use Rattle.std.specs.Ordering.{int_cmp, int_eq};
ghost use Rattle.cal_types.specs.CalendarList.{Date, IsValidDate, day_number};
ghost use Rattle.cal_errors.specs.declared.errors.DateAddError.{DateAddError};
ghost use Rattle.cal_types.specs.Adding.{IsSum};
ghost use Rattle.cal_types.specs.Difference.{IsDifference};
ghost use Rattle.cal_arith.specs.Dates.{date_of, Belongs};

use crate::arithmetic_date::ArithmeticDate;
use crate::years::{YearShapes, Years};
use cal_types::{
    DateAddError, DateAddOptions, DateDifferenceOptions, DateDuration, DateDurationUnit, Overflow,
};
use std::cmp::Ordering;

/// The difference of two valid dates, added to the first under [`Overflow::Constrain`], is the second. This holds
/// with the limit on years tested on extended years and with it tested on stored years.
pub fn difference_added_back<C: YearShapes>(cal: &C, duration: DateDuration, unit: DateDurationUnit)
    ensures own { let y = C.years cal.now in
        (t u : Date) → IsValidDate y.list t → IsValidDate y.list u
        → IsDifference y.list t u unit duration
        → IsSum y.list (pos 0) t duration Overflow.Constrain (Ok u) }
    ensures shifted { let y = C.years cal.now in
        (t u : Date) → IsValidDate y.list t → IsValidDate y.list u
        → IsDifference y.list t u unit duration
        → IsSum y.list y.offset t duration Overflow.Constrain (Ok u) }
{}

/// Two dates that belong to a calendar are equal exactly if their day numbers are.
pub fn are_same_day<C: YearShapes>(
    first: &ArithmeticDate<C>,
    second: &ArithmeticDate<C>,
    cal: &C,
) -> bool
    requires first { Belongs (C.years cal.now) first.now.parts }
    requires second { Belongs (C.years cal.now) second.now.parts }
    ensures { let y = C.years cal.now in result ≡ int_eq (day_number y.list (date_of y first.now.parts))
        (day_number y.list (date_of y second.now.parts)) }
{
    first == second
}

/// Two dates that belong to a calendar are ordered as their day numbers.
pub fn order_of_days<C: YearShapes>(
    first: &ArithmeticDate<C>,
    second: &ArithmeticDate<C>,
    cal: &C,
) -> Ordering
    requires first { Belongs (C.years cal.now) first.now.parts }
    requires second { Belongs (C.years cal.now) second.now.parts }
    ensures { let y = C.years cal.now in result ≡ int_cmp (day_number y.list (date_of y first.now.parts))
        (day_number y.list (date_of y second.now.parts)) }
{
    first.cmp(second)
}

/// A sum has only one result for each shift, the number that is added to the year when its limit is tested.
pub fn sum_has_one_answer<C: YearShapes>(cal: &C, duration: DateDuration, overflow: Overflow)
    ensures { let y = C.years cal.now in
        (shift : ℤ) (t : Date) (r s : Result Date DateAddError)
        → IsSum y.list shift t duration overflow r → IsSum y.list shift t duration overflow s → r ≡ s }
{}

/// The difference of two dates that belong to a calendar, added to the first under [`Overflow::Constrain`], is the
/// second date, for every largest unit.
///
/// # Errors
///
/// - None: the result is always `Ok`.
pub fn added_back<C: Years>(
    first: &ArithmeticDate<C>,
    second: &ArithmeticDate<C>,
    cal: &C,
    options: DateDifferenceOptions,
) -> Result<ArithmeticDate<C>, DateAddError>
    requires first { Belongs (C.years cal.now) first.now.parts }
    requires second { Belongs (C.years cal.now) second.now.parts }
    ensures { MatchResult result (λ a. a.parts ≡ second.now.parts) (λ _. ⊥) }
{
    let duration = first.until(second, cal, options);
    let constrain = DateAddOptions {
        overflow: Some(Overflow::Constrain),
    };
    first.added(duration, cal, constrain)
}
