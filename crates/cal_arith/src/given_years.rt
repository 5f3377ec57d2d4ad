//! Looking up given years: years that the calendar returns for extended years from -8000000 to 8000000.

ghost use Rattle.std.specs.Prelude.{◌≡◌, ◌+◌, ◌≤ℤ◌, pos, neg_ℤ};
ghost use Rattle.cal_arith.specs.Given.{IsGiven};

use crate::steps::Steps;
use crate::years::{YearShapes, Years};
use std::sync::ledger::Ledger;

/// Returns the year of an extended year from -8000000 to 8000000, at the cost of one tick.
pub(crate) fn given_year_counted<C: YearShapes, L: Ledger>(
    extended_year: i32,
    cal: &C,
    steps: &mut Steps<L>,
) -> C::YearInfo
    requires from { neg_ℤ (pos 8000000) ≤ℤ extended_year }
    requires to { extended_year ≤ℤ pos 8000000 }
    ensures given { IsGiven (C.years cal.now) result }
    ensures number { (C.years cal.now).extended result ≡ extended_year }
    ensures tick { steps.new ≡ steps.old + 1 }
{
    cal.year_counted(extended_year, steps)
}

/// Returns the year of an extended year from -8000000 to 8000000.
pub(crate) fn given_year<C: Years>(extended_year: i32, cal: &C) -> C::YearInfo
    requires from { neg_ℤ (pos 8000000) ≤ℤ extended_year }
    requires to { extended_year ≤ℤ pos 8000000 }
    ensures given { IsGiven (C.years cal.now) result }
    ensures number { (C.years cal.now).extended result ≡ extended_year }
{
    cal.year_info_from_extended(extended_year)
}
