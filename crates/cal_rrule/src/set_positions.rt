//! The days of a period that BYSETPOS keeps.

ghost use Rattle.std.specs.Prelude.{◌≡◌, ℕ};
ghost use Rattle.cal_types.specs.CalendarList.{CalendarList, Date};
ghost use Rattle.cal_rrule.specs.Looks.{AreMissing};
ghost use Rattle.cal_rrule.specs.PeriodSets.{IsKeptSet, IsPeriodSet};

use crate::asked::Asked;
use recurrence_sets::{PeriodDays, keep_places};

/// Returns the days of a period whose places BYSETPOS has, if it is there.
pub(crate) fn keep_positions(asked: &Asked, days: &PeriodDays) -> PeriodDays
    requires { AreMissing asked.now.rule asked.now.missing }
    ensures first { result.first ≡ days.now.first }
    ensures kept { (c : CalendarList) (t : Date) (k : ℕ) →
        IsPeriodSet c asked.now.rule t k days.now → IsKeptSet c asked.now.rule t k result }
{
    if asked.missing.positions {
        return *days;
    }
    keep_places(days, asked.rule.positions())
}
