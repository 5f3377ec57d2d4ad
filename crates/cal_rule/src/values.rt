//! The values of the parts in a kind of calendar.

ghost use Rattle.std.specs.Prelude.{◌≡◌};
ghost use Rattle.cal_rule.specs.Faults.{error_in};
ghost use Rattle.cal_rule.specs.Lists.{IsSetRead, list_read};
ghost use Rattle.cal_rule.specs.Sets.{has_place, has_weekday, is_place, is_weekday_place};
ghost use Rattle.cal_rule.specs.Values.{month_day_read, value_fault, week_read, weekday_in_kind, year_day_read};

use crate::calendar_name::calendar_fault;
use crate::frequency::read_frequency;
use crate::kind_ranges::ranges_of;
use crate::lists::{read_months, read_places, read_weekdays};
use crate::numbers::read_count;
use crate::place_set::PlaceSet;
use crate::places::PlaceForm;
use crate::rule_error::RuleError;
use crate::rule_part::RulePart;
use crate::skip::read_skip;
use crate::until::read_until;
use crate::value_fault::ValueFault;
use crate::weekday_places::WeekdayPlaces;
use crate::weekdays::read_weekday;
use cal_kinds::AnyCalendarKind;

/// Reads the value of BYMONTHDAY.
pub(crate) fn read_month_days(text: &[u8], kind: AnyCalendarKind) -> Result<PlaceSet<1>, ValueFault>
    ensures { IsSetRead has_place is_place result (list_read (month_day_read kind) text.now) }
{
    let most = ranges_of(kind).month_day;
    read_places(text, PlaceForm { digits: 2, most })
}

/// Reads the value of BYYEARDAY or BYSETPOS.
pub(crate) fn read_year_days(text: &[u8], kind: AnyCalendarKind) -> Result<PlaceSet<7>, ValueFault>
    ensures { IsSetRead has_place is_place result (list_read (year_day_read kind) text.now) }
{
    let most = ranges_of(kind).year_day;
    read_places(text, PlaceForm { digits: 3, most })
}

/// Reads the value of BYWEEKNO.
pub(crate) fn read_weeks(text: &[u8], kind: AnyCalendarKind) -> Result<PlaceSet<1>, ValueFault>
    ensures { IsSetRead has_place is_place result (list_read (week_read kind) text.now) }
{
    let most = ranges_of(kind).week;
    read_places(text, PlaceForm { digits: 2, most })
}

/// Reads the value of BYDAY.
pub(crate) fn read_by_day(text: &[u8], kind: AnyCalendarKind) -> Result<WeekdayPlaces, ValueFault>
    ensures { IsSetRead has_weekday is_weekday_place result (list_read (weekday_in_kind kind) text.now) }
{
    read_weekdays(text, ranges_of(kind).week)
}

/// Returns the error of a part whose value was read, if there is one.
fn error_in<T: Drop>(part: RulePart, read: Result<T, ValueFault>) -> Option<RuleError>
    ensures { result ≡ error_in part read }
{
    match read {
        Ok(_) => None,
        Err(fault) => Some(fault.of(part)),
    }
}

/// Returns what is wrong with the value of a part of a rule for a kind of calendar.
pub(crate) fn value_fault(kind: AnyCalendarKind, part: RulePart, value: &[u8]) -> Option<RuleError>
    ensures { result ≡ value_fault kind part value.now }
{
    match part {
        RulePart::Freq => error_in(part, read_frequency(value)),
        RulePart::Until => error_in(part, read_until(value)),
        RulePart::Count => error_in(part, read_count(value)),
        RulePart::Interval => error_in(part, read_count(value)),
        RulePart::BySecond => Some(RuleError::TimeNotSupported(part)),
        RulePart::ByMinute => Some(RuleError::TimeNotSupported(part)),
        RulePart::ByHour => Some(RuleError::TimeNotSupported(part)),
        RulePart::ByDay => error_in(part, read_by_day(value, kind)),
        RulePart::ByMonthDay => error_in(part, read_month_days(value, kind)),
        RulePart::ByYearDay => error_in(part, read_year_days(value, kind)),
        RulePart::ByWeekNo => error_in(part, read_weeks(value, kind)),
        RulePart::ByMonth => error_in(part, read_months(value, kind)),
        RulePart::BySetPos => error_in(part, read_year_days(value, kind)),
        RulePart::Wkst => error_in(part, read_weekday(value)),
        RulePart::Rscale => calendar_fault(value, kind),
        RulePart::Skip => error_in(part, read_skip(value)),
    }
}
