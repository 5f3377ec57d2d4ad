//! The numbers and months that rules may name in a kind of calendar.

ghost use Rattle.std.specs.Prelude.{◌≡◌, ◌≤◌};
ghost use Rattle.cal_types.specs.MonthParts.{month_parts};
ghost use Rattle.cal_types.specs.PlainMonths.{is_plain_month};
ghost use Rattle.cal_rule.specs.KindRanges.{is_hebrew_month, is_lunisolar_month, knows_month, ranges_of};

use cal_kinds::AnyCalendarKind;
use cal_types::Month;

/// The greatest numbers that a rule may name in a kind of calendar.
#[derive(Clone, Copy)]
pub(crate) struct Ranges {
    /// The greatest day of a month.
    pub month_day: u16,
    /// The greatest day of a year.
    pub year_day: u16,
    /// The greatest number of weeks of a year.
    pub week: u16,
}

/// Returns the greatest numbers that a rule may name in a kind of calendar, whatever its tables are.
pub(crate) const fn ranges_of(kind: AnyCalendarKind) -> Ranges
    ensures value { result ≡ ranges_of kind }
    ensures month_day { result.month_day ≤ 31 }
    ensures year_day { result.year_day ≤ 385 }
    ensures week { result.week ≤ 55 }
{
    match kind {
        AnyCalendarKind::Coptic
        | AnyCalendarKind::Ethiopian
        | AnyCalendarKind::EthiopianAmeteAlem => greatest(30, 366, 53),
        AnyCalendarKind::HijriTabularTypeIIFriday
        | AnyCalendarKind::HijriSimulatedMecca
        | AnyCalendarKind::HijriTabularTypeIIThursday
        | AnyCalendarKind::HijriUmmAlQura
        | AnyCalendarKind::HijriTabularTypeIFriday
        | AnyCalendarKind::HijriTabularTypeIThursday => greatest(30, 355, 51),
        AnyCalendarKind::Hebrew | AnyCalendarKind::Chinese | AnyCalendarKind::Dangi => {
            greatest(30, 385, 55)
        }
        _ => greatest(31, 366, 53),
    }
}

/// Returns ranges with these greatest numbers.
const fn greatest(month_day: u16, year_day: u16, week: u16) -> Ranges
    ensures { result ≡ record { month_day = month_day; year_day = year_day; week = week } }
{
    Ranges {
        month_day,
        year_day,
        week,
    }
}

/// Returns whether a month occurs in some year of a kind of calendar, whatever its tables are.
pub(crate) fn knows_month(kind: AnyCalendarKind, month: Month) -> bool
    ensures { result ≡ knows_month kind (month_parts month) }
{
    match kind {
        AnyCalendarKind::Chinese | AnyCalendarKind::Dangi => is_lunisolar_month(month),
        AnyCalendarKind::Coptic
        | AnyCalendarKind::Ethiopian
        | AnyCalendarKind::EthiopianAmeteAlem => is_plain_month(month, 13),
        AnyCalendarKind::Hebrew => is_hebrew_month(month),
        _ => is_plain_month(month, 12),
    }
}

/// Returns whether a month is one of the regular months 1 to `last`.
fn is_plain_month(month: Month, last: u8) -> bool
    ensures { result ≡ is_plain_month last (month_parts month) }
{
    !month.is_leap() && 1 <= month.number() && month.number() <= last
}

/// Returns whether a month is one of the regular months 1 to 12, or the leap month `M05L`.
fn is_hebrew_month(month: Month) -> bool
    ensures { result ≡ is_hebrew_month (month_parts month) }
{
    if month.is_leap() {
        return month.number() == 5;
    }
    1 <= month.number() && month.number() <= 12
}

/// Returns whether a month is one of the months 1 to 12, regular or leap.
fn is_lunisolar_month(month: Month) -> bool
    ensures { result ≡ is_lunisolar_month (month_parts month) }
{
    1 <= month.number() && month.number() <= 12
}
