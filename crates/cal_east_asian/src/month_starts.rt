//! Reads the months of a year from their first days.

ghost use Rattle.std.specs.Prelude.{◌≡◌, ◌↔◌, ◌<◌, ◌≤◌, ◌^◌, IfSome, IsSome, IsTrue, pos, neg_ℤ, ◌-ℤ◌};
ghost use Rattle.cal_days.specs.Day.{IsBetween, IsRuleYear};
ghost use Rattle.cal_east_asian.specs.EastAsianYear.{IsNewYear};
ghost use Rattle.cal_east_asian.specs.MonthStarts.{HaveLengthsOf, HaveMonthLengths, leap_place_read, start_at};

use cal_days::{RataDie, gregorian};

/// Returns the ordinal month of the leap month, or 0 without one. Returns `None` if it isn't from 2 to 13.
pub(crate) fn leap_place(leap_month: Option<u8>) -> Option<u8>
    ensures { result ≡ leap_place_read leap_month }
{
    match leap_month {
        None => Some(0),
        Some(place) => {
            if 2 <= place && place <= 13 {
                Some(place)
            } else {
                None
            }
        }
    }
}

/// Returns the first day of the first month.
pub(crate) fn first_day(starts: &[RataDie; 14]) -> RataDie
    ensures { result ≡ start_at starts.now 0 }
{
    starts[0]
}

/// Returns whether a year number is from -8000000 to 8000000, and the year may start on a day.
pub(crate) fn is_new_year(related_iso: i32, day: RataDie) -> bool
    ensures { IsTrue result ↔ (IsRuleYear related_iso × IsNewYear related_iso day) }
{
    if related_iso < -8000000 || related_iso > 8000000 {
        return false;
    }
    let since = day.since(gregorian::year_start(related_iso));
    18 <= since && since <= 52
}

/// Returns the number of days from one first day to the next.
fn days_from(first: RataDie, next: RataDie) -> i64
    ensures value { result ≡ next -ℤ first }
    ensures bound { IsBetween (neg_ℤ (pos 100000000000000000)) (pos 100000000000000000) result }
{
    next.since(first)
}

/// Returns whether a month may have this number of days.
fn is_month_length(days: i64) -> bool
    ensures { IsTrue result ↔ IsBetween (pos 29) (pos 30) days }
{
    days == 29 || days == 30
}

/// Returns the bits of the months of 30 days, or `None` if a month has neither 29 nor 30 days.
pub(crate) fn long_months(starts: &[RataDie; 14], months: u8) -> Option<u16>
    requires { months ≤ 13 }
    ensures some { IsSome result ↔ HaveMonthLengths starts.now 0 months }
    ensures lengths { IfSome result (λ long. HaveLengthsOf starts.now months long) }
    ensures few { IfSome result (λ long. long < 2 ^ months) }
{
    let mut long_months = 0;
    let mut month = usize::from(months);
    'months: while month > 0 {
        let days = days_from(starts[month - 1], starts[month]);
        if !is_month_length(days) {
            return None;
        }
        long_months = 2 * long_months + (days - 29) as u16;
        month -= 1;
    }
    Some(long_months)
}
