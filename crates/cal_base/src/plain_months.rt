//! Helpers for calendars whose years have the plain months 1 to 12 or 1 to 13.

ghost use Rattle.std.specs.Prelude.{◌≡◌};
ghost use Rattle.cal_types.specs.MonthParts.{month_parts};
ghost use Rattle.cal_types.specs.PlainMonths.{is_plain_month};
ghost use Rattle.cal_base.specs.PlainPlaces.{plain_place};

use cal_types::{Month, MonthError};

/// Returns whether a month is one of the plain months 1 to `count`.
pub fn is_plain(month: Month, count: u8) -> bool
    ensures { result ≡ is_plain_month count (month_parts month) }
{
    !month.is_leap() && 1 <= month.number() && month.number() <= count
}

/// Returns the ordinal month of a month in a year with the plain months 1 to `count`, which is the month's number.
///
/// # Errors
///
/// - [`MonthError::NotInCalendar`] if the month isn't one of the plain months 1 to `count`.
pub fn plain_ordinal(month: Month, count: u8) -> Result<u8, MonthError>
    ensures { result ≡ plain_place count (month_parts month) }
{
    if is_plain(month, count) {
        Ok(month.number())
    } else {
        Err(MonthError::NotInCalendar)
    }
}
