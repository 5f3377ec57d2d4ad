//! The reference years of the calendars with a table.

ghost use Rattle.std.specs.Prelude.{◌≡◌};
ghost use Rattle.cal_types.specs.MonthParts.{month_parts};
ghost use Rattle.cal_hijri.specs.TableRules.{table_reference, table_reference_year};

use crate::tabular_algorithm::{TabularAlgorithmEpoch, reference_year};
use cal_base::plain_months::is_plain;
use cal_types::{EcmaReferenceYearError, Month};

/// Returns the reference year of a day of a month, 1 to 12: the latest year in which the day falls on or before
/// 1972-12-31 of the ISO calendar. The published years decide which months have a day 30.
fn known_reference_year(month: u8, day: u8) -> i32
    ensures { result ≡ table_reference_year month day }
{
    if day < 30 {
        return reference_year(TabularAlgorithmEpoch::Friday, month, day);
    }
    match month {
        2 => 1390,
        3 => 1391,
        5 => 1391,
        7 => 1389,
        10 => 1390,
        _ => reference_year(TabularAlgorithmEpoch::Friday, month, day),
    }
}

/// Returns the reference year of a month and a day.
///
/// # Errors
///
/// - [`EcmaReferenceYearError::MonthNotInCalendar`] if the month isn't one of the plain months 1 to 12.
pub(crate) fn reference_year_of_tables(month: Month, day: u8) -> Result<i32, EcmaReferenceYearError>
    ensures { result ≡ table_reference (month_parts month) day }
{
    if is_plain(month, 12) {
        Ok(known_reference_year(month.number(), day))
    } else {
        Err(EcmaReferenceYearError::MonthNotInCalendar)
    }
}
