//! The corrected Persian years.

ghost use Rattle.std.specs.Prelude.{◌≡◌, Some, length, slice_get};
ghost use Rattle.cal_julian.specs.PersianAccepted.{AreCorrections};

use crate::persian_data::{
    CORRECTED_YEARS, FIRST_CORRECTED_PERSIAN_YEAR, LAST_CORRECTED_PERSIAN_YEAR,
};
use cal_julian::{Persian, PersianCorrections};

/// Returns the corrections of the Persian calendar: 78 years that are leap years by the rule of 33 years, but not in
/// the astronomical calendar. The year after each of them is the leap year.
///
/// The first is [`FIRST_CORRECTED_PERSIAN_YEAR`](crate::FIRST_CORRECTED_PERSIAN_YEAR), 1502, and the last
/// [`LAST_CORRECTED_PERSIAN_YEAR`](crate::LAST_CORRECTED_PERSIAN_YEAR), 2987. ICU 78 has the same years.
///
/// ```
/// let persian = Persian::new(published_years::persian_corrections());
/// let new_year = Date::try_new(1404.into(), Month::new(1), 1, persian)?;
/// assert!(rt; new_year.to_rata_die().to_i64_date() == 739331); // 2025-03-21
/// ```
pub fn persian_corrections() -> PersianCorrections<'static>
    ensures years { result.years.now ≡ CORRECTED_YEARS }
    ensures accepted { AreCorrections CORRECTED_YEARS }
    ensures first { slice_get CORRECTED_YEARS 0 ≡ Some FIRST_CORRECTED_PERSIAN_YEAR }
    ensures last { slice_get CORRECTED_YEARS 77 ≡ Some LAST_CORRECTED_PERSIAN_YEAR }
    ensures count { length CORRECTED_YEARS ≡ 78 }
{
    PersianCorrections::new(&CORRECTED_YEARS)
}

/// Returns the Persian calendar with the corrections of [`persian_corrections`].
///
/// Before and after them it uses the rule of 33 years alone. From 1350 to 3000 it has the new years of ICU 78.
///
/// ```
/// let persian = published_years::persian();
/// let new_year = Date::try_new(1404.into(), Month::new(1), 1, persian)?;
/// assert!(rt; new_year.to_rata_die().to_i64_date() == 739331); // 2025-03-21
/// ```
pub fn persian() -> Persian<'static>
    ensures { result.corrections.years.now ≡ CORRECTED_YEARS }
{
    Persian::new(persian_corrections())
}
