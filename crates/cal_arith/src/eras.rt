//! Eras that several calendars share. The codes are CLDR's (UTS 35).

ghost use Rattle.std.specs.Prelude.{◌≡◌};
ghost use Rattle.cal_days.specs.Day.{IsFieldYear};
ghost use Rattle.cal_types.specs.Eras.{common_era_reads, only_era_reads};
ghost use Rattle.cal_arith.specs.FieldNames.{era_read};

use cal_types::UnknownEraError;

/// Returns the extended year of a year in a calendar's only era: the year itself.
///
/// `code`: the code of the calendar's era; `era`: the code to look up.
///
/// # Errors
///
/// - [`UnknownEraError`] if `era` isn't `code`.
pub fn year_in_only_era(code: &[u8], era: &[u8], year: i32) -> Result<i32, UnknownEraError>
    ensures { result ≡ era_read (only_era_reads code.now era.now year) }
{
    if era == code {
        Ok(year)
    } else {
        Err(UnknownEraError)
    }
}

/// Returns the extended year of a year in the Common Era (`ce` or `ad`) or before it (`bce` or `bc`). Years before it
/// count back: 1 BCE is year 0.
///
/// `year`: -1040000 to 1040000.
///
/// # Errors
///
/// - [`UnknownEraError`] if `era` is none of these four codes.
pub fn year_in_common_era(era: &[u8], year: i32) -> Result<i32, UnknownEraError>
    requires { IsFieldYear year }
    ensures { result ≡ era_read (common_era_reads era.now year) }
{
    if era == b"ce".as_slice() || era == b"ad".as_slice() {
        Ok(year)
    } else if era == b"bce".as_slice() || era == b"bc".as_slice() {
        Ok(1 - year)
    } else {
        Err(UnknownEraError)
    }
}
