//! The first number of a row with which there is no year or no era.
ghost use Rattle.std.specs.Prelude.{◌≡◌};
ghost use Rattle.cal_days.specs.Day.{IsRuleYear, is_between};
ghost use Rattle.cal_east_asian.specs.EastAsianYear.{is_leap_place};
ghost use Rattle.request_lines.specs.RowSaid.{era_row_said, row_said, year_row_said};
ghost use Rattle.row_faults.specs.RowFaults.{era_fault, hijri_fault, is_near_mean, is_new_year, is_within, lunisolar_fault, row_fault};

use crate::allowed::Allowed;
use cal_days::ranges::is_rule_year;
use cal_days::{gregorian, islamic};
use request_lines::{EraRow, Row, RowDate, YearRow};

/// Returns whether a day is from `low` to `high`.
fn is_day_between(low: i64, high: i64, day: i32) -> bool
    ensures { result ≡ is_between low high day }
{
    let day = i64::from(day);
    low <= day && day <= high
}

/// Returns whether a day is 0 to 34 days after January 19 of a year.
fn is_new_year(year: i32, day: i32) -> bool
    requires { IsRuleYear year }
    ensures { result ≡ is_new_year year day }
{
    let january_1 = gregorian::year_start(year).to_i64_date();
    is_day_between(january_1 + 18, january_1 + 52, day)
}

/// Returns whether a day is at most 5 days from the start of a mean year.
fn is_near_mean(year: i32, day: i32) -> bool
    requires { IsRuleYear year }
    ensures { result ≡ is_near_mean year day }
{
    let start = islamic::mean_start(year).to_i64_date();
    is_day_between(start - 5, start + 5, day)
}

/// Returns whether a number is 0, for no leap month, or the ordinal of a leap month.
fn is_leap_place(leap: u8) -> bool
    ensures { result ≡ is_leap_place leap }
{
    leap == 0 || (2 <= leap && leap <= 13)
}

/// Returns whether a number is from `least` to `most`.
fn is_within(least: u8, most: u8, number: u8) -> bool
    ensures { result ≡ is_within least most number }
{
    least <= number && number <= most
}

/// Returns what may stand in place of the first wrong number of a Chinese or Korean row.
fn lunisolar_fault(row: &YearRow<'_>) -> Option<Allowed>
    ensures { result ≡ lunisolar_fault (year_row_said row.now) }
{
    if !is_rule_year(row.year) {
        return Some(Allowed::RuleYear);
    }
    if !is_new_year(row.year, row.start) {
        return Some(Allowed::LunisolarStart);
    }
    if !is_leap_place(row.leap) {
        return Some(Allowed::LeapMonth);
    }
    None
}

/// Returns what may stand in place of the first wrong number of a Hijri row.
fn hijri_fault(row: &YearRow<'_>) -> Option<Allowed>
    ensures { result ≡ hijri_fault (year_row_said row.now) }
{
    if !is_rule_year(row.year) {
        return Some(Allowed::RuleYear);
    }
    if !is_near_mean(row.year, row.start) {
        return Some(Allowed::HijriStart);
    }
    None
}

/// Returns what may stand in place of the first wrong number of an era's row.
pub(crate) fn era_fault(row: &EraRow<'_>) -> Option<Allowed>
    ensures { result ≡ era_fault (era_row_said row.now) }
{
    let RowDate { year, month, day } = row.start;
    if year < 2026 {
        return None;
    }
    if year > 2089 {
        return Some(Allowed::EraYear);
    }
    if !is_within(1, 15, month) {
        return Some(Allowed::EraMonth);
    }
    if !is_within(1, 31, day) {
        return Some(Allowed::EraDay);
    }
    if row.index != 7 && row.index != 8 {
        return Some(Allowed::EraIndex);
    }
    None
}

/// Returns what may stand in place of the first number of a row with which there is no year or no era, or `None` if the
/// row has a year or an era.
///
/// # Examples
///
/// ```
/// use request_lines::read_row;
/// use row_faults::{Allowed, row_fault};
///
/// let row = read_row(b"row china 2024 738800 lslslslslsls 0")?;
/// assert!(rt; row_fault(&row) == Some(Allowed::LunisolarStart)); // 2023-10-07
/// ```
pub fn row_fault(row: &Row<'_>) -> Option<Allowed>
    ensures { result ≡ row_fault (row_said row.now) }
{
    match row {
        Row::China(year) => lunisolar_fault(year),
        Row::Korea(year) => lunisolar_fault(year),
        Row::Hijri(year) => hijri_fault(year),
        Row::Persian(_) => None,
        Row::Era(era) => era_fault(era),
    }
}
