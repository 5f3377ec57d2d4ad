//! The years of row lines.
ghost use Rattle.std.specs.Prelude.{◌≡◌, ◌≤◌, pos, IfSome, IsTrue, MatchOption, Some, None, if◌then◌else◌};
ghost use Rattle.cal_hijri.specs.HijriRows as hijri;
ghost use Rattle.cal_hijri.specs.declared.hijri_year.HijriYear.{HijriYear};
ghost use Rattle.cal_east_asian.specs.EastAsianRows as lunisolar;
ghost use Rattle.cal_east_asian.specs.declared.east_asian_traditional_year.EastAsianTraditionalYear.{EastAsianTraditionalYear};
ghost use Rattle.cal_east_asian.specs.EastAsianYear.{is_leap_place};
ghost use Rattle.cal_east_asian.specs.MonthStarts.{leap_place_read};
ghost use Rattle.request_lines.specs.RowSaid.{year_row_said};
ghost use Rattle.table_rows.specs.RowYears.{letter_days, days_at, starts_of, IsHijriYear, IsEastAsianYear};

use cal_days::RataDie;
use cal_east_asian::{EastAsianRow, EastAsianTraditionalYear};
use cal_hijri::{HijriRow, HijriYear};
use request_lines::YearRow;

/// Returns the number of days of a month from its letter.
fn letter_len(letter: u8) -> i64
    ensures value { result ≡ pos (letter_days letter) }
    ensures most { letter_days letter ≤ 30 }
{
    if letter == b'l' { 30 } else { 29 }
}

/// Returns the number of days of the month at an index: 30 or 29 from its letter, and 0 after the last letter.
fn month_days(letters: &[u8], index: usize) -> i64
    ensures value { result ≡ pos (days_at letters.now index) }
    ensures most { days_at letters.now index ≤ 30 }
{
    match letters.get(index) {
        Some(letter) => letter_len(*letter),
        None => 0,
    }
}

/// Returns the first day of each month. The first month begins on `start`, and `letters` has the lengths of the
/// months.
fn month_starts<const N: usize>(start: i32, letters: &[u8]) -> [RataDie; N]
    requires { N ≤ 14 }
    ensures { result ≡ starts_of N start letters.now }
{
    let mut day = i64::from(start);
    let mut starts = [RataDie::new(day); N];
    let mut index = 0;
    'months: while index < N {
        starts[index] = RataDie::new(day);
        day += month_days(letters, index);
        index += 1;
    }
    starts
}

/// Returns the Hijri year of a row if it exists.
fn hijri_year(row: &YearRow<'_>) -> Option<HijriYear>
    ensures { MatchOption result ((y : HijriYear) → IsHijriYear (year_row_said row.now) y → ⊥)
        (IsHijriYear (year_row_said row.now)) }
{
    HijriYear::try_new(row.year, month_starts(row.start, row.lengths))
}

/// Returns the Hijri year of a row. `None` exactly if the number of the year isn't from -8000000 to 8000000, its
/// first day is more than 5 days from the start of the mean year, or there aren't letters for all twelve months.
pub fn hijri_row(row: &YearRow<'_>) -> Option<HijriRow>
    ensures year { MatchOption result ((y : HijriYear) → IsHijriYear (year_row_said row.now) y → ⊥)
        (λ kept. IsHijriYear (year_row_said row.now) (hijri.row_year kept)) }
    ensures named { IfSome result (λ kept. IsTrue (hijri.names_year kept)) }
{
    match hijri_year(row) {
        Some(year) => year.row(),
        None => None,
    }
}

/// Returns the ordinal of the leap month if the row has one.
fn leap_place(leap: u8) -> Option<u8>
    ensures { leap_place_read result ≡ (if is_leap_place leap then Some leap else None) }
{
    if leap == 0 { None } else { Some(leap) }
}

/// Returns the Chinese or Korean year of a row if it exists.
fn east_asian_year(row: &YearRow<'_>) -> Option<EastAsianTraditionalYear>
    ensures { MatchOption result ((y : EastAsianTraditionalYear) → IsEastAsianYear (year_row_said row.now) y → ⊥)
        (IsEastAsianYear (year_row_said row.now)) }
{
    let starts = month_starts(row.start, row.lengths);
    EastAsianTraditionalYear::try_new(row.year, starts, leap_place(row.leap))
}

/// Returns the Chinese or Korean year of a row. `None` exactly if the number of the year isn't from -8000000 to
/// 8000000, its first day isn't 0 to 34 days after January 19 of the number, the ordinal of its leap month isn't 0 or
/// from 2 to 13, or there aren't letters for all of its months.
pub fn east_asian_row(row: &YearRow<'_>) -> Option<EastAsianRow>
    ensures year { MatchOption result ((y : EastAsianTraditionalYear) → IsEastAsianYear (year_row_said row.now) y → ⊥)
        (λ kept. IsEastAsianYear (year_row_said row.now) (lunisolar.row_year kept)) }
    ensures named { IfSome result (λ kept. IsTrue (lunisolar.names_year kept)) }
{
    match east_asian_year(row) {
        Some(year) => Some(year.row()),
        None => None,
    }
}
