//! The years 1900 to 1911 of the Qing calendar, for China and Korea.

ghost use Rattle.std.specs.Prelude.{◌≡◌, ◌<◌, ◌+◌, ◌↔◌, IfSome, IsSome, pos};
ghost use Rattle.cal_east_asian.specs.EastAsianYears.{parts_of};
ghost use Rattle.cal_east_asian.specs.QingSeams.{DoesJoin};
ghost use Rattle.cal_east_asian.specs.QingYears.{IsQingNumber, IsQingYear, qing_parts};

use crate::east_asian_traditional_year::EastAsianTraditionalYear;

/// The first day of a year, the bits of its months of 30 days, and the ordinal month of its leap month or 0.
#[derive(Clone, Copy)]
struct QingRow {
    new_year: i64,
    long_months: u16,
    leap_month: u8,
}

/// Creates a row from its parts.
const fn row(new_year: i64, long_months: u16, leap_month: u8) -> QingRow
    ensures new_year { result.new_year ≡ new_year }
    ensures long_months { result.long_months ≡ long_months }
    ensures leap_month { result.leap_month ≡ leap_month }
{
    QingRow {
        new_year,
        long_months,
        leap_month,
    }
}

/// Returns the row of the year `1900 + index`.
fn qing_row(index: u8) -> QingRow
    requires { index < 12 }
    ensures new_year { result.new_year ≡ (qing_parts (pos (1900 + index))).new_year }
    ensures long_months { result.long_months ≡ (qing_parts (pos (1900 + index))).long_months }
    ensures leap_month { result.leap_month ≡ (qing_parts (pos (1900 + index))).leap_month }
{
    match index {
        0 => row(693626, 0b1011011010010, 9),
        1 => row(694010, 0b11101010010, 0),
        2 => row(694364, 0b111010100101, 0),
        3 => row(694719, 0b1011001001010, 6),
        4 => row(695102, 0b11001001011, 0),
        5 => row(695456, 0b101010011011, 0),
        6 => row(695811, 0b1010101010110, 5),
        7 => row(696195, 0b10101101010, 0),
        8 => row(696549, 0b101101011001, 0),
        9 => row(696904, 0b1011101010010, 3),
        10 => row(697288, 0b11101010010, 0),
        _ => row(697642, 0b1101100100101, 7),
    }
}

/// Returns a year of the Qing calendar, from 1900 to 1911, or `None` for any other number.
///
/// Each of these years starts on the day after the year before it: 1900 on the day after the mean year 1899 at an offset
/// of 27940000 milliseconds. The mean years 1912 at 28800000 and at 32400000 milliseconds start on the day after 1911.
///
/// ```
/// let year = qing_year(1900)?;
/// assert!(rt; year.new_year().to_i64_date() == 693626); // 1900-01-31
/// assert!(rt; year.leap_month() == Some(9));
/// ```
pub fn qing_year(related_iso: i32) -> Option<EastAsianTraditionalYear>
    ensures exact { IsSome result ↔ IsQingNumber related_iso }
    ensures row { IfSome result (λ year. IsQingYear related_iso year) }
    ensures parts { IfSome result (λ year. parts_of year ≡ qing_parts related_iso) }
    ensures joins { IfSome result (λ year. DoesJoin related_iso year) }
{
    if related_iso < 1900 || related_iso > 1911 {
        return None;
    }
    let row = qing_row((related_iso - 1900) as u8);
    Some(EastAsianTraditionalYear::from_parts(
        related_iso,
        row.new_year,
        row.long_months,
        row.leap_month,
    ))
}
