//! A date of the Hebrew calendar in five bytes.

ghost use Rattle.std.specs.Prelude.{◌≡◌, ◌≤◌, ◌<◌, pos, neg_ℤ};
ghost use Rattle.cal_days.specs.Day.{IsBetween, IsFieldYear};
ghost use Rattle.date_bytes.specs.Bytes.{day_from, month_from, number_from, year_from};
ghost use Rattle.date_bytes.specs.HebrewBytes.{IsHebrewLength, class_of, hebrew_bytes, length_in};

use crate::solar;

/// Packs a date and the length of its year.
///
/// - `year`: -1040000 to 1040000.
/// - `length`: 353, 354, 355, 383, 384 or 385 days.
/// - `month`: the ordinal month, 1 to 13.
/// - `day`: 1 to 31.
///
/// M05L 10 of 5787, a year of 385 days, is packed into `[5, 202, 54, 45, 0]`.
pub fn pack(year: i32, length: u16, month: u8, day: u8) -> [u8; 5]
    requires year { IsFieldYear year }
    requires length { IsHebrewLength length }
    requires month { (1 ≤ month) × (month ≤ 13) }
    requires day { (1 ≤ day) × (day ≤ 31) }
    ensures bytes { result ≡ hebrew_bytes year length month day }
    ensures year { year_from 1 result ≡ year }
    ensures length { length_in result ≡ length }
    ensures month { month_from 1 result ≡ month }
    ensures day { day_from 1 result ≡ day }
{
    let [a, b, c, d] = solar::pack(year, month, day);
    [class_of_length(length), a, b, c, d]
}

/// Returns the index of a year's length among the six possible lengths, from 0.
fn class_of_length(length: u16) -> u8
    requires { IsHebrewLength length }
    ensures { result ≡ class_of length }
{
    if length < 383 {
        (length - 353) as u8
    } else {
        (length - 380) as u8
    }
}

/// Returns the length of a packed date's year: 353, 354, 355, 383, 384 or 385 days.
pub fn unpack_length(packed: [u8; 5]) -> u16
    ensures value { result ≡ length_in packed }
    ensures known { IsHebrewLength result }
{
    match packed[0] {
        0 => 353,
        1 => 354,
        2 => 355,
        3 => 383,
        4 => 384,
        _ => 385,
    }
}

/// Returns the four bytes of the year, the ordinal month and the day.
fn date_part(packed: [u8; 5]) -> [u8; 4]
    ensures { number_from 0 result ≡ number_from 1 packed }
{
    let [_, a, b, c, d] = packed;
    [a, b, c, d]
}

/// Returns the year of a packed date, from -4194304 to 4194303.
pub fn unpack_year(packed: [u8; 5]) -> i32
    ensures value { result ≡ year_from 1 packed }
    ensures range { IsBetween (neg_ℤ (pos 4194304)) (pos 4194303) result }
{
    solar::unpack_year(date_part(packed))
}

/// Returns the ordinal month of a packed date.
pub fn unpack_month(packed: [u8; 5]) -> u8
    ensures { result ≡ month_from 1 packed }
{
    solar::unpack_month(date_part(packed))
}

/// Returns the day of the month of a packed date.
pub fn unpack_day(packed: [u8; 5]) -> u8
    ensures { result ≡ day_from 1 packed }
{
    solar::unpack_day(date_part(packed))
}
