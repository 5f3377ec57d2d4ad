//! A date of a Chinese or Korean calendar in seven bytes.

ghost use Rattle.std.specs.Prelude.{◌≡◌, ◌≤◌, ◌<◌, pos, neg_ℤ};
ghost use Rattle.cal_days.specs.Day.{IsBetween, IsFieldYear};
ghost use Rattle.date_bytes.specs.Bytes.{day_from, month_from, number_from, year_from};
ghost use Rattle.date_bytes.specs.EastAsianBytes.{IsLeapPlace, bits_in, bits_of_places, east_asian_bits, east_asian_bytes, leap_in, long_in, start_in};

use crate::solar;

/// Packs a date, the lengths of its year's months, its year's leap month, and the start of its year.
///
/// - `year`: -1040000 to 1040000.
/// - `long_months`: the ordinal months that have 30 days, as 12 bits, or as 13 bits in a year with a leap month. The
///   lowest bit is the first month.
/// - `leap_month`: the ordinal month of the leap month, 2 to 13, or 0 if there is none.
/// - `start`: the number of days from January 19 to the start of the year, 0 to 34.
/// - `month`: the ordinal month, 1 to 13.
/// - `day`: 1 to 31.
pub fn pack(year: i32, long_months: u16, leap_month: u8, start: u8, month: u8, day: u8) -> [u8; 7]
    requires year { IsFieldYear year }
    requires places { long_months < bits_of_places leap_month }
    requires leap { IsLeapPlace leap_month }
    requires start { start ≤ 34 }
    requires month { (1 ≤ month) × (month ≤ 13) }
    requires day { (1 ≤ day) × (day ≤ 31) }
    ensures bytes { result ≡ east_asian_bytes year long_months leap_month start month day }
    ensures year { year_from 3 result ≡ year }
    ensures long { long_in result ≡ long_months }
    ensures leap { leap_in result ≡ leap_month }
    ensures start { start_in result ≡ start }
    ensures month { month_from 3 result ≡ month }
    ensures day { day_from 3 result ≡ day }
{
    let [low, middle, high, _] = year_bits(long_months, leap_month, start).to_le_bytes();
    let [a, b, c, d] = solar::pack(year, month, day);
    [low, middle, high, a, b, c, d]
}

/// Returns what is stored about a year, as bits: the months with 30 days, the leap month, and the days after January
/// 19.
fn year_bits(long_months: u16, leap_month: u8, start: u8) -> u32
    requires thirteen { long_months < 8192 }
    requires leap { leap_month ≤ 13 }
    requires start { start ≤ 34 }
    ensures value { result ≡ east_asian_bits long_months leap_month start }
{
    u32::from(long_months) | (u32::from(leap_month) << 13) | (u32::from(start) << 17)
}

/// Returns the bits that are stored about a year.
fn unpack_bits(packed: [u8; 7]) -> u32
    ensures { result ≡ bits_in packed }
{
    u32::from_le_bytes([packed[0], packed[1], packed[2], 0])
}

/// Returns the ordinal months of a packed date's year that have 30 days, as 12 bits, or as 13 bits in a year with a
/// leap month. The lowest bit is the first month.
pub fn unpack_long_months(packed: [u8; 7]) -> u16
    ensures value { result ≡ long_in packed }
    ensures places { result < bits_of_places (leap_in packed) }
{
    let bits = unpack_bits(packed);
    if unpack_leap_month(packed) == 0 {
        (bits & 0xFFF) as u16
    } else {
        (bits & 0x1FFF) as u16
    }
}

/// Returns the ordinal month of the leap month of a packed date's year, 2 to 13, or 0 if there is none.
pub fn unpack_leap_month(packed: [u8; 7]) -> u8
    ensures value { result ≡ leap_in packed }
    ensures place { IsLeapPlace result }
{
    let place = ((unpack_bits(packed) >> 13) & 15) as u8;
    if place < 2 || place > 13 { 0 } else { place }
}

/// Returns the number of days from January 19 to the start of a packed date's year, from 0 to 34.
pub fn unpack_start(packed: [u8; 7]) -> u8
    ensures value { result ≡ start_in packed }
    ensures small { result ≤ 34 }
{
    ((unpack_bits(packed) >> 17) & 63).min(34) as u8
}

/// Returns the four bytes of the year, the ordinal month and the day.
fn date_part(packed: [u8; 7]) -> [u8; 4]
    ensures { number_from 0 result ≡ number_from 3 packed }
{
    let [_, _, _, a, b, c, d] = packed;
    [a, b, c, d]
}

/// Returns the year of a packed date, from -4194304 to 4194303.
pub fn unpack_year(packed: [u8; 7]) -> i32
    ensures value { result ≡ year_from 3 packed }
    ensures range { IsBetween (neg_ℤ (pos 4194304)) (pos 4194303) result }
{
    solar::unpack_year(date_part(packed))
}

/// Returns the ordinal month of a packed date.
pub fn unpack_month(packed: [u8; 7]) -> u8
    ensures { result ≡ month_from 3 packed }
{
    solar::unpack_month(date_part(packed))
}

/// Returns the day of the month of a packed date.
pub fn unpack_day(packed: [u8; 7]) -> u8
    ensures { result ≡ day_from 3 packed }
{
    solar::unpack_day(date_part(packed))
}
