//! A date of a Hijri calendar in six bytes.

ghost use Rattle.std.specs.Prelude.{◌≡◌, ◌≤◌, ◌<◌, pos, neg_ℤ};
ghost use Rattle.cal_days.specs.Day.{IsBetween, IsFieldYear};
ghost use Rattle.date_bytes.specs.Bytes.{day_from, month_from, number_from, year_from};
ghost use Rattle.date_bytes.specs.HijriBytes.{bits_in, hijri_bits, hijri_bytes, long_in, offset_in};

use crate::solar;

/// Packs a date, the lengths of its year's months, and the offset of its year from the mean year.
///
/// - `year`: -1040000 to 1040000.
/// - `long_months`: the months that have 30 days, as 12 bits. The lowest bit is the first month.
/// - `offset`: the number of days from the mean start of the year to its start, -5 to 5.
/// - `month`: the ordinal month, 1 to 13.
/// - `day`: 1 to 31.
pub fn pack(year: i32, long_months: u16, offset: i8, month: u8, day: u8) -> [u8; 6]
    requires year { IsFieldYear year }
    requires twelve { long_months < 4096 }
    requires offset { IsBetween (neg_ℤ (pos 5)) (pos 5) offset }
    requires month { (1 ≤ month) × (month ≤ 13) }
    requires day { (1 ≤ day) × (day ≤ 31) }
    ensures bytes { result ≡ hijri_bytes year long_months offset month day }
    ensures year { year_from 2 result ≡ year }
    ensures long { long_in result ≡ long_months }
    ensures offset { offset_in result ≡ offset }
    ensures month { month_from 2 result ≡ month }
    ensures day { day_from 2 result ≡ day }
{
    let [low, high] = year_bits(long_months, offset).to_le_bytes();
    let [a, b, c, d] = solar::pack(year, month, day);
    [low, high, a, b, c, d]
}

/// Returns what is stored about a year, as bits: the months with 30 days, the sign of the offset, and its absolute
/// value.
fn year_bits(long_months: u16, offset: i8) -> u16
    requires twelve { long_months < 4096 }
    requires offset { IsBetween (neg_ℤ (pos 5)) (pos 5) offset }
    ensures value { result ≡ hijri_bits long_months offset }
{
    let sign = u16::from(offset < 0) << 12;
    long_months | sign | (u16::from(offset.unsigned_abs()) << 13)
}

/// Returns the bits that are stored about a year.
fn unpack_bits(packed: [u8; 6]) -> u16
    ensures { result ≡ bits_in packed }
{
    u16::from_le_bytes([packed[0], packed[1]])
}

/// Returns the months of a packed date's year that have 30 days, as 12 bits. The lowest bit is the first month.
pub fn unpack_long_months(packed: [u8; 6]) -> u16
    ensures value { result ≡ long_in packed }
    ensures twelve { result < 4096 }
{
    unpack_bits(packed) & 0xFFF
}

/// Returns the number of days from the mean start of a packed date's year to its start, from -5 to 5.
pub fn unpack_offset(packed: [u8; 6]) -> i8
    ensures value { result ≡ offset_in packed }
    ensures small { IsBetween (neg_ℤ (pos 5)) (pos 5) result }
{
    let bits = unpack_bits(packed);
    let size = (bits >> 13).min(5) as i8;
    if (bits >> 12) & 1 == 1 { -size } else { size }
}

/// Returns the four bytes of the year, the ordinal month and the day.
fn date_part(packed: [u8; 6]) -> [u8; 4]
    ensures { number_from 0 result ≡ number_from 2 packed }
{
    let [_, _, a, b, c, d] = packed;
    [a, b, c, d]
}

/// Returns the year of a packed date, from -4194304 to 4194303.
pub fn unpack_year(packed: [u8; 6]) -> i32
    ensures value { result ≡ year_from 2 packed }
    ensures range { IsBetween (neg_ℤ (pos 4194304)) (pos 4194303) result }
{
    solar::unpack_year(date_part(packed))
}

/// Returns the ordinal month of a packed date.
pub fn unpack_month(packed: [u8; 6]) -> u8
    ensures { result ≡ month_from 2 packed }
{
    solar::unpack_month(date_part(packed))
}

/// Returns the day of the month of a packed date.
pub fn unpack_day(packed: [u8; 6]) -> u8
    ensures { result ≡ day_from 2 packed }
{
    solar::unpack_day(date_part(packed))
}
