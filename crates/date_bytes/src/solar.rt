//! A date in four bytes: a year, an ordinal month and a day of the month.

ghost use Rattle.std.specs.Prelude.{◌≡◌, ◌≤◌, pos, neg_ℤ};
ghost use Rattle.cal_days.specs.Day.{IsBetween, IsFieldYear};
ghost use Rattle.date_bytes.specs.Bytes.{date_bytes, date_number, day_from, month_from, year_from};

/// Packs a date into the little-endian bytes of `512 * year + 32 * month + day`. The year is from -1040000 to
/// 1040000, the ordinal month from 1 to 13, and the day from 1 to 31. 2024-03-01 is packed into `[97, 208, 15, 0]`.
pub fn pack(year: i32, month: u8, day: u8) -> [u8; 4]
    requires year { IsFieldYear year }
    requires month { (1 ≤ month) × (month ≤ 13) }
    requires day { (1 ≤ day) × (day ≤ 31) }
    ensures bytes { result ≡ date_bytes year month day }
    ensures year { year_from 0 result ≡ year }
    ensures month { month_from 0 result ≡ month }
    ensures day { day_from 0 result ≡ day }
{
    date_number(year, month, day).to_le_bytes()
}

/// Returns the year, the ordinal month and the day as one number.
fn date_number(year: i32, month: u8, day: u8) -> i32
    requires year { IsFieldYear year }
    requires month { month ≤ 13 }
    requires day { day ≤ 31 }
    ensures { result ≡ date_number year month day }
{
    512 * year + 32 * i32::from(month) + i32::from(day)
}

/// Returns the year of a packed date, from -4194304 to 4194303.
pub fn unpack_year(packed: [u8; 4]) -> i32
    ensures value { result ≡ year_from 0 packed }
    ensures range { IsBetween (neg_ℤ (pos 4194304)) (pos 4194303) result }
{
    i32::from_le_bytes(packed) >> 9
}

/// Returns the ordinal month of a packed date.
pub fn unpack_month(packed: [u8; 4]) -> u8
    ensures { result ≡ month_from 0 packed }
{
    ((u32::from_le_bytes(packed) >> 5) & 15) as u8
}

/// Returns the day of the month of a packed date.
pub fn unpack_day(packed: [u8; 4]) -> u8
    ensures { result ≡ day_from 0 packed }
{
    packed[0] & 31
}
