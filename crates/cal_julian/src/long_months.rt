//! Consecutive months of 31 days, as in the Indian and the Persian year.

ghost use Rattle.std.specs.Prelude.{◌≡◌, ◌+◌, ◌<◌, ◌/◌, ◌%◌};

/// Returns the number of months of 31 days that have passed, and the day of the month, on a day from 0 to 185.
pub fn months_and_day(day: u16) -> (u8, u8)
    requires { day < 186 }
    ensures months { result.0 ≡ day / 31 }
    ensures day { result.1 ≡ day % 31 + 1 }
{
    // This is the quotient by 31. The compiler makes more code of a division if it knows that the number is this
    // small.
    let months = 2115 * u32::from(day) / 65536;
    (months as u8, (u32::from(day) - 31 * months) as u8 + 1)
}
