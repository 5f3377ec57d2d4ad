//! The parts that the Gregorian and the Julian Easter share: the Metonic cycle of 19 years, and the Sunday after the
//! full moon (Reingold and Dershowitz, Calendrical Calculations, chapter 9).

ghost use Rattle.std.specs.Prelude.{◌≡◌, ◌<◌};
ghost use Rattle.cal_days.specs.Day.{IsNear};
ghost use Rattle.cal_days.specs.Easter.{IsSundayAfter, metonic_year};

use crate::rata_die::RataDie;

/// The number of years after which the moons repeat.
const YEARS_IN_METONIC_CYCLE: i32 = 19;

/// The number of days from March 1 to April 19.
pub const FROM_MARCH_1_TO_APRIL_19: i64 = 49;

/// Returns the index of a year in the Metonic cycle, from 0 to 18.
pub fn year_in_metonic_cycle(year: i32) -> u32
    ensures value { result ≡ metonic_year year }
    ensures bound { result < 19 }
{
    year.rem_euclid(YEARS_IN_METONIC_CYCLE) as u32
}

/// Returns the first Sunday after a day, never the day itself.
pub fn sunday_after(day: i64) -> RataDie
    requires { IsNear day }
    ensures { IsSundayAfter day result }
{
    RataDie::new(day + 7 - day.rem_euclid(7))
}
