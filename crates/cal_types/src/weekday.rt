//! Days of the week.

ghost use Rattle.std.specs.Prelude.{◌≡◌, ◌<◌, ◌≤◌, pos};
ghost use Rattle.std.specs.Int.{int_rem_euclid};
ghost use Rattle.cal_types.specs.Weekday.{days_since_sunday, next_weekday, weekday_number};

use cal_days::RataDie;

/// A day of the week, numbered as in ISO 8601: Monday is 1, Sunday is 7.
#[derive(Clone, Copy, Debug, PartialEq, Eq)]
pub enum Weekday {
    /// The first day of an ISO week.
    Monday = 1,
    /// The day after Monday.
    Tuesday,
    /// The day after Tuesday.
    Wednesday,
    /// The day after Wednesday.
    Thursday,
    /// The day after Thursday.
    Friday,
    /// The day after Friday.
    Saturday,
    /// The last day of an ISO week.
    Sunday,
}

impl Weekday {
    /// Returns the weekday of the day `input` days after a Sunday, or before it if `input` is negative.
    ///
    /// # Examples
    ///
    /// ```
    /// assert!(rt; Weekday::from_days_since_sunday(-1) == Weekday::Saturday);
    /// ```
    pub fn from_days_since_sunday(input: isize) -> Weekday
        ensures { pos (days_since_sunday result) ≡ int_rem_euclid input (pos 7) }
    {
        match input.rem_euclid(7) {
            0 => Weekday::Sunday,
            1 => Weekday::Monday,
            2 => Weekday::Tuesday,
            3 => Weekday::Wednesday,
            4 => Weekday::Thursday,
            5 => Weekday::Friday,
            _ => Weekday::Saturday,
        }
    }

    /// Returns the number in ISO 8601, from 1 for Monday to 7 for Sunday.
    ///
    /// # Examples
    ///
    /// ```
    /// assert!(rt; Weekday::Sunday.number() == 7);
    /// ```
    pub const fn number(self) -> u8
        ensures value { result ≡ weekday_number self }
        ensures range { (1 ≤ result) × (result ≤ 7) }
    {
        self as u8
    }

    /// Returns the number of days after Sunday, from 0 to 6.
    pub(crate) const fn days_since_sunday(self) -> usize
        ensures value { result ≡ days_since_sunday self }
        ensures bound { result < 7 }
    {
        match self {
            Weekday::Sunday => 0,
            Weekday::Monday => 1,
            Weekday::Tuesday => 2,
            Weekday::Wednesday => 3,
            Weekday::Thursday => 4,
            Weekday::Friday => 5,
            Weekday::Saturday => 6,
        }
    }

    /// Returns the next weekday.
    pub(crate) const fn next(self) -> Weekday
        ensures { result ≡ next_weekday self }
    {
        match self {
            Weekday::Monday => Weekday::Tuesday,
            Weekday::Tuesday => Weekday::Wednesday,
            Weekday::Wednesday => Weekday::Thursday,
            Weekday::Thursday => Weekday::Friday,
            Weekday::Friday => Weekday::Saturday,
            Weekday::Saturday => Weekday::Sunday,
            Weekday::Sunday => Weekday::Monday,
        }
    }
}

/// Returns the weekday of a day number. Day 0 is a Sunday. (Reingold and Dershowitz, Calendrical Calculations)
impl From<RataDie> for Weekday {
    ghost from_gives = { λ rd day. pos (days_since_sunday day) ≡ int_rem_euclid rd (pos 7) };

    fn from(rd: RataDie) -> Weekday {
        Weekday::from_days_since_sunday(rd.to_i64_date() as isize)
    }
}
