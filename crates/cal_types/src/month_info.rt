//! The month of a date.

ghost use Rattle.std.specs.Prelude.{◌≡◌};
ghost use Rattle.cal_types.specs.MonthInfo.{month_info};

use crate::month::Month;
use crate::month_code::MonthCode;

/// The leap status of a month in its year.
#[derive(Clone, Copy, Debug, PartialEq, Eq, Hash)]
pub enum LeapStatus {
    /// A plain month without a leap month beside it.
    Normal,
    /// A leap month.
    Leap,
    /// A plain month with a leap month beside it in that year.
    Base,
}

/// The month of a date: its ordinal number, its codes and its leap status.
#[derive(Clone, Copy, Debug, PartialEq)]
pub struct MonthInfo {
    /// The ordinal month: its number in the year, from 1.
    pub ordinal: u8,
    /// The month code, which names the same month in every year.
    pub standard_code: MonthCode,
    /// The code to look up the month's name with: `M06L` for Adar in a Hebrew leap year, otherwise the standard code.
    pub formatting_code: MonthCode,
    month: Month,
    leap_status: LeapStatus,
}

impl MonthInfo {
    ghost use Rattle.cal_types.specs.MonthParts.{month_parts};
    ghost use Rattle.cal_types.specs.MonthInfoParts.{month_info_parts};

    /// Creates a `MonthInfo`. Its formatting code is the code of `formatting_month`.
    ///
    /// # Examples
    ///
    /// ```
    /// let adar = MonthInfo::new(7, Month::new(6), LeapStatus::Base, Month::leap(6));
    /// assert!(rt; adar.standard_code.0.as_str() == "M06");
    /// assert!(rt; adar.formatting_code.0.as_str() == "M06L");
    /// ```
    pub fn new(
        ordinal: u8,
        month: Month,
        leap_status: LeapStatus,
        formatting_month: Month,
    ) -> MonthInfo
        ensures { month_info_parts result
            ≡ month_info ordinal (month_parts month) leap_status (month_parts formatting_month) }
    {
        MonthInfo {
            ordinal,
            standard_code: month.code(),
            formatting_code: formatting_month.code(),
            month,
            leap_status,
        }
    }

    /// Returns the month's number, as in its code. After a leap month it differs from the ordinal month.
    ///
    /// # Examples
    ///
    /// ```
    /// let date = Date::from_rata_die(RataDie::new(738946), Hebrew);
    /// let month = date.month();
    /// assert!(rt; month.number() == 5); // in the place 6
    /// ```
    pub fn number(self) -> u8
        ensures { result ≡ (month_info_parts self).month.number }
    {
        self.month.number()
    }

    /// Returns the leap status of the month.
    ///
    /// # Examples
    ///
    /// ```
    /// let date = Date::from_rata_die(RataDie::new(738946), Hebrew);
    /// let month = date.month();
    /// assert!(rt; month.leap_status() == LeapStatus::Leap);
    /// ```
    pub fn leap_status(self) -> LeapStatus
        ensures { result ≡ (month_info_parts self).leap_status }
    {
        self.leap_status
    }

    /// Returns the month in the form that date constructors take.
    ///
    /// # Examples
    ///
    /// ```
    /// let date = Date::from_rata_die(RataDie::new(738946), Hebrew);
    /// let month = date.month();
    /// assert!(rt; month.to_input() == Month::leap(5)); // Adar I
    /// ```
    pub fn to_input(&self) -> Month
        ensures { month_parts result ≡ (month_info_parts self.now).month }
    {
        self.month
    }

    /// Returns `true` if this is a leap month.
    ///
    /// # Examples
    ///
    /// ```
    /// let date = Date::from_rata_die(RataDie::new(738946), Hebrew);
    /// let month = date.month();
    /// assert!(rt; month.is_leap()); // Adar I
    /// ```
    pub fn is_leap(self) -> bool
        ensures { result ≡ (month_info_parts self).month.is_leap }
    {
        self.month.is_leap()
    }
}
