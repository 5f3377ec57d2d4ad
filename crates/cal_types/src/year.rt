//! Years, as callers pass them and as dates return them.

ghost use Rattle.std.specs.Prelude.{◌≡◌};
ghost use Rattle.cal_types.specs.Year.{era_year_or_related_iso_of, extended_year_of, era_of, cyclic_of};
ghost use Rattle.cal_types.specs.declared.year.YearInfo.{YearInfo};

use crate::tiny::TinyAsciiStr;

/// A year in the form that date constructors take.
#[derive(Clone, Copy, Debug, PartialEq)]
pub enum YearInput<'a> {
    /// The extended year, which numbers a calendar's years without eras.
    Extended(i32),
    /// An era's code and an era year.
    EraYear(&'a str, i32),
}

/// Returns the number as an extended year.
impl<'a> From<i32> for YearInput<'a> {
    ghost use Rattle.cal_types.specs.declared.year.YearInput.TheVariants.{Extended};

    ghost from_gives = { λ year input. input ≡ Extended year };

    fn from(year: i32) -> YearInput<'a> {
        YearInput::Extended(year)
    }
}

/// How much of a year and its era a reader needs in order to know the year.
#[derive(Clone, Copy, Debug, PartialEq)]
pub enum YearAmbiguity {
    /// The last two digits are enough.
    Unambiguous,
    /// The whole number is needed.
    CenturyRequired,
    /// The era is needed.
    EraRequired,
    /// The whole number and the era are needed.
    EraAndCenturyRequired,
}

/// A year in an era.
#[derive(Clone, Copy, Debug, PartialEq)]
pub struct EraYear {
    /// The era year.
    pub year: i32,
    /// The extended year, which numbers the calendar's years without eras.
    pub extended_year: i32,
    /// The era's code: CLDR's (UTS 35), if CLDR defines one.
    pub era: TinyAsciiStr<16>,
    /// The era's index among the calendar's eras, if it has one.
    pub era_index: Option<u8>,
    /// How much of the year and era a reader needs.
    pub ambiguity: YearAmbiguity,
}

/// A year of the cycle of sixty years.
#[derive(Clone, Copy, Debug, PartialEq)]
pub struct CyclicYear {
    /// The year in the cycle, from 1 to 60.
    pub year: u8,
    /// The ISO year in which the year begins.
    pub related_iso: i32,
}

/// A date's year, in an era or in the cycle of sixty years.
#[derive(Clone, Copy, Debug, PartialEq)]
pub enum YearInfo {
    /// A year in an era.
    Era(EraYear),
    /// A year in the cycle of sixty years.
    Cyclic(CyclicYear),
}

impl YearInfo {
    /// Returns the era year, or the ISO year in which a year of the cycle begins.
    ///
    /// # Examples
    ///
    /// ```
    /// let date = Date::try_new_buddhist(2567, 3, 1)?;
    /// assert!(rt; date.year().era_year_or_related_iso() == 2567);
    /// ```
    pub fn era_year_or_related_iso(self) -> i32
        ensures { result ≡ era_year_or_related_iso_of self }
    {
        match self {
            YearInfo::Era(era) => era.year,
            YearInfo::Cyclic(cyclic) => cyclic.related_iso,
        }
    }

    /// Returns the extended year. For a year of the cycle it's the ISO year in which it begins.
    ///
    /// # Examples
    ///
    /// ```
    /// let date = Date::from_rata_die(RataDie::new(738946), Iso);
    /// assert!(rt; date.year().extended_year() == 2024);
    /// ```
    pub fn extended_year(self) -> i32
        ensures { result ≡ extended_year_of self }
    {
        match self {
            YearInfo::Era(era) => era.extended_year,
            YearInfo::Cyclic(cyclic) => cyclic.related_iso,
        }
    }

    /// Returns the year in an era, or `None` exactly for a year of the cycle.
    ///
    /// # Examples
    ///
    /// ```
    /// let date = Date::try_new_buddhist(2567, 3, 1)?;
    /// let year = date.year();
    /// assert!(rt; year.era()?.year == 2567);
    /// ```
    pub fn era(self) -> Option<EraYear>
        ensures { result ≡ era_of self }
    {
        match self {
            YearInfo::Era(era) => Some(era),
            YearInfo::Cyclic(_) => None,
        }
    }

    /// Returns the year in the cycle, or `None` exactly for a year in an era.
    ///
    /// # Examples
    ///
    /// ```
    /// let chinese = published::chinese();
    /// let date = Date::from_rata_die(RataDie::new(738946), chinese);
    /// let year = date.year();
    /// assert!(rt; year.cyclic()?.year == 41); // of 2024
    /// ```
    pub fn cyclic(self) -> Option<CyclicYear>
        ensures { result ≡ cyclic_of self }
    {
        match self {
            YearInfo::Era(_) => None,
            YearInfo::Cyclic(cyclic) => Some(cyclic),
        }
    }
}

/// Returns the year as [`YearInfo::Era`].
impl From<EraYear> for YearInfo {
    ghost use Rattle.cal_types.specs.declared.year.YearInfo.TheVariants.{Era};

    ghost from_gives = { λ era info. info ≡ Era era };

    fn from(era: EraYear) -> YearInfo {
        YearInfo::Era(era)
    }
}

/// Returns the year as [`YearInfo::Cyclic`].
impl From<CyclicYear> for YearInfo {
    ghost use Rattle.cal_types.specs.declared.year.YearInfo.TheVariants.{Cyclic};

    ghost from_gives = { λ cyclic info. info ≡ Cyclic cyclic };

    fn from(cyclic: CyclicYear) -> YearInfo {
        YearInfo::Cyclic(cyclic)
    }
}

/// A type for the years of dates: [`YearInfo`], or one of its two kinds if a calendar has only that one.
pub trait IntoYearInfo {
    ghost info: { Self → YearInfo };

    /// Returns the year as a [`YearInfo`].
    fn into_year_info(self) -> YearInfo
        ensures { result ≡ info self };
}

impl IntoYearInfo for YearInfo {
    ghost info = { λ y. y };

    fn into_year_info(self) -> YearInfo {
        self
    }
}

impl IntoYearInfo for EraYear {
    ghost use Rattle.cal_types.specs.declared.year.YearInfo.TheVariants.{Era};

    ghost info = { λ y. Era y };

    fn into_year_info(self) -> YearInfo {
        YearInfo::Era(self)
    }
}

impl IntoYearInfo for CyclicYear {
    ghost use Rattle.cal_types.specs.declared.year.YearInfo.TheVariants.{Cyclic};

    ghost info = { λ y. Cyclic y };

    fn into_year_info(self) -> YearInfo {
        YearInfo::Cyclic(self)
    }
}
