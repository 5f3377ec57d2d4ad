//! Constructors for single calendars: a year from -9999 to 9999, a month and a day. Values out of range are rejected,
//! never adjusted.

ghost use Rattle.std.specs.Prelude.{◌≡◌, IfOk};
ghost use Rattle.cal_types.specs.MonthParts.{month_parts};
ghost use Rattle.cal_errors.specs.RangeParts.{range_parts, date_fault};
ghost use Rattle.cal_types.specs.declared.year.YearInput.TheVariants.{Extended};
ghost use Rattle.cal_types.specs.Constructing.{made_date};
ghost use Rattle.cal_types.specs.Placing.{lunisolar_answer, placed_date, placed_of_era};
ghost use Rattle.cal_arith.specs.Dates.{answer_by};
ghost use Rattle.cal_base.specs.IsoSystem.{iso_date, iso_list};
ghost use Rattle.cal_gregory.specs.GregorianSystem.{gregorian_date, gregorian_system};
ghost use Rattle.cal_gregory.specs.BuddhistSystem.{buddhist_date, buddhist_system};
ghost use Rattle.cal_gregory.specs.RocSystem.{roc_date, roc_system};
ghost use Rattle.cal_gregory.specs.JapaneseSystem.{japanese_date, japanese_system};
ghost use Rattle.cal_julian.specs.JulianList.{julian_list};
ghost use Rattle.cal_julian.specs.JulianSystem.{julian_date};
ghost use Rattle.cal_julian.specs.IndianList.{indian_list};
ghost use Rattle.cal_julian.specs.IndianSystem.{indian_date};
ghost use Rattle.cal_julian.specs.PersianSystem.{persian_date, persian_system};
ghost use Rattle.cal_coptic.specs.CopticList.{coptic_list};
ghost use Rattle.cal_coptic.specs.CopticSystem.{coptic_date};
ghost use Rattle.cal_coptic.specs.EthiopianSystem.{ethiopian_date, ethiopian_system};
ghost use Rattle.cal_hebrew.specs.HebrewSystem.{hebrew_date, hebrew_system};
ghost use Rattle.cal_hijri.specs.HijriList.{hijri_list};
ghost use Rattle.cal_hijri.specs.HijriSystem as hijri;
ghost use Rattle.cal_east_asian.specs.EastAsianSystem as east_asian;
ghost use Rattle.cal_east_asian.specs.EastAsianReferences.{side_reference};
ghost use Rattle.cal_east_asian.specs.TableRules.{table_year};
ghost use Rattle.cal_east_asian.specs.declared.sides.Side.TheVariants.{China, Korea};
ghost use Rattle.icu_calendar.specs.Answers.{answer_with};

use crate::date::Date;
use crate::placed_dates::{lunisolar, placed, placed_in_era};
use cal_base::{AsCalendar, Iso};
use cal_coptic::{Coptic, Ethiopian, EthiopianEraStyle};
use cal_east_asian::{
    ChineseTraditional, EastAsianTraditional, KoreanTraditional, Rules as EastAsianRules,
};
use cal_gregory::{Buddhist, Gregorian, Japanese, Roc};
use cal_hebrew::Hebrew;
use cal_hijri::{Hijri, Rules};
use cal_julian::{Indian, Julian, Persian};
use cal_types::{DateError, LunisolarDateError, Month, RangeError};

impl Date<Iso> {
    /// Creates an ISO date from a year, a month and a day: 1992, 9, 2 is day number 727443.
    ///
    /// # Errors
    ///
    /// - [`RangeError`] for the first field out of range: `"year"` from -9999 to 9999, `"month"` from 1 to 12, `"day"`
    ///   from 1 to the month's length.
    ///
    /// # Examples
    ///
    /// ```
    /// let date = Date::try_new_iso(1992, 9, 2)?;
    /// assert!(rt; date.to_rata_die().to_i64_date() == 727443);
    /// ```
    pub fn try_new_iso(year: i32, month: u8, day: u8) -> Result<Date<Iso>, RangeError>
        ensures { answer_with (λ d. iso_date d.inner) range_parts result ≡ placed_date iso_list year month day }
    {
        placed(year, month, day, Iso)
    }
}

impl Date<Gregorian> {
    /// Creates a Gregorian date from an extended year, a month and a day: 2024, 3, 1 is day number 738946. The year 0
    /// is 1 BCE.
    ///
    /// # Errors
    ///
    /// - [`RangeError`] for the first field out of range: `"year"` from -9999 to 9999, `"month"` from 1 to 12, `"day"`
    ///   from 1 to the month's length.
    ///
    /// # Examples
    ///
    /// ```
    /// let date = Date::try_new_gregorian(2024, 3, 1)?;
    /// assert!(rt; date.to_rata_die().to_i64_date() == 738946);
    /// assert!(rt; Date::try_new_gregorian(2023, 2, 29).is_err());
    /// ```
    pub fn try_new_gregorian(year: i32, month: u8, day: u8) -> Result<Date<Gregorian>, RangeError>
        ensures { answer_with (λ d. gregorian_date d.inner) range_parts result
            ≡ placed_date gregorian_system.list year month day }
    {
        placed(year, month, day, Gregorian)
    }
}

impl Date<Buddhist> {
    /// Creates a Buddhist date from a year, a month and a day: 2535, 9, 2 is the ISO date 1992-09-02.
    ///
    /// # Errors
    ///
    /// - [`RangeError`] for the first field out of range: `"year"` from -9999 to 9999, `"month"` from 1 to 12, `"day"`
    ///   from 1 to the month's length.
    ///
    /// # Examples
    ///
    /// ```
    /// let date = Date::try_new_buddhist(2567, 3, 1)?;
    /// assert!(rt; date.to_rata_die().to_i64_date() == 738946); // 2024-03-01
    /// ```
    pub fn try_new_buddhist(year: i32, month: u8, day: u8) -> Result<Date<Buddhist>, RangeError>
        ensures { answer_with (λ d. buddhist_date d.inner) range_parts result
            ≡ placed_date buddhist_system.list year month day }
    {
        placed(year, month, day, Buddhist)
    }
}

impl Date<Roc> {
    /// Creates a date from a year of the Republic of China (Minguo), a month and a day: 81, 9, 2 is the ISO date
    /// 1992-09-02.
    ///
    /// # Errors
    ///
    /// - [`RangeError`] for the first field out of range: `"year"` from -9999 to 9999, `"month"` from 1 to 12, `"day"`
    ///   from 1 to the month's length.
    ///
    /// # Examples
    ///
    /// ```
    /// let date = Date::try_new_roc(113, 3, 1)?;
    /// assert!(rt; date.to_rata_die().to_i64_date() == 738946); // 2024-03-01
    /// ```
    pub fn try_new_roc(year: i32, month: u8, day: u8) -> Result<Date<Roc>, RangeError>
        ensures { answer_with (λ d. roc_date d.inner) range_parts result ≡ placed_date roc_system.list year month day }
    {
        placed(year, month, day, Roc)
    }
}

impl Date<Julian> {
    /// Creates a Julian date from an extended year, a month and a day: 2021, 12, 19 is the ISO date 2022-01-01.
    ///
    /// # Errors
    ///
    /// - [`RangeError`] for the first field out of range: `"year"` from -9999 to 9999, `"month"` from 1 to 12, `"day"`
    ///   from 1 to the month's length.
    ///
    /// # Examples
    ///
    /// ```
    /// let date = Date::try_new_julian(2021, 12, 19)?;
    /// assert!(rt; date.to_rata_die().to_i64_date() == 738156); // 2022-01-01
    /// ```
    pub fn try_new_julian(year: i32, month: u8, day: u8) -> Result<Date<Julian>, RangeError>
        ensures { answer_with (λ d. julian_date d.inner) range_parts result ≡ placed_date julian_list year month day }
    {
        placed(year, month, day, Julian)
    }
}

impl Date<Coptic> {
    /// Creates a Coptic date from a year, a month and a day: 1687, 13, 6 is the ISO date 1971-09-11.
    ///
    /// # Errors
    ///
    /// - [`RangeError`] for the first field out of range: `"year"` from -9999 to 9999, `"month"` from 1 to 13, `"day"`
    ///   from 1 to the month's length.
    ///
    /// # Examples
    ///
    /// ```
    /// let date = Date::try_new_coptic(1740, 6, 22)?;
    /// assert!(rt; date.to_rata_die().to_i64_date() == 738946); // 2024-03-01
    /// ```
    pub fn try_new_coptic(year: i32, month: u8, day: u8) -> Result<Date<Coptic>, RangeError>
        ensures { answer_with (λ d. coptic_date d.inner) range_parts result ≡ placed_date coptic_list year month day }
    {
        placed(year, month, day, Coptic)
    }
}

impl Date<Indian> {
    /// Creates an Indian date from a Saka year, a month and a day: 1914, 6, 11 is the ISO date 1992-09-02.
    ///
    /// # Errors
    ///
    /// - [`RangeError`] for the first field out of range: `"year"` from -9999 to 9999, `"month"` from 1 to 12, `"day"`
    ///   from 1 to the month's length.
    ///
    /// # Examples
    ///
    /// ```
    /// let date = Date::try_new_indian(1945, 12, 11)?;
    /// assert!(rt; date.to_rata_die().to_i64_date() == 738946); // 2024-03-01
    /// ```
    pub fn try_new_indian(year: i32, month: u8, day: u8) -> Result<Date<Indian>, RangeError>
        ensures { answer_with (λ d. indian_date d.inner) range_parts result ≡ placed_date indian_list year month day }
    {
        placed(year, month, day, Indian)
    }
}

impl<'t> Date<Persian<'t>> {
    /// Creates a Persian date from a year, a month and a day: without corrections, 1502, 12, 30 is day number 775489.
    ///
    /// # Errors
    ///
    /// - [`RangeError`] for the first field out of range: `"year"` from -9999 to 9999, `"month"` from 1 to 12, `"day"`
    ///   from 1 to the month's length.
    ///
    /// # Examples
    ///
    /// ```
    /// let persian = Persian::new(PersianCorrections::none());
    /// let date = Date::try_new_persian(1402, 12, 11, persian)?;
    /// assert!(rt; date.to_rata_die().to_i64_date() == 738946); // 2024-03-01
    /// ```
    pub fn try_new_persian(
        year: i32,
        month: u8,
        day: u8,
        calendar: Persian<'t>,
    ) -> Result<Date<Persian<'t>>, RangeError>
        ensures placed { let list = (persian_system calendar.entry).list in
            answer_with (λ d. persian_date d.inner) range_parts result ≡ placed_date list year month day }
        ensures calendar { IfOk result (λ d. d.calendar ≡ calendar.entry) }
    {
        placed(year, month, day, calendar)
    }
}

impl Date<Ethiopian> {
    /// Creates an Ethiopian date from a year in the style's era, a month and a day: 1962, 4, 24 under Amete Mihret and
    /// 7462, 4, 24 under Amete Alem are the ISO date 1970-01-02.
    ///
    /// # Errors
    ///
    /// - [`RangeError`] for the first field out of range: `"year"` from -9999 to 9999, `"month"` from 1 to 13, `"day"`
    ///   from 1 to the month's length.
    ///
    /// # Examples
    ///
    /// ```
    /// let style = EthiopianEraStyle::AmeteMihret;
    /// let date = Date::try_new_ethiopian(style, 2016, 6, 22)?;
    /// assert!(rt; date.to_rata_die().to_i64_date() == 738946); // 2024-03-01
    /// ```
    pub fn try_new_ethiopian(
        era_style: EthiopianEraStyle,
        year: i32,
        month: u8,
        day: u8,
    ) -> Result<Date<Ethiopian>, RangeError>
        ensures placed { let list = (ethiopian_system era_style).list in
            answer_with (λ d. ethiopian_date era_style d.inner) range_parts result
            ≡ placed_date list year month day }
        ensures style { IfOk result (λ d. d.calendar.era_style ≡ era_style) }
    {
        placed(year, month, day, Ethiopian::new_with_era_style(era_style))
    }
}

impl<A: AsCalendar<Calendar = Hijri<R>>, R: Rules> Date<A> {
    /// Creates a Hijri date from a year, a month and a day: in the tabular calendar of type II with the Friday epoch,
    /// 1445, 2, 1 is the ISO date 2023-08-18.
    ///
    /// # Errors
    ///
    /// - [`RangeError`] for the first field out of range: `"year"` from -9999 to 9999, `"month"` from 1 to 12, `"day"`
    ///   from 1 to the month's length.
    ///
    /// # Examples
    ///
    /// ```
    /// let years = TabularAlgorithmLeapYears::TypeII;
    /// let civil = Hijri::new_tabular(years, TabularAlgorithmEpoch::Friday);
    /// let date = Date::try_new_hijri_with_calendar(1445, 2, 1, civil)?;
    /// assert!(rt; date.to_rata_die().to_i64_date() == 738750); // 2023-08-18
    /// ```
    pub fn try_new_hijri_with_calendar(
        year: i32,
        month: u8,
        day: u8,
        calendar: A,
    ) -> Result<Date<A>, RangeError>
        ensures placed { let list = hijri_list (R.year_of (A.cal_of calendar).0) in
            answer_with (λ d. hijri.kept_date d.inner.0.parts) range_parts result
            ≡ placed_date list year month day }
        ensures calendar { IfOk result (λ d. d.calendar ≡ calendar) }
    {
        placed(year, month, day, calendar)
    }
}

impl Date<Hebrew> {
    /// Creates a Hebrew date from a year, a month and a day: 5782, `Month::leap(5)` (Adar I), 9 is the ISO date
    /// 2022-02-10.
    ///
    /// # Errors
    ///
    /// The first of these that applies:
    ///
    /// - [`LunisolarDateError::InvalidYear`] if the year isn't from -9999 to 9999.
    /// - [`LunisolarDateError::MonthNotInCalendar`] if the month is neither a plain month 1 to 12 nor leap month 5.
    /// - [`LunisolarDateError::MonthNotInYear`] if the leap month doesn't occur in the year.
    /// - [`LunisolarDateError::InvalidDay`] if the day isn't from 1 to the month's length; `max` is the month's
    ///   length.
    ///
    /// # Examples
    ///
    /// ```
    /// let date = Date::try_new_hebrew_v2(5784, Month::leap(5), 21)?;
    /// assert!(rt; date.to_rata_die().to_i64_date() == 738946); // 2024-03-01
    /// assert!(rt; Date::try_new_hebrew_v2(5783, Month::leap(5), 21).is_err());
    /// ```
    pub fn try_new_hebrew_v2(
        year: i32,
        month: Month,
        day: u8,
    ) -> Result<Date<Hebrew>, LunisolarDateError>
        ensures { answer_by (λ d. hebrew_date d.inner) result ≡ lunisolar_answer
            (made_date hebrew_system.list hebrew_system.year_names (Extended year) (month_parts month) day) }
    {
        lunisolar(year, month, day, Hebrew)
    }
}

/// Creates a Chinese or Korean date. Both constructors call it, so that each is a single call over any rules.
fn in_east_asian<R: EastAsianRules>(
    related_iso_year: i32,
    month: Month,
    day: u8,
    calendar: EastAsianTraditional<R>,
) -> Result<Date<EastAsianTraditional<R>>, LunisolarDateError>
    ensures made { let s = east_asian.east_asian_system (R.year_of calendar.0) (R.reference calendar.0) in
        answer_by (λ d. east_asian.kept_date d.inner.0.parts) result ≡ lunisolar_answer
        (made_date s.list s.year_names (Extended related_iso_year) (month_parts month) day) }
    ensures calendar { IfOk result (λ d. d.calendar ≡ calendar) }
{
    lunisolar(related_iso_year, month, day, calendar)
}

impl<'t> Date<ChineseTraditional<'t>> {
    /// Creates a Chinese date from a year, a month and a day; the year is the ISO year in which it begins. 1900,
    /// `Month::leap(8)`, 1 is the ISO date 1900-09-24.
    ///
    /// # Errors
    ///
    /// The first of these that applies:
    ///
    /// - [`LunisolarDateError::InvalidYear`] if the year isn't from -9999 to 9999.
    /// - [`LunisolarDateError::MonthNotInCalendar`] if the month's number isn't from 1 to 12.
    /// - [`LunisolarDateError::MonthNotInYear`] if it's a leap month that doesn't occur in the year.
    /// - [`LunisolarDateError::InvalidDay`] if the day isn't from 1 to the month's length; `max` is the month's
    ///   length.
    ///
    /// # Examples
    ///
    /// ```
    /// let chinese = published::chinese();
    /// let date = Date::try_new_chinese_traditional(2023, Month::leap(2), 1, chinese)?;
    /// assert!(rt; date.to_rata_die().to_i64_date() == 738601); // 2023-03-22
    /// ```
    pub fn try_new_chinese_traditional(
        related_iso_year: i32,
        month: Month,
        day: u8,
        calendar: ChineseTraditional<'t>,
    ) -> Result<Date<ChineseTraditional<'t>>, LunisolarDateError>
        ensures made { let year = table_year calendar.entry.0.table in
            let s = east_asian.east_asian_system year (side_reference China) in
            answer_by (λ d. east_asian.kept_date d.inner.0.parts) result ≡ lunisolar_answer
            (made_date s.list s.year_names (Extended related_iso_year) (month_parts month) day) }
        ensures calendar { IfOk result (λ d. d.calendar ≡ calendar.entry) }
    {
        in_east_asian(related_iso_year, month, day, calendar)
    }
}

impl<'t> Date<KoreanTraditional<'t>> {
    /// Creates a Korean date from a year, a month and a day; the year is the ISO year in which it begins. 1911,
    /// `Month::new(12)`, 30 is the ISO date 1912-02-17.
    ///
    /// # Errors
    ///
    /// The first of these that applies:
    ///
    /// - [`LunisolarDateError::InvalidYear`] if the year isn't from -9999 to 9999.
    /// - [`LunisolarDateError::MonthNotInCalendar`] if the month's number isn't from 1 to 12.
    /// - [`LunisolarDateError::MonthNotInYear`] if it's a leap month that doesn't occur in the year.
    /// - [`LunisolarDateError::InvalidDay`] if the day isn't from 1 to the month's length; `max` is the month's
    ///   length.
    ///
    /// # Examples
    ///
    /// ```
    /// let korean = published::korean();
    /// let date = Date::try_new_korean_traditional(2027, Month::new(1), 1, korean)?;
    /// assert!(rt; date.to_rata_die().to_i64_date() == 740019); // 2027-02-07
    /// ```
    pub fn try_new_korean_traditional(
        related_iso_year: i32,
        month: Month,
        day: u8,
        calendar: KoreanTraditional<'t>,
    ) -> Result<Date<KoreanTraditional<'t>>, LunisolarDateError>
        ensures made { let year = table_year calendar.entry.0.table in
            let s = east_asian.east_asian_system year (side_reference Korea) in
            answer_by (λ d. east_asian.kept_date d.inner.0.parts) result ≡ lunisolar_answer
            (made_date s.list s.year_names (Extended related_iso_year) (month_parts month) day) }
        ensures calendar { IfOk result (λ d. d.calendar ≡ calendar.entry) }
    {
        in_east_asian(related_iso_year, month, day, calendar)
    }
}

impl<A: AsCalendar<Calendar = Japanese>> Date<A> {
    /// Creates a Japanese date from an era, an era year, a month and a day: `"heisei"`, 1, 1, 1 is the ISO date
    /// 1989-01-01. The date may lie outside the era that it is named by: this one is printed in the year 64 of Showa.
    ///
    /// # Errors
    ///
    /// The first of these that applies:
    ///
    /// - [`DateError::Range`] if the `"year"` isn't from -9999 to 9999.
    /// - [`DateError::UnknownEra`] if the calendar doesn't know the era.
    /// - [`DateError::Range`] if the `"month"` isn't from 1 to 12.
    /// - [`DateError::Range`] if the `"day"` isn't from 1 to the month's length.
    ///
    /// # Examples
    ///
    /// ```
    /// let date = Date::try_new_japanese_with_calendar("heisei", 1, 1, 1, Japanese::new())?;
    /// assert!(rt; date.to_rata_die().to_i64_date() == 726103); // 1989-01-01
    /// assert!(rt; date.era_year().era.as_str() == "showa");
    /// ```
    pub fn try_new_japanese_with_calendar(
        era: &str,
        year: i32,
        month: u8,
        day: u8,
        japanese_calendar: A,
    ) -> Result<Date<A>, DateError>
        ensures placed { let s = japanese_system (A.cal_of japanese_calendar) in
            answer_with (λ d. japanese_date d.inner) date_fault result
            ≡ placed_of_era s.list s.year_names era.now year month day }
        ensures calendar { IfOk result (λ d. d.calendar ≡ japanese_calendar) }
    {
        placed_in_era(era, year, month, day, japanese_calendar)
    }
}
