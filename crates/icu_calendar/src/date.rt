//! A date with its calendar.

ghost use Rattle.std.specs.Prelude.{◌≡◌, ◌↔◌, ◌+◌, ◌≤◌, pos, ◌+ℤ◌, ◌-ℤ◌, unsigned_abs, IsTrue, IsOk, IfOk, IfErr, Ok, ⊤};
ghost use Rattle.std.specs.Int.{int_rem_euclid};
ghost use Rattle.cal_days.specs.Day.{IsValidDay};
ghost use Rattle.cal_types.specs.Bag.{bag_of};
ghost use Rattle.cal_types.specs.MonthInfoParts.{month_info_parts};
ghost use Rattle.cal_types.specs.MonthParts.{month_parts};
ghost use Rattle.cal_types.specs.Weekday.{days_since_sunday};
ghost use Rattle.cal_types.specs.declared.year.YearInfo.TheVariants.{Era, Cyclic};
ghost use Rattle.cal_types.specs.CalendarList.{IsOn, day_number, month_count, month_length, start_of_year, year_length};
ghost use Rattle.cal_types.specs.Adding.{IsSum, add_overflow_of};
ghost use Rattle.cal_types.specs.Difference.{largest_unit_of};
ghost use Rattle.cal_types.specs.Until.{IsUntil};
ghost use Rattle.cal_types.specs.CalendarSystem.{month_info_of, resolve_fields};
ghost use Rattle.cal_types.specs.Constructing.{made_date};
ghost use Rattle.cal_arith.specs.Dates.{answer_by};
ghost use Rattle.cal_arith.specs.Ticks.{most_ticks};
ghost use Rattle.cal_base.specs.IsoSystem.{iso_list, iso_date};
ghost use Rattle.icu_calendar.specs.Clamping.{clamped_day, done_with};

mod any;
mod comparing;
mod copies;
pub(crate) mod rebasing;

use cal_arith::Steps;
use cal_base::{AsCalendar, Calendar, Iso, Ref};
use cal_days::RataDie;
use cal_days::ranges::{FIRST_VALID_DAY, LAST_VALID_DAY};
use cal_types::{
    CyclicYear, DateAddError, DateAddOptions, DateDifferenceOptions, DateDuration, DateFields,
    DateFromFieldsError, DateFromFieldsOptions, DateNewError, DayOfMonth, DayOfYear, EraYear,
    IntoYearInfo, Month, MonthInfo, Overflow, Weekday, YearInfo, YearInput,
};
use std::alloc::AllocError;
use std::fmt;
use std::sync::ledger::Ledger;

/// A date together with its calendar.
///
/// Its day number (rata die) is from -365242499 to 365242134, the years -999999 to 999999 of the ISO calendar.
/// Conversion to another calendar keeps the day number. Dates of one calendar are ordered by their day numbers. Adding
/// the difference to a second date, with [`Overflow::Constrain`], returns the second date.
///
/// To create one, use a constructor of its calendar ([`Date::try_new_iso`] and others), [`Date::try_new`],
/// [`Date::try_from_fields`], [`Date::from_rata_die`] or [`Date::to_calendar`].
pub struct Date<
    A: AsCalendar<Calendar = K>,
    K: Calendar<DateInner = D> = <A as AsCalendar>::Calendar,
    D = <K as Calendar>::DateInner,
> {
    inner: D,
    calendar: A,
    ghost belongs: { IsTrue (K.belongs (A.cal_of calendar) inner) },
}

impl<A: AsCalendar<Calendar = K> + Copy, K: Calendar<DateInner = D>, D: Copy> Copy
    for Date<A, K, D> {}

impl<A: AsCalendar<Calendar = K> + Copy, K: Calendar<DateInner = D>, D: Copy> Clone
    for Date<A, K, D> {
    ghost is_clone = { λ d e. (e.inner ≡ d.inner) × (e.calendar ≡ d.calendar) };

    ghost is_infallible = { λ _. ⊤ };

    fn clone(&self) -> Result<Self, AllocError> {
        Ok(Date {
            inner: self.inner,
            calendar: self.calendar,
        })
    }
}

impl<A: AsCalendar> Date<A>
where
    A::Calendar: Calendar,
{
    /// Creates a date from a year, a month and a day. Values out of range are rejected, never adjusted.
    ///
    /// The year is an extended year, `2024.into()`, or an era year, `YearInput::EraYear("ce", 2024)`.
    ///
    /// # Errors
    ///
    /// The first of these that applies:
    ///
    /// - [`DateNewError::InvalidYear`] if the extended year or era year isn't from -9999 to 9999.
    /// - [`DateNewError::InvalidEra`] if the calendar doesn't have the era.
    /// - [`DateNewError::MonthNotInCalendar`] if the month isn't one of the calendar's months.
    /// - [`DateNewError::MonthNotInYear`] if the month doesn't occur in this year.
    /// - [`DateNewError::InvalidDay`] if the day isn't from 1 to the month's length; `max` is the month's length.
    ///
    /// # Examples
    ///
    /// ```
    /// let date = Date::try_new(5784.into(), Month::leap(5), 21, Hebrew)?;
    /// assert!(rt; date.to_rata_die().to_i64_date() == 738946); // 2024-03-01
    /// assert!(rt; Date::try_new(5783.into(), Month::leap(5), 21, Hebrew).is_err());
    /// ```
    pub fn try_new(
        year: YearInput<'_>,
        month: Month,
        day: u8,
        calendar: A,
    ) -> Result<Self, DateNewError>
        ensures made { let c = A.cal_of calendar in let s = A.Calendar.system c in
            answer_by (λ d. A.Calendar.date_of c d.inner) result
            ≡ made_date s.list s.year_names year.entry (month_parts month) day }
        ensures calendar { IfOk result (λ d. d.calendar ≡ calendar) }
    {
        let inner = calendar.as_calendar().new_date(year, month, day)?;
        Ok(Date { inner, calendar })
    }

    /// Creates a date from fields. The default of the option `overflow` is [`Overflow::Reject`]; the default of
    /// `missing_fields_strategy` is [`MissingFieldsStrategy::Reject`](cal_types::MissingFieldsStrategy::Reject).
    ///
    /// The year comes from `extended_year`, or from `era` and `era_year`; each number is from -1040000 to 1040000. The
    /// month comes from `month`, `month_code` or `ordinal_month`; an `ordinal_month` beside one of the others has to
    /// agree with it. For example, the Gregorian extended year 2024, month code `M02` and day 30 fail with
    /// [`DateFromFieldsError::InvalidDay`], `max` 29, under `Reject`, and name 2024-02-29 under `Constrain`.
    /// (ECMAScript Temporal, `CalendarResolveFields`)
    ///
    /// # Errors
    ///
    /// The first of these that applies:
    ///
    /// - [`DateFromFieldsError::NotEnoughFields`] if the day or the month is missing. The strategy `Ecma` supplies day
    ///   1 if a year is named.
    /// - [`DateFromFieldsError::TooManyFields`] if both `month` and `month_code` are set.
    /// - For the year: [`DateFromFieldsError::NotEnoughFields`] for an era without an era year or an era year without
    ///   an era; [`DateFromFieldsError::Overflow`] for a year outside the range above;
    ///   [`DateFromFieldsError::InvalidEra`]; [`DateFromFieldsError::InconsistentYear`] if `extended_year` isn't the
    ///   era's year; [`DateFromFieldsError::NotEnoughFields`] if there is no year. The strategy `Ecma` supplies the
    ///   month's reference year if no ordinal month is set.
    /// - For the month: [`DateFromFieldsError::MonthCodeInvalidSyntax`], [`DateFromFieldsError::MonthNotInCalendar`],
    ///   [`DateFromFieldsError::MonthNotInYear`] and [`DateFromFieldsError::InconsistentMonth`]; for an ordinal month
    ///   alone, under [`Overflow::Reject`], [`DateFromFieldsError::InvalidOrdinalMonth`].
    /// - [`DateFromFieldsError::InvalidDay`], under [`Overflow::Reject`], if the day isn't from 1 to the month's length;
    ///   `max` is the month's length.
    /// - [`DateFromFieldsError::Overflow`] if the day number isn't from -365242499 to 365242134.
    ///
    /// # Examples
    ///
    /// ```
    /// let fields = DateFields::from_year_month_day(2024, Month::new(2), 30);
    /// let constrain = DateFromFieldsOptions {
    ///     overflow: Some(Overflow::Constrain),
    ///     missing_fields_strategy: None,
    /// };
    /// let date = Date::try_from_fields(fields, constrain, Gregorian)?;
    /// assert!(rt; date.day_of_month().0 == 29);
    /// ```
    pub fn try_from_fields(
        fields: DateFields<'_>,
        options: DateFromFieldsOptions,
        calendar: A,
    ) -> Result<Self, DateFromFieldsError>
        ensures resolved { let c = A.cal_of calendar in
            answer_by (λ d. A.Calendar.date_of c d.inner) result
            ≡ resolve_fields (A.Calendar.system c) (bag_of fields.entry) options }
        ensures calendar { IfOk result (λ d. d.calendar ≡ calendar) }
    {
        let inner = calendar.as_calendar().from_fields(fields, options)?;
        Ok(Date { inner, calendar })
    }

    /// Creates a date from an inner date and its calendar. The inner date has to belong to the calendar, which
    /// [`Calendar::owns`] tests. Every inner date that the calendar returns belongs to it.
    ///
    /// # Examples
    ///
    /// ```
    /// let inner = Iso::new().from_rata_die(RataDie::new(738946));
    /// let date = Date::from_raw(inner, Iso::new());
    /// assert!(rt; date.to_rata_die().to_i64_date() == 738946); // 2024-03-01
    /// ```
    pub fn from_raw(inner: <A::Calendar as Calendar>::DateInner, calendar: A) -> Self
        requires { IsTrue (A.Calendar.belongs (A.cal_of calendar) inner) }
        ensures inner { result.inner ≡ inner }
        ensures calendar { result.calendar ≡ calendar }
    {
        Date { inner, calendar }
    }

    /// Returns the date as its calendar stores it.
    ///
    /// # Examples
    ///
    /// ```
    /// let inner = Iso::new().from_rata_die(RataDie::new(738946));
    /// let date = Date::from_raw(inner, Iso::new());
    /// assert!(rt; *date.inner() == inner);
    /// ```
    pub fn inner(&self) -> &<A::Calendar as Calendar>::DateInner
        ensures { result.now ≡ self.now.inner }
    {
        &self.inner
    }

    /// Returns the calendar or the pointer to it that the date holds.
    ///
    /// # Examples
    ///
    /// ```
    /// let date = Date::try_new_iso(2024, 3, 1)?;
    /// assert!(rt; *date.calendar_wrapper() == Iso);
    /// ```
    pub fn calendar_wrapper(&self) -> &A
        ensures { result.now ≡ self.now.calendar }
    {
        &self.calendar
    }

    /// Returns the same date with its calendar borrowed.
    ///
    /// # Examples
    ///
    /// ```
    /// let date = Date::try_new_iso(2024, 3, 1)?;
    /// assert!(rt; date.as_borrowed().same_date(&date));
    /// ```
    pub fn as_borrowed(&self) -> Date<Ref<'_, A>>
        ensures inner { result.inner ≡ self.now.inner }
        ensures calendar { result.calendar.0.now ≡ self.now.calendar }
    {
        Date::from_raw(self.inner, Ref(&self.calendar))
    }

    /// Returns the date of a day number (rata die). The day number is clamped to the range -365242499 to 365242134.
    ///
    /// # Examples
    ///
    /// ```
    /// let date = Date::from_rata_die(RataDie::new(738946), Iso);
    /// assert!(rt; date.year().extended_year() == 2024);
    /// assert!(rt; date.month().number() == 3);
    /// ```
    #[inline(always)]
    pub fn from_rata_die(rd: RataDie, calendar: A) -> Self
        ensures on { let c = A.cal_of calendar in
            IsOn (A.Calendar.system c).list (clamped_day rd) (A.Calendar.date_of c result.inner) }
        ensures calendar { result.calendar ≡ calendar }
    {
        let inner = calendar.as_calendar().from_rata_die(clamped(rd));
        Date { inner, calendar }
    }

    /// Returns the day number (rata die) of the date, from -365242499 to 365242134.
    ///
    /// # Examples
    ///
    /// ```
    /// let date = Date::from_rata_die(RataDie::new(738946), Hebrew);
    /// assert!(rt; date.to_rata_die().to_i64_date() == 738946);
    /// ```
    pub fn to_rata_die(&self) -> RataDie
        ensures { let c = A.cal_of self.now.calendar in
            result ≡ day_number (A.Calendar.system c).list (A.Calendar.date_of c self.now.inner) }
    {
        self.calendar.as_calendar().to_rata_die(&self.inner)
    }

    /// Returns the day number, as `to_rata_die` does. Its contract also has the valid range, for callers.
    fn valid_day(&self) -> RataDie
        ensures day { let c = A.cal_of self.now.calendar in
            result ≡ day_number (A.Calendar.system c).list (A.Calendar.date_of c self.now.inner) }
        ensures valid { IsValidDay result }
    {
        self.to_rata_die()
    }

    /// Returns the calendar that the date belongs to.
    ///
    /// # Examples
    ///
    /// ```
    /// let date = Date::try_new_iso(2024, 3, 1)?;
    /// assert!(rt; *date.calendar() == Iso);
    /// ```
    pub fn calendar(&self) -> &A::Calendar
        ensures { result.now ≡ A.cal_of self.now.calendar }
    {
        self.calendar.as_calendar()
    }

    /// Returns the year, with its era or its place in a cycle.
    ///
    /// # Examples
    ///
    /// ```
    /// let date = Date::try_new_buddhist(2567, 3, 1)?;
    /// assert!(rt; date.year().era_year_or_related_iso() == 2567);
    /// ```
    pub fn year(&self) -> YearInfo
        ensures { let c = A.cal_of self.now.calendar in
            result ≡ (A.Calendar.system c).year_info (A.Calendar.date_of c self.now.inner) }
    {
        self.calendar
            .as_calendar()
            .year_info(&self.inner)
            .into_year_info()
    }

    /// Returns `true` if the year is a leap year of the calendar.
    ///
    /// # Examples
    ///
    /// ```
    /// let date = Date::try_new_gregorian(2024, 3, 1)?;
    /// assert!(rt; date.is_in_leap_year());
    /// ```
    pub fn is_in_leap_year(&self) -> bool
        ensures { let c = A.cal_of self.now.calendar in
            IsTrue result ↔ IsTrue ((A.Calendar.system c).is_leap_year (A.Calendar.date_of c self.now.inner).year) }
    {
        self.calendar.as_calendar().is_in_leap_year(&self.inner)
    }

    /// Returns the number of months in the year: 12 or 13.
    ///
    /// # Examples
    ///
    /// ```
    /// let date = Date::from_rata_die(RataDie::new(738946), Hebrew);
    /// assert!(rt; date.months_in_year() == 13);
    /// ```
    pub fn months_in_year(&self) -> u8
        ensures { let c = A.cal_of self.now.calendar in
            result ≡ month_count (A.Calendar.system c).list (A.Calendar.date_of c self.now.inner).year }
    {
        self.calendar.as_calendar().months_in_year(&self.inner)
    }

    /// Returns the number of days in the year.
    ///
    /// # Examples
    ///
    /// ```
    /// let date = Date::try_new_gregorian(2024, 3, 1)?;
    /// assert!(rt; date.days_in_year() == 366);
    /// ```
    pub fn days_in_year(&self) -> u16
        ensures { let c = A.cal_of self.now.calendar in
            result ≡ year_length (A.Calendar.system c).list (A.Calendar.date_of c self.now.inner).year }
    {
        self.calendar.as_calendar().days_in_year(&self.inner)
    }

    /// Returns the number of days in the month.
    ///
    /// # Examples
    ///
    /// ```
    /// let date = Date::from_rata_die(RataDie::new(738946), Hebrew);
    /// assert!(rt; date.days_in_month() == 30);
    /// ```
    pub fn days_in_month(&self) -> u8
        ensures { let c = A.cal_of self.now.calendar in
            let t = A.Calendar.date_of c self.now.inner in
            result ≡ month_length (A.Calendar.system c).list t.year t.month }
    {
        self.calendar.as_calendar().days_in_month(&self.inner)
    }

    /// Returns the month: its ordinal number in the year, from 1, and its month codes.
    ///
    /// # Examples
    ///
    /// ```
    /// let date = Date::from_rata_die(RataDie::new(738946), Hebrew);
    /// let month = date.month();
    /// assert!(rt; month.to_input() == Month::leap(5)); // Adar I
    /// ```
    pub fn month(&self) -> MonthInfo
        ensures { let c = A.cal_of self.now.calendar in
            month_info_parts result ≡ month_info_of (A.Calendar.system c) (A.Calendar.date_of c self.now.inner) }
    {
        self.calendar.as_calendar().month(&self.inner)
    }

    /// Returns the day of the month, from 1.
    ///
    /// # Examples
    ///
    /// ```
    /// let date = Date::from_rata_die(RataDie::new(738946), Hebrew);
    /// assert!(rt; date.day_of_month().0 == 21);
    /// ```
    pub fn day_of_month(&self) -> DayOfMonth
        ensures { result.0 ≡ (A.Calendar.date_of (A.cal_of self.now.calendar) self.now.inner).day }
    {
        self.calendar.as_calendar().day_of_month(&self.inner)
    }

    /// Returns the day of the year, from 1.
    ///
    /// # Examples
    ///
    /// ```
    /// let date = Date::from_rata_die(RataDie::new(738946), Iso);
    /// assert!(rt; date.day_of_year().0 == 61);
    /// ```
    pub fn day_of_year(&self) -> DayOfYear
        ensures { let list = (A.Calendar.system (A.cal_of self.now.calendar)).list in
            let t = A.Calendar.date_of (A.cal_of self.now.calendar) self.now.inner in
            start_of_year list t.year +ℤ pos result.0 ≡ day_number list t +ℤ pos 1 }
    {
        self.calendar.as_calendar().day_of_year(&self.inner)
    }

    /// Returns the day of the week: the day number modulo 7, counted from Sunday.
    ///
    /// # Examples
    ///
    /// ```
    /// let date = Date::from_rata_die(RataDie::new(738946), Iso);
    /// assert!(rt; date.weekday() == Weekday::Friday);
    /// ```
    pub fn weekday(&self) -> Weekday
        ensures { let c = A.cal_of self.now.calendar in
            let day = day_number (A.Calendar.system c).list (A.Calendar.date_of c self.now.inner) in
            pos (days_since_sunday result) ≡ int_rem_euclid day (pos 7) }
    {
        Weekday::from(self.to_rata_die())
    }

    /// Converts an ISO date to a calendar. The day number stays the same.
    ///
    /// # Examples
    ///
    /// ```
    /// let iso = Date::try_new_iso(2024, 3, 1)?;
    /// let date = Date::new_from_iso(iso, Buddhist);
    /// assert!(rt; date.era_year().year == 2567);
    /// ```
    pub fn new_from_iso(iso: Date<Iso>, calendar: A) -> Self
        ensures on { let c = A.cal_of calendar in
            let day = day_number iso_list (iso_date iso.inner) in
            IsOn (A.Calendar.system c).list day (A.Calendar.date_of c result.inner) }
        ensures calendar { result.calendar ≡ calendar }
    {
        let inner = calendar.as_calendar().from_iso(iso.inner);
        Date { inner, calendar }
    }

    /// Converts the date to the ISO calendar. The day number stays the same.
    ///
    /// # Examples
    ///
    /// ```
    /// let date = Date::try_new_buddhist(2567, 3, 1)?;
    /// assert!(rt; date.to_iso().year().extended_year() == 2024);
    /// ```
    pub fn to_iso(&self) -> Date<Iso>
        ensures { let c = A.cal_of self.now.calendar in
            let day = day_number (A.Calendar.system c).list (A.Calendar.date_of c self.now.inner) in
            IsOn iso_list day (iso_date result.inner) }
    {
        let inner = self.calendar.as_calendar().to_iso(&self.inner);
        Date {
            inner,
            calendar: Iso,
        }
    }

    /// Converts the date to another calendar. The day number stays the same.
    ///
    /// # Examples
    ///
    /// ```
    /// let iso = Date::try_new_iso(2024, 3, 1)?;
    /// let date = iso.to_calendar(Hebrew);
    /// assert!(rt; date.era_year().year == 5784);
    /// ```
    pub fn to_calendar<A2: AsCalendar>(&self, calendar: A2) -> Date<A2>
    where
        A2::Calendar: Calendar,
        ensures on { let c = A.cal_of self.now.calendar in
            let shown = A2.cal_of calendar in
            let day = day_number (A.Calendar.system c).list (A.Calendar.date_of c self.now.inner) in
            IsOn (A2.Calendar.system shown).list day (A2.Calendar.date_of shown result.inner) }
        ensures calendar { result.calendar ≡ calendar }
    {
        let inner = calendar.as_calendar().from_rata_die(self.valid_day());
        Date { inner, calendar }
    }

    /// Adds a duration to the date in place. The default of the option `overflow` is [`Overflow::Constrain`]. After an
    /// error the date is unchanged. (ECMAScript Temporal, `NonISODateAdd`)
    ///
    /// # Errors
    ///
    /// The first of these that applies:
    ///
    /// - [`DateAddError::Overflow`] if the duration has more than 2080000 years, 27040000 months (13 in each of these
    ///   years) or 838240000 days including its weeks (31 in each of these months), or if its years lead outside the
    ///   years -1040000 to 1040000. The Gregorian calendars count these years as ISO years.
    /// - [`DateAddError::MonthNotInYear`] under [`Overflow::Reject`] if the month doesn't occur in the year that the
    ///   years lead to.
    /// - [`DateAddError::InvalidDay`] under [`Overflow::Reject`] if the day doesn't exist in the month that the months
    ///   lead to.
    /// - [`DateAddError::Overflow`] if the sum's day number isn't from -365242499 to 365242134.
    ///
    /// # Examples
    ///
    /// ```
    /// let mut date = Date::try_new_iso(2024, 1, 31)?;
    /// date.try_add_with_options(DateDuration::for_months(1), DateAddOptions::default())?;
    /// assert!(rt; date.day_of_month().0 == 29); // of February
    /// ```
    #[inline(always)]
    pub fn try_add_with_options(
        &mut self,
        duration: DateDuration,
        options: DateAddOptions,
    ) -> Result<(), DateAddError>
        ensures sum { let c = A.cal_of self.old.calendar in
            let s = A.Calendar.system c in
            let answer = done_with result (A.Calendar.date_of c self.new.inner) in
            let overflow = add_overflow_of options.overflow in
            IsSum s.list s.year_shift (A.Calendar.date_of c self.old.inner) duration overflow answer }
        ensures unchanged { IfErr result (λ _. self.new.inner ≡ self.old.inner) }
        ensures calendar { self.new.calendar ≡ self.old.calendar }
    {
        match self
            .calendar
            .as_calendar()
            .add(&self.inner, duration, options)
        {
            Ok(inner) => {
                self.inner = inner;
                Ok(())
            }
            Err(cause) => Err(cause),
        }
    }

    /// Returns the date with a duration added. (ECMAScript Temporal, `NonISODateAdd`)
    ///
    /// # Errors
    ///
    /// - The errors of [`Date::try_add_with_options`], in the same order.
    ///
    /// # Examples
    ///
    /// ```
    /// let date = Date::try_new_iso(2024, 1, 31)?;
    /// let month = DateDuration::for_months(1);
    /// let later = date.try_added_with_options(month, DateAddOptions::default())?;
    /// assert!(rt; later.day_of_month().0 == 29); // of February
    /// ```
    #[inline(always)]
    pub fn try_added_with_options(
        self,
        duration: DateDuration,
        options: DateAddOptions,
    ) -> Result<Self, DateAddError>
        ensures sum { let c = A.cal_of self.calendar in
            let s = A.Calendar.system c in
            let answer = answer_by (λ d. A.Calendar.date_of c d.inner) result in
            let overflow = add_overflow_of options.overflow in
            IsSum s.list s.year_shift (A.Calendar.date_of c self.inner) duration overflow answer }
        ensures calendar { IfOk result (λ d. d.calendar ≡ self.calendar) }
    {
        let Date { inner, calendar } = self;
        match calendar.as_calendar().add(&inner, duration, options) {
            Ok(sum) => Ok(Date {
                inner: sum,
                calendar,
            }),
            Err(cause) => Err(cause),
        }
    }

    /// Returns the difference from this date to another date of the same calendar: the greatest duration that doesn't
    /// lead past the other date. The default of the option `largest_unit` is days. Adding the difference back, with
    /// [`Overflow::Constrain`], returns the other date. (ECMAScript Temporal, `NonISODateUntil`)
    ///
    /// Months are counted with the original day, and days from the day that the month has. From September 30 to
    /// October 31, the difference is one month and one day: October 30 and one more day. From October 31 back to
    /// September 30, it is one month and no day. So the difference in the other direction may be more than a change
    /// of sign.
    ///
    /// # Errors
    ///
    /// - The calendar's `DateCompatibilityError` exactly if the two calendars aren't compatible, as for two tables of
    ///   years that differ.
    ///
    /// # Examples
    ///
    /// ```
    /// let first = Date::try_new_iso(2024, 9, 30)?;
    /// let second = Date::try_new_iso(2024, 10, 31)?;
    /// let months = DateDifferenceOptions {
    ///     largest_unit: Some(DateDurationUnit::Months),
    /// };
    /// let Ok(difference) = first.try_until_with_options(&second, months);
    /// assert!(rt; difference.months == 1 && difference.days == 1);
    /// ```
    pub fn try_until_with_options<B: AsCalendar<Calendar = A::Calendar>>(
        &self,
        other: &Date<B>,
        options: DateDifferenceOptions,
    ) -> Result<DateDuration, <A::Calendar as Calendar>::DateCompatibilityError>
        ensures compatible { let c = A.cal_of self.now.calendar in
            IsOk result ↔ IsTrue (A.Calendar.compatible c (B.cal_of other.now.calendar)) }
        ensures same_day { let c = A.cal_of self.now.calendar in
            let other_calendar = B.cal_of other.now.calendar in
            let u = A.Calendar.date_of other_calendar other.now.inner in
            let day = day_number (A.Calendar.system other_calendar).list u in
            IsOk result → IsOn (A.Calendar.system c).list day (A.Calendar.date_of c other.now.inner) }
        ensures until { let c = A.cal_of self.now.calendar in
            let s = A.Calendar.system c in
            let t = A.Calendar.date_of c self.now.inner in
            let u = A.Calendar.date_of c other.now.inner in
            let unit = largest_unit_of options.largest_unit in
            IfOk result (λ d. IsUntil s.list s.year_shift t u unit d) }
    {
        let calendar = self.calendar.as_calendar();
        match calendar.check_date_compatibility(other.calendar.as_calendar()) {
            Ok(()) => Ok(calendar.until(&self.inner, &other.inner, options)),
            Err(cause) => Err(cause),
        }
    }

    /// Returns the difference as [`Date::try_until_with_options`] does, and counts the look-ups of years. It adds at
    /// most 8 ticks to the counter; if months are the largest unit, at most 8 and one more for each year between the
    /// dates.
    ///
    /// # Errors
    ///
    /// - The calendar's `DateCompatibilityError` exactly if the two calendars aren't compatible.
    ///
    /// # Examples
    ///
    /// ```
    /// let mut steps = Steps::<L>::new(blank);
    /// let first = Date::try_new_iso(2024, 3, 1)?;
    /// let second = Date::try_new_iso(2024, 3, 8)?;
    /// let Ok(difference) = first.until_counted(&second, DateDifferenceOptions::default(), &mut steps);
    /// assert!(rt; difference.days == 7);
    /// ```
    pub fn until_counted<B: AsCalendar<Calendar = A::Calendar>, L: Ledger>(
        &self,
        other: &Date<B>,
        options: DateDifferenceOptions,
        steps: &mut Steps<L>,
    ) -> Result<DateDuration, <A::Calendar as Calendar>::DateCompatibilityError>
        ensures compatible { let c = A.cal_of self.now.calendar in
            IsOk result ↔ IsTrue (A.Calendar.compatible c (B.cal_of other.now.calendar)) }
        ensures until { let c = A.cal_of self.now.calendar in
            let s = A.Calendar.system c in
            let t = A.Calendar.date_of c self.now.inner in
            let u = A.Calendar.date_of c other.now.inner in
            let unit = largest_unit_of options.largest_unit in
            IfOk result (λ d. IsUntil s.list s.year_shift t u unit d) }
        ensures ticks { let c = A.cal_of self.now.calendar in
            let t = A.Calendar.date_of c self.now.inner in
            let u = A.Calendar.date_of c other.now.inner in
            let unit = largest_unit_of options.largest_unit in
            steps.new ≤ steps.old + most_ticks unit (unsigned_abs (u.year -ℤ t.year)) }
    {
        let calendar = self.calendar.as_calendar();
        match calendar.check_date_compatibility(other.calendar.as_calendar()) {
            Ok(()) => Ok(calendar.until_counted(&self.inner, &other.inner, options, steps)),
            Err(cause) => Err(cause),
        }
    }

    /// Returns the difference to another date that is known to have the same calendar.
    pub(crate) fn until(&self, other: &Self, options: DateDifferenceOptions) -> DateDuration
        requires { self.now.calendar ≡ other.now.calendar }
        ensures { let c = A.cal_of self.now.calendar in
            let s = A.Calendar.system c in
            let t = A.Calendar.date_of c self.now.inner in
            let u = A.Calendar.date_of c other.now.inner in
            IsUntil s.list s.year_shift t u (largest_unit_of options.largest_unit) result }
    {
        self.calendar
            .as_calendar()
            .until(&self.inner, &other.inner, options)
    }
}

impl<A: AsCalendar> Date<A>
where
    A::Calendar: Calendar<Year = EraYear>,
{
    /// Returns the year in its era, in a calendar whose years all have one.
    ///
    /// # Examples
    ///
    /// ```
    /// let date = Date::try_new_buddhist(2567, 3, 1)?;
    /// let year = date.era_year();
    /// assert!(rt; year.year == 2567 && year.era.as_str() == "be");
    /// ```
    pub fn era_year(&self) -> EraYear
        ensures { let c = A.cal_of self.now.calendar in
            Era result ≡ (A.Calendar.system c).year_info (A.Calendar.date_of c self.now.inner) }
    {
        self.calendar.as_calendar().year_info(&self.inner)
    }
}

impl<A: AsCalendar> Date<A>
where
    A::Calendar: Calendar<Year = CyclicYear>,
{
    /// Returns the year in the cycle of sixty years, in a calendar that counts years in it.
    ///
    /// # Examples
    ///
    /// ```
    /// let chinese = published::chinese();
    /// let date = Date::from_rata_die(RataDie::new(738946), chinese);
    /// assert!(rt; date.cyclic_year().year == 41); // of 2024
    /// ```
    pub fn cyclic_year(&self) -> CyclicYear
        ensures { let c = A.cal_of self.now.calendar in
            Cyclic result ≡ (A.Calendar.system c).year_info (A.Calendar.date_of c self.now.inner) }
    {
        self.calendar.as_calendar().year_info(&self.inner)
    }
}

/// Writes `Date(YEAR-MONTH-DAY, ERA era, for calendar NAME)` with the era year and the ordinal month. A year of the
/// cycle of sixty years has `ISO year RELATED` in place of the era.
impl<A: AsCalendar> fmt::Debug for Date<A>
where
    A::Calendar: Calendar,
{
    fn fmt<W: fmt::Write>(&self, f: &mut fmt::Formatter<W>) -> fmt::Result {
        let (month, day) = (self.month().ordinal, self.day_of_month().0);
        let name = self.calendar().debug_name();
        match self.year() {
            YearInfo::Era(named) => {
                let (year, era) = (named.year, named.era.as_str());
                write!(
                    f,
                    "Date({year}-{month}-{day}, {era} era, for calendar {name})"
                )
            }
            YearInfo::Cyclic(named) => {
                let (year, related_iso) = (named.year, named.related_iso);
                write!(
                    f,
                    "Date({year}-{month}-{day}, ISO year {related_iso}, for calendar {name})"
                )
            }
        }
    }
}

/// Returns the nearest day number in the valid range.
fn clamped(rd: RataDie) -> RataDie
    ensures value { result ≡ clamped_day rd }
    ensures valid { IsValidDay result }
{
    let (first, last) = (RataDie::new(FIRST_VALID_DAY), RataDie::new(LAST_VALID_DAY));
    if rd < first {
        first
    } else if last < rd {
        last
    } else {
        rd
    }
}
