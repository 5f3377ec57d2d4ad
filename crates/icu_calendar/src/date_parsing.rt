//! Dates from RFC 9557 texts and from records of their parts.

ghost use Rattle.std.specs.Prelude.{◌≡◌, IfOk, option_map};
ghost use Rattle.std.specs.Result.{result_map_both};
ghost use Rattle.cal_types.specs.CalendarList.{day_number};
ghost use Rattle.cal_errors.specs.Algorithm.{algorithm_named};
ghost use Rattle.icu_calendar.specs.RecordDates.{AnswersText, IsShownIn, calendar_fault, other_name, parse_fault, record_date, record_parts};

use crate::date::Date;
use crate::date_text::read;
use crate::ixdtf_record::IxdtfRecord;
use crate::record_dates::record_day;
use cal_base::{AsCalendar, Calendar, Iso};
use cal_days::RataDie;
use cal_types::{CalendarAlgorithm, ParseError};
use std::str::FromStr;

/// Returns the error for a name that isn't the expected one.
fn other_name(expected: CalendarAlgorithm, name: &[u8]) -> ParseError
    ensures { parse_fault result ≡ other_name expected (algorithm_named name.now) }
{
    match CalendarAlgorithm::from_name(name) {
        Some(found) => ParseError::MismatchedCalendar(expected, found),
        None => ParseError::UnknownCalendar,
    }
}

/// Returns the error for the name in a record, if a calendar with this algorithm doesn't accept the name.
fn name_fault(algorithm: Option<CalendarAlgorithm>, name: Option<&[u8]>) -> Option<ParseError>
    ensures { option_map parse_fault result ≡ calendar_fault algorithm (option_map (λ n. n.now) name.entry) }
{
    let (Some(expected), Some(name)) = (algorithm, name) else {
        return None;
    };
    if name == expected.as_str().as_bytes() {
        None
    } else {
        Some(other_name(expected, name))
    }
}

impl<A: AsCalendar> Date<A>
where
    A::Calendar: Calendar,
{
    /// Creates a date of a calendar from an RFC 9557 text, which names an ISO date. [`Date::try_from_utf8`] describes
    /// the form of the text.
    ///
    /// # Errors
    ///
    /// - The errors of [`Date::try_from_utf8`], in the same order.
    ///
    /// # Examples
    ///
    /// ```
    /// let date = Date::try_from_str("2024-03-01[u-ca=hebrew]", Hebrew)?;
    /// assert!(rt; date.era_year().year == 5784);
    /// ```
    pub fn try_from_str(rfc_9557_str: &str, calendar: A) -> Result<Self, ParseError>
        ensures read { let c = A.cal_of calendar in
            let answer = result_map_both (λ d. A.Calendar.date_of c d.inner) parse_fault result in
            AnswersText (A.Calendar.system c).list (A.Calendar.algorithm c) rfc_9557_str.now answer }
        ensures calendar { IfOk result (λ d. d.calendar ≡ calendar) }
    {
        Date::try_from_utf8(rfc_9557_str.as_bytes(), calendar)
    }

    /// Creates a date of a calendar from an RFC 9557 text, which names an ISO date.
    ///
    /// The text is a date such as `2024-03-01`. Its year has four digits, or a sign and six digits (`-000044-03-15`).
    /// The calendar's name may follow, as `[u-ca=hebrew]` or, marked critical, `[!u-ca=hebrew]`. This is a part of RFC
    /// 9557: times, offsets and other annotations are rejected.
    ///
    /// # Errors
    ///
    /// The first of these that applies:
    ///
    /// - [`ParseError::Syntax`] if the text has another form, the year is `-000000`, the month isn't from 1 to 12, or
    ///   the day isn't from 1 to the month's length.
    /// - [`ParseError::MismatchedCalendar`] if the name belongs to another calendar than the requested one.
    /// - [`ParseError::UnknownCalendar`] if no calendar has the name. A calendar without a name of its own
    ///   ([`Calendar::calendar_algorithm`]) accepts any name.
    ///
    /// # Examples
    ///
    /// ```
    /// let date = Date::try_from_utf8(b"2024-03-01", Iso)?;
    /// assert!(rt; date.to_rata_die().to_i64_date() == 738946);
    /// ```
    pub fn try_from_utf8(rfc_9557_str: &[u8], calendar: A) -> Result<Self, ParseError>
        ensures read { let c = A.cal_of calendar in
            let answer = result_map_both (λ d. A.Calendar.date_of c d.inner) parse_fault result in
            AnswersText (A.Calendar.system c).list (A.Calendar.algorithm c) rfc_9557_str.now answer }
        ensures calendar { IfOk result (λ d. d.calendar ≡ calendar) }
    {
        match read(rfc_9557_str) {
            Some(record) => Date::try_from_ixdtf_record(&record, calendar),
            None => Err(ParseError::Syntax),
        }
    }

    /// Creates a date of a calendar from a record, which names an ISO date.
    ///
    /// # Errors
    ///
    /// The first of these that applies:
    ///
    /// - [`ParseError::MissingFields`] if the record has no date.
    /// - [`ParseError::MismatchedCalendar`] or [`ParseError::UnknownCalendar`] if the record names another calendar, as
    ///   in [`Date::try_from_utf8`].
    /// - [`ParseError::Range`] if the year isn't from -999999 to 999999, the month isn't from 1 to 12, or the day isn't
    ///   from 1 to the month's length.
    ///
    /// # Examples
    ///
    /// ```
    /// let date = Some(DateRecord {
    ///     year: 2024,
    ///     month: 3,
    ///     day: 1,
    /// });
    /// let calendar = None;
    /// let record = IxdtfRecord { date, calendar };
    /// let date = Date::try_from_ixdtf_record(&record, Hebrew)?;
    /// assert!(rt; date.era_year().year == 5784);
    /// ```
    pub fn try_from_ixdtf_record(
        ixdtf_record: &IxdtfRecord<'_>,
        calendar: A,
    ) -> Result<Self, ParseError>
        ensures date { let c = A.cal_of calendar in
            let answer = result_map_both (λ d. A.Calendar.date_of c d.inner) parse_fault result in
            let iso = record_date (A.Calendar.algorithm c) (record_parts ixdtf_record.now) in
            IsShownIn (A.Calendar.system c).list iso answer }
        ensures calendar { IfOk result (λ d. d.calendar ≡ calendar) }
    {
        match Date::try_from_ixdtf_record_with_rd(ixdtf_record, calendar) {
            Ok((date, _)) => Ok(date),
            Err(cause) => Err(cause),
        }
    }

    /// Creates a date from a record, as [`Date::try_from_ixdtf_record`], and returns it with its day number.
    ///
    /// # Errors
    ///
    /// - The errors of [`Date::try_from_ixdtf_record`], in the same order.
    ///
    /// # Examples
    ///
    /// ```
    /// let date = Some(DateRecord {
    ///     year: 2024,
    ///     month: 3,
    ///     day: 1,
    /// });
    /// let calendar = None;
    /// let record = IxdtfRecord { date, calendar };
    /// match Date::try_from_ixdtf_record_with_rd(&record, Hebrew) {
    ///     Ok((date, rd)) => {
    ///         assert!(rt; rd.to_i64_date() == 738946);
    ///         assert!(rt; date.era_year().year == 5784);
    ///     }
    ///     Err(_) => assert!(rt; false),
    /// }
    /// ```
    pub fn try_from_ixdtf_record_with_rd(
        ixdtf_record: &IxdtfRecord<'_>,
        calendar: A,
    ) -> Result<(Self, RataDie), ParseError>
        ensures date { let c = A.cal_of calendar in
            let answer = result_map_both (λ d. A.Calendar.date_of c d.0.inner) parse_fault result in
            let iso = record_date (A.Calendar.algorithm c) (record_parts ixdtf_record.now) in
            IsShownIn (A.Calendar.system c).list iso answer }
        ensures rd { let c = A.cal_of calendar in
            IfOk result (λ d. d.1 ≡ day_number (A.Calendar.system c).list (A.Calendar.date_of c d.0.inner)) }
        ensures calendar { IfOk result (λ d. d.0.calendar ≡ calendar) }
    {
        let Some(date) = ixdtf_record.date else {
            return Err(ParseError::MissingFields);
        };
        let algorithm = calendar.as_calendar().calendar_algorithm();
        if let Some(fault) = name_fault(algorithm, ixdtf_record.calendar) {
            return Err(fault);
        }
        match record_day(date) {
            Ok(rd) => Ok((Date::from_rata_die(rd, calendar), rd)),
            Err(cause) => Err(ParseError::Range(cause)),
        }
    }
}

/// Reads a date as [`Date::try_from_str`] does.
impl FromStr for Date<Iso> {
    ghost use Rattle.std.specs.Prelude.{None};
    ghost use Rattle.std.specs.Result.{result_map_both};
    ghost use Rattle.cal_base.specs.IsoSystem.{iso_date, iso_list};
    ghost use Rattle.icu_calendar.specs.RecordDates.{AnswersText, parse_fault};

    type Err = ParseError;

    ghost from_str_gives = { λ text r.
        AnswersText iso_list None text (result_map_both (λ d. iso_date d.inner) parse_fault r) };

    fn from_str(s: &str) -> Result<Self, ParseError> {
        Date::try_from_str(s, Iso)
    }
}
