//! Differences of two bags in each unit, and the first fault of two bags.

ghost use Rattle.cal_days.specs.Day.{IsValidDay};

use calspan_run::{TwoDays, name_dates, show_days};
use icu_calendar::{
    AnyCalendar, AnyCalendarKind, AsCalendar, BagSide, Calendar, Date, DateDifferenceOptions,
    DateDuration, DateDurationUnit, DateFromFieldsError, DateFromFieldsOptions, Overflow, Span,
    SpanError, Tables, named_dates, span,
};
use reply_texts::{DayParts, SpanParts};
use std::process::Abort;
use test_dates::{
    GREGORIAN, IN_DAYS, ISO, JULIAN, REJECT, calendar_of, date_named, duration, fields, has_parts,
    is_named, number_of, parts_in,
};

/// A year, a month and a day.
type Ymd = (i32, u8, u8);

const LEAP_DAY: Ymd = (2020, 2, 29);

const YEAR_LATER: Ymd = (2021, 2, 28);

const FIRST: Ymd = (-999999, 1, 1);

const LAST: Ymd = (999999, 12, 31);

/// The span of two dates of a calendar, which are shown in another.
fn span_of(
    (from, to): (Ymd, Ymd),
    options: DateFromFieldsOptions,
    difference: DateDifferenceOptions,
    calendar: AnyCalendarKind,
    shown: AnyCalendarKind,
) -> Result<Span<'static>, SpanError> {
    span(
        fields(from.0, from.1, from.2),
        fields(to.0, to.1, to.2),
        options,
        difference,
        calendar_of(calendar),
        calendar_of(shown),
    )
}

/// The span of two dates that have one.
fn span_found(
    rt: &impl Abort,
    dates: (Ymd, Ymd),
    options: DateFromFieldsOptions,
    difference: DateDifferenceOptions,
    (calendar, shown): (AnyCalendarKind, AnyCalendarKind),
) -> Span<'static> {
    span_of(dates, options, difference, calendar, shown).expect(rt, "no span")
}

/// The span of two ISO dates, where each fault is an error.
fn iso_span(
    from: Ymd,
    to: Ymd,
    difference: DateDifferenceOptions,
) -> Result<Span<'static>, SpanError> {
    span_of((from, to), REJECT, difference, ISO, ISO)
}

/// Whether a date is shown as the same day, in this ISO year.
fn is_shown(date: &Date<AnyCalendar<'_>>, shown: &Date<AnyCalendar<'_>>, year: i32) -> bool {
    number_of(date) == number_of(shown) && is_named(shown, year, "default", year)
}

/// Whether a span of two ISO dates is this long, and shows both.
fn is_span(found: &Span<'_>, (from, to): (i32, i32), want: DateDuration) -> bool {
    found.duration == want
        && is_shown(&found.from, &found.from_shown, from)
        && is_shown(&found.to, &found.to_shown, to)
}

/// That the span of two ISO dates is this long, and shows both.
fn assert_span(
    rt: &impl Abort,
    (from, to): (Ymd, Ymd),
    difference: DateDifferenceOptions,
    want: DateDuration,
) {
    let found = span_found(rt, (from, to), REJECT, difference, (ISO, ISO));
    assert!(rt;
        is_span(&found, (from.0, to.0), want),
        "from {} to {}",
        from.0,
        to.0
    );
}

#[test]
fn span_has_the_days_and_both_dates(rt: HostRuntime) {
    for &(from, to, is_negative, days) in &[
        (LEAP_DAY, YEAR_LATER, false, 365),
        (YEAR_LATER, LEAP_DAY, true, 365),
        ((1, 1, 1), (2022, 1, 1), false, 738155),
        (FIRST, LAST, false, 730484633),
    ] {
        let want = duration(is_negative, 0, 0, 0, days);
        assert_span(&rt, (from, to), IN_DAYS, want);
    }
}

/// The two dates that two bags name in a calendar, and the days between them.
fn named_in<A: AsCalendar + Copy>(
    from: Ymd,
    to: Ymd,
    calendar: A,
) -> Result<(Ymd, Ymd, DateDuration), DateFromFieldsError>
where
    A::Calendar: Calendar,
{
    let (first, second) = (fields(from.0, from.1, from.2), fields(to.0, to.1, to.2));
    match named_dates(first, second, REJECT, calendar) {
        Ok(dates) => Ok((
            parts_in(dates.from()),
            parts_in(dates.to()),
            dates.duration(IN_DAYS),
        )),
        Err(fault) => Err(fault.cause),
    }
}

#[test]
fn two_bags_name_two_dates_of_a_calendar(rt: HostRuntime) {
    match named_in(LEAP_DAY, YEAR_LATER, calendar_of(GREGORIAN)) {
        Ok(found) => {
            let days = duration(false, 0, 0, 0, 365);
            assert!(rt; found == (LEAP_DAY, YEAR_LATER, days));
        }
        Err(cause) => assert!(rt; false, "{cause}"),
    }
}

/// Whether parts are those of a day of an extended year and a month.
fn is_day(parts: &DayParts, (year, month, day): Ymd) -> bool {
    parts.year.extended_year() == year && parts.month.number() == month && parts.day == day
}

/// Whether parts are those of two days and of the difference between them.
fn are_days(parts: &SpanParts, from: Ymd, to: Ymd, between: DateDuration) -> bool {
    is_day(&parts.from, from) && is_day(&parts.to, to) && parts.duration == between
}

/// Whether the same two days have these dates in the Julian calendar.
fn are_in_julian(parts: &SpanParts, from: Ymd, to: Ymd) -> bool
    requires from { IsValidDay parts.now.from.rata_die }
    requires to { IsValidDay parts.now.to.rata_die }
{
    let mut days = TwoDays {
        from: DayParts::unnamed(parts.from.rata_die),
        to: DayParts::unnamed(parts.to.rata_die),
    };
    show_days(&mut days, JULIAN, &Tables::none());
    is_day(&days.from, from) && is_day(&days.to, to)
}

#[test]
fn parts_of_two_named_days_are_shown_in_another_calendar(rt: HostRuntime) {
    let (from, to) = (fields(2020, 2, 29), fields(2021, 2, 28));
    let between = duration(false, 0, 0, 0, 365);
    let mut parts = SpanParts::unnamed();
    match name_dates(
        &mut parts,
        GREGORIAN,
        &Tables::none(),
        &from,
        &to,
        REJECT,
        IN_DAYS,
    ) {
        Ok(()) => {
            assert!(rt; are_days(&parts, LEAP_DAY, YEAR_LATER, between));
            assert!(rt; are_in_julian(&parts, (2020, 2, 16), (2021, 2, 15)));
        }
        Err(fault) => assert!(rt; false, "{}", fault.cause),
    }
}

#[test]
fn spans_are_counted_in_each_unit(rt: HostRuntime) {
    use DateDurationUnit::{Days, Months, Weeks, Years};
    for &(from, to, largest_unit, (is_negative, years, months, weeks, days)) in &[
        (LEAP_DAY, YEAR_LATER, Some(Years), (false, 0, 11, 0, 30)),
        (LEAP_DAY, YEAR_LATER, Some(Months), (false, 0, 11, 0, 30)),
        (LEAP_DAY, YEAR_LATER, Some(Weeks), (false, 0, 0, 52, 1)),
        (LEAP_DAY, YEAR_LATER, Some(Days), (false, 0, 0, 0, 365)),
        (LEAP_DAY, YEAR_LATER, None, (false, 0, 0, 0, 365)),
        (YEAR_LATER, LEAP_DAY, Some(Years), (true, 0, 11, 0, 28)),
        (
            (2021, 1, 31),
            YEAR_LATER,
            Some(Months),
            (false, 0, 0, 0, 28),
        ),
        (FIRST, LAST, Some(Years), (false, 1999998, 11, 0, 30)),
    ] {
        let want = duration(is_negative, years, months, weeks, days);
        assert_span(
            &rt,
            (from, to),
            DateDifferenceOptions { largest_unit },
            want,
        );
    }
}

/// Whether a span is from the last day of February 2021, which is shown in the Julian calendar, to that of January.
fn is_constrained(found: &Span<'_>) -> bool {
    has_parts(&found.from, 737849, 2021, 2, 28)
        && has_parts(&found.from_shown, 737849, 2021, 2, 15)
        && has_parts(&found.to, 737821, 2021, 1, 31)
        && found.duration == duration(true, 0, 0, 0, 28)
}

#[test]
fn a_day_past_its_month_is_constrained(rt: HostRuntime) {
    let constrain = DateFromFieldsOptions {
        overflow: Some(Overflow::Constrain),
        missing_fields_strategy: None,
    };
    let dates = ((2021, 2, 31), (2021, 1, 31));
    let found = span_found(&rt, dates, constrain, IN_DAYS, (ISO, JULIAN));
    assert!(rt; is_constrained(&found));
}

/// Whether there is no span, for this reason.
fn is_at_fault(answer: Result<Span<'static>, SpanError>, want: SpanError) -> bool {
    match answer {
        Ok(_) => false,
        Err(fault) => fault == want,
    }
}

/// That two ISO dates have no span, for this reason.
fn assert_at_fault(rt: &impl Abort, from: Ymd, to: Ymd, want: SpanError) {
    assert!(rt;
        is_at_fault(iso_span(from, to, IN_DAYS), want),
        "from {}-{} to {}",
        from.0,
        from.1,
        to.0
    );
}

#[test]
fn first_bag_at_fault_is_named(rt: HostRuntime) {
    let good = (2020, 2, 29);
    let no_day = (2021, 2, 29);
    let no_month = (2021, 13, 1);
    let no_date = DateFromFieldsError::InvalidDay { max: 28 };
    for &(from, to, side, cause) in &[
        (no_day, good, BagSide::From, no_date),
        (good, no_day, BagSide::To, no_date),
        (no_day, no_month, BagSide::From, no_date),
        (
            no_month,
            no_day,
            BagSide::From,
            DateFromFieldsError::MonthNotInCalendar,
        ),
        (
            good,
            (1000000, 1, 1),
            BagSide::To,
            DateFromFieldsError::Overflow,
        ),
    ] {
        assert_at_fault(&rt, from, to, SpanError { side, cause });
    }
}

/// Eras and years of the dates that were shown in a calendar.
type Named = (&'static str, i32);

/// Whether the years of two dates, 2020 and -4, are named so.
fn are_named(
    from: &Date<AnyCalendar<'_>>,
    to: &Date<AnyCalendar<'_>>,
    names: (Named, Named),
) -> bool {
    let ((from_era, from_year), (to_era, to_year)) = names;
    is_named(from, 2020, from_era, from_year) && is_named(to, -4, to_era, to_year)
}

/// Whether the years of both dates of a span are named so, and as they are shown.
fn has_names(found: &Span<'_>, names: (Named, Named), names_shown: (Named, Named)) -> bool {
    are_named(&found.from, &found.to, names)
        && are_named(&found.from_shown, &found.to_shown, names_shown)
}

/// Whether a span ends on the last day of the year -4, 738945 days before it starts.
fn ends_early(found: &Span<'_>) -> bool {
    number_of(&found.to) == -1461
        && found.duration == duration(true, 0, 0, 0, 738945)
        && has_parts(&found.to_shown, -1461, -4, 12, 31)
}

/// That the two dates of a span have these years in the two calendars.
fn assert_names(
    rt: &impl Abort,
    (calendar, names): (AnyCalendarKind, (Named, Named)),
    (shown, names_shown): (AnyCalendarKind, (Named, Named)),
) {
    let dates = (LEAP_DAY, (-4, 12, 31));
    let found = span_found(rt, dates, REJECT, IN_DAYS, (calendar, shown));
    assert!(rt; has_names(&found, names, names_shown));
    assert!(rt; ends_early(&found));
}

#[test]
fn each_calendar_names_the_year(rt: HostRuntime) {
    let iso: (AnyCalendarKind, (Named, Named)) = (ISO, (("default", 2020), ("default", -4)));
    let gregorian: (AnyCalendarKind, (Named, Named)) = (GREGORIAN, (("ce", 2020), ("bce", 5)));
    for &(calendar, shown) in &[(iso, gregorian), (gregorian, iso), (gregorian, gregorian)] {
        assert_names(&rt, calendar, shown);
    }
}

#[test]
fn the_year_0_is_the_first_before_the_common_era(rt: HostRuntime) {
    match date_named(0, 1, 1, calendar_of(GREGORIAN)) {
        Ok(date) => assert!(rt; is_named(&date, 0, "bce", 1)),
        Err(cause) => assert!(rt; false, "{cause}"),
    }
}
