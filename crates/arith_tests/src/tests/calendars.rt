//! Each call of a calendar through the trait, in the ISO calendar and in one that counts its years from ISO year
//! 1911.

ghost use Rattle.std.specs.Prelude.{◌≡◌, ◌<◌};
ghost use Rattle.cal_days.specs.Day.{IsValidDay};

mod counted_years;
mod limits;

use crate::tests::expected::{assert_at, assert_day, assert_holds, assert_same};
use cal_arith::Steps;
use cal_base::{AsCalendar, Calendar, Incompatible, Iso, NumberedYear, Ref};
use cal_days::RataDie;
use cal_types::{
    DateAddError, DateAddOptions, DateDifferenceOptions, DateDuration, DateDurationUnit,
    DateFields, DateFromFieldsError, DateFromFieldsOptions, DateNewError, IntoYearInfo, LeapStatus,
    Month, Overflow, YearAmbiguity, YearInfo, YearInput,
};
use counted_years::minguo;
use std::marker::Brand;
use std::process::Abort;
use std::sync::ledger::{Blank, Ledger};

/// Returns the extended year, the month's place, the day of the month and the day of the year.
fn parts<C: Calendar>(cal: &C, rd: i64) -> (i32, u8, u8, u16)
    requires { IsValidDay rd }
{
    let date = cal.from_rata_die(RataDie::new(rd));
    (
        cal.extended_year(&date),
        cal.month(&date).ordinal,
        cal.day_of_month(&date).0,
        cal.day_of_year(&date).0,
    )
}

/// Returns the months and days of the year, the days of the month, and whether the year is a leap year.
fn lengths<C: Calendar>(cal: &C, rd: i64) -> (u8, u16, u8, bool)
    requires { IsValidDay rd }
{
    let date = cal.from_rata_die(RataDie::new(rd));
    (
        cal.months_in_year(&date),
        cal.days_in_year(&date),
        cal.days_in_month(&date),
        cal.is_in_leap_year(&date),
    )
}

/// Returns the day number by way of an ISO date and back, and whether the date is the calendar's own.
fn day_by_iso<C: Calendar>(cal: &C, rd: i64) -> (i64, bool)
    requires { IsValidDay rd }
{
    let iso = cal.to_iso(&cal.from_rata_die(RataDie::new(rd)));
    let date = cal.from_iso(iso);
    (cal.to_rata_die(&date).to_i64_date(), cal.owns(&date))
}

/// That a day has a date with these parts in a year of these lengths.
fn assert_date<C: Calendar>(
    rt: &impl Abort,
    cal: &C,
    rd: i64,
    shown: (i32, u8, u8, u16),
    expected_lengths: (u8, u16, u8, bool),
)
    requires { IsValidDay rd }
{
    assert_at(rt, rd, parts(cal, rd), shown);
    assert_at(rt, rd, lengths(cal, rd), expected_lengths);
    assert_at(rt, rd, day_by_iso(cal, rd), (rd, true));
}

#[test]
fn a_day_has_its_date(rt: HostRuntime) {
    for &(rd, iso, taiwanese, month, day, day_of_year, days, of_month, leap) in &[
        (727443, 1992, 81, 9, 2, 246, 366, 30, true),
        (697978, 1912, 1, 1, 1, 1, 366, 31, true),
        (737484, 2020, 109, 2, 29, 60, 366, 29, true),
        (737849, 2021, 110, 2, 28, 59, 365, 28, false),
        (0, 0, -1911, 12, 31, 366, 366, 31, true),
        (-365242499, -999999, -1001910, 1, 1, 1, 365, 31, false),
        (365242134, 999999, 998088, 12, 31, 365, 365, 31, false),
    ] {
        assert_day(&rt, rd);
        let expected_lengths = (12, days, of_month, leap);
        assert_date(
            &rt,
            &Iso,
            rd,
            (iso, month, day, day_of_year),
            expected_lengths,
        );
        let shown = (taiwanese, month, day, day_of_year);
        assert_date(&rt, &minguo(), rd, shown, expected_lengths);
    }
}

/// Returns the day number of the date of a year, a month and a day.
fn made<C: Calendar>(
    cal: &C,
    year: YearInput<'_>,
    month: Month,
    day: u8,
) -> Result<i64, DateNewError> {
    let date = cal.new_date(year, month, day)?;
    Ok(cal.to_rata_die(&date).to_i64_date())
}

/// Returns the day number of the date that an extended year, a month and a day name.
fn resolved<C: Calendar>(
    cal: &C,
    year: i32,
    month: Month,
    day: u8,
    overflow: Overflow,
) -> Result<i64, DateFromFieldsError> {
    let fields = DateFields::from_year_month_day(year, month, day);
    let options = DateFromFieldsOptions {
        overflow: Some(overflow),
        missing_fields_strategy: None,
    };
    let date = cal.from_fields(fields, options)?;
    Ok(cal.to_rata_die(&date).to_i64_date())
}

/// What the same fields name in the ISO calendar and in the other one.
fn assert_resolved(
    rt: &impl Abort,
    iso: i32,
    taiwanese: i32,
    month: Month,
    day: u8,
    overflow: Overflow,
    want: Result<i64, DateFromFieldsError>,
) {
    assert_at(rt, iso, resolved(&Iso, iso, month, day, overflow), want);
    let found = resolved(&minguo(), taiwanese, month, day, overflow);
    assert_at(rt, iso, found, want);
}

#[test]
fn fields_name_a_date_or_have_a_first_fault(rt: HostRuntime) {
    use DateFromFieldsError::{InvalidDay, MonthNotInCalendar, Overflow as OutOfRange};
    use Overflow::{Constrain, Reject};
    for &(iso, taiwanese, month, day, overflow, want) in &[
        (2020, 109, Month::new(2), 29, Reject, Ok(737484)),
        (2021, 110, Month::new(2), 29, Constrain, Ok(737849)),
        (
            2021,
            110,
            Month::new(2),
            29,
            Reject,
            Err(InvalidDay { max: 28 }),
        ),
        (2020, 109, Month::new(2), 0, Constrain, Ok(737456)),
        (
            2021,
            110,
            Month::leap(2),
            1,
            Constrain,
            Err(MonthNotInCalendar),
        ),
        (
            2021,
            110,
            Month::new(13),
            0,
            Reject,
            Err(MonthNotInCalendar),
        ),
        (999999, 998088, Month::new(12), 31, Reject, Ok(365242134)),
        (
            1000000,
            998089,
            Month::new(1),
            1,
            Constrain,
            Err(OutOfRange),
        ),
        (1040001, 1040001, Month::new(13), 0, Reject, Err(OutOfRange)),
    ] {
        assert_resolved(&rt, iso, taiwanese, month, day, overflow, want);
    }
}

/// What a year, a month and a day make in the ISO calendar and in the other one.
fn assert_made(
    rt: &impl Abort,
    iso: i32,
    taiwanese: i32,
    month: Month,
    day: u8,
    want: Result<i64, DateNewError>,
) {
    assert_at(rt, iso, made(&Iso, iso.into(), month, day), want);
    let found = made(&minguo(), taiwanese.into(), month, day);
    assert_at(rt, iso, found, want);
}

#[test]
fn a_year_a_month_and_a_day_make_a_date_or_have_a_first_fault(rt: HostRuntime) {
    use DateNewError::{InvalidDay, InvalidYear, MonthNotInCalendar};
    for &(iso, taiwanese, month, day, want) in &[
        (2020, 109, Month::new(2), 29, Ok(737484)),
        (2021, 110, Month::new(2), 29, Err(InvalidDay { max: 28 })),
        (2021, 110, Month::new(2), 0, Err(InvalidDay { max: 28 })),
        (2021, 110, Month::new(13), 0, Err(MonthNotInCalendar)),
        (10000, 10000, Month::new(13), 0, Err(InvalidYear)),
    ] {
        assert_made(&rt, iso, taiwanese, month, day, want);
    }
}

fn duration(is_negative: bool, years: u32, months: u32, weeks: u32, days: u32) -> DateDuration {
    DateDuration {
        is_negative,
        years,
        months,
        weeks,
        days,
    }
}

/// Returns the day number of a sum.
fn sum<C: Calendar>(
    cal: &C,
    rd: i64,
    duration: DateDuration,
    overflow: Overflow,
) -> Result<i64, DateAddError>
    requires { IsValidDay rd }
{
    let date = cal.from_rata_die(RataDie::new(rd));
    let options = DateAddOptions {
        overflow: Some(overflow),
    };
    let sum = cal.add(&date, duration, options)?;
    Ok(cal.to_rata_die(&sum).to_i64_date())
}

/// The sum of a day and a duration, in both calendars.
fn assert_sum(
    rt: &impl Abort,
    rd: i64,
    added: DateDuration,
    overflow: Overflow,
    want: Result<i64, DateAddError>,
) {
    assert_day(rt, rd);
    assert_at(rt, rd, sum(&Iso, rd, added, overflow), want);
    assert_at(rt, rd, sum(&minguo(), rd, added, overflow), want);
}

#[test]
fn a_sum_is_that_of_a_slow_count(rt: HostRuntime) {
    use DateAddError::{InvalidDay, Overflow as OutOfRange};
    use Overflow::{Constrain, Reject};
    for &(rd, added, overflow, want) in &[
        (738945, duration(false, 187, 3, 0, 1), Constrain, Ok(807335)),
        (738885, duration(true, 0, 1, 1, 0), Constrain, Ok(738847)),
        (-146403, duration(true, 92, 0, 1, 1), Constrain, Ok(-180014)),
        (737484, duration(false, 1, 0, 0, 0), Constrain, Ok(737849)),
        (
            737484,
            duration(false, 1, 0, 0, 0),
            Reject,
            Err(InvalidDay { max: 28 }),
        ),
        (
            738945,
            duration(false, 997975, 10, 0, 2),
            Constrain,
            Ok(365242134),
        ),
        (
            365242134,
            duration(false, 0, 0, 0, 1),
            Reject,
            Err(OutOfRange),
        ),
        // From ISO 999996-02-29 into 1039999, a common year, and past year 1040000.
        (
            365240733,
            duration(false, 40003, 0, 0, 0),
            Reject,
            Err(InvalidDay { max: 28 }),
        ),
        (
            365240733,
            duration(false, 40005, 0, 0, 0),
            Reject,
            Err(OutOfRange),
        ),
    ] {
        assert_sum(&rt, rd, added, overflow, want);
    }
}

/// Returns the difference of the dates of two day numbers, without a counter and with one.
fn differences<C: Calendar, L: Ledger>(
    cal: &C,
    from: i64,
    to: i64,
    unit: DateDurationUnit,
    blank: Blank,
) -> (DateDuration, DateDuration)
    requires from { IsValidDay from }
    requires to { IsValidDay to }
    requires name { blank.name ≡ L.name }
    requires parts { blank.parts ≡ L.parts }
    requires some { 0 < blank.parts }
{
    let first = cal.from_rata_die(RataDie::new(from));
    let second = cal.from_rata_die(RataDie::new(to));
    let options = DateDifferenceOptions {
        largest_unit: Some(unit),
    };
    let mut steps = Steps::<L>::new(blank);
    (
        cal.until(&first, &second, options),
        cal.until_counted(&first, &second, options, &mut steps),
    )
}

/// Returns the same two by a counter that nobody reads.
fn both_differences<C: Calendar>(
    cal: &C,
    from: i64,
    to: i64,
    unit: DateDurationUnit,
) -> (DateDuration, DateDuration)
    requires from { IsValidDay from }
    requires to { IsValidDay to }
{
    differences::<C, Brand>(cal, from, to, unit, Blank::new(1))
}

/// The difference of two days, without a counter and with one.
fn assert_differences<C: Calendar>(
    rt: &impl Abort,
    cal: &C,
    from: i64,
    to: i64,
    unit: DateDurationUnit,
    want: DateDuration,
)
    requires from { IsValidDay from }
    requires to { IsValidDay to }
{
    let (uncounted, counted) = both_differences(cal, from, to, unit);
    assert_at(rt, from, uncounted, want);
    assert_at(rt, from, counted, want);
}

/// The difference of two days, in both calendars.
fn assert_difference(
    rt: &impl Abort,
    from: i64,
    to: i64,
    unit: DateDurationUnit,
    want: DateDuration,
) {
    assert_day(rt, from);
    assert_day(rt, to);
    assert_differences(rt, &Iso, from, to, unit, want);
    assert_differences(rt, &minguo(), from, to, unit, want);
}

#[test]
fn a_difference_is_that_of_a_slow_count(rt: HostRuntime) {
    use DateDurationUnit::{Days, Months, Weeks, Years};
    for &(from, to, unit, want) in &[
        (738945, 739310, Years, duration(false, 0, 11, 0, 30)),
        (739310, 738945, Years, duration(true, 0, 11, 0, 28)),
        (738976, 738579, Months, duration(true, 0, 13, 0, 0)),
        (738976, 738579, Weeks, duration(true, 0, 0, 56, 5)),
        (-216109, 681421, Years, duration(false, 2457, 4, 0, 7)),
        (-216109, 681421, Months, duration(false, 0, 29488, 0, 7)),
        (
            -365242499,
            365242134,
            Days,
            duration(false, 0, 0, 0, 730484633),
        ),
    ] {
        assert_difference(&rt, from, to, unit, want);
    }
}

#[test]
fn a_year_and_a_month_have_their_names(rt: HostRuntime) {
    let date = Iso.from_rata_die(RataDie::new(-1461));
    let year = Iso.year_info(&date);
    assert_same(&rt, year.era.as_str(), "default");
    assert_same(
        &rt,
        (year.year, year.extended_year, year.era_index),
        (-4, -4, Some(0)),
    );
    assert_same(&rt, year.ambiguity, YearAmbiguity::Unambiguous);
    let date = minguo().from_rata_die(RataDie::new(727443));
    assert_same(
        &rt,
        minguo().year_info(&date).into_year_info().extended_year(),
        81,
    );
    let month = minguo().month(&date);
    assert_same(&rt, (month.ordinal, month.to_input()), (9, Month::new(9)));
    assert_same(&rt, month.leap_status(), LeapStatus::Normal);
    assert_same(&rt, month.standard_code.0.as_str(), "M09");
    assert_same(&rt, month.formatting_code.0.as_str(), "M09");
}

/// Returns the name of the calendar that a value leads to.
fn name_at<A: AsCalendar>(calendar: &A) -> &'static str
where
    A::Calendar: Calendar,
{
    calendar.as_calendar().debug_name()
}

#[test]
fn a_calendar_and_its_dates_say_what_they_are(rt: HostRuntime) {
    let iso = Iso::new();
    assert_same(&rt, name_at(&iso), "ISO");
    assert_same(&rt, name_at(&Ref(&iso)), "ISO");
    assert_same(&rt, name_at(&minguo()), "counted");
    assert_same(&rt, *Ref(&iso), Iso::default());
    assert_same(&rt, iso.calendar_algorithm(), None);
    assert_same(&rt, minguo().calendar_algorithm(), None);
    let are_cheap = iso.has_cheap_iso_conversion() && minguo().has_cheap_iso_conversion();
    assert_holds(&rt, "cheap conversions", are_cheap);
    assert_holds(
        &rt,
        "its own dates",
        iso.check_date_compatibility(&Iso).is_ok(),
    );
    let (first, second) = (
        iso.from_rata_die(RataDie::new(1)),
        iso.from_rata_die(RataDie::new(2)),
    );
    assert_holds(
        &rt,
        "the order of dates",
        first < second && first == iso.from_rata_die(RataDie::new(1)),
    );
}

#[test]
fn pointers_are_equal_if_what_they_point_to_is(rt: HostRuntime) {
    let (first, again) = (NumberedYear { number: 1 }, NumberedYear { number: 1 });
    let second = NumberedYear { number: 2 };
    assert_holds(&rt, "the same", Ref(&first) == Ref(&again));
    assert_holds(&rt, "another", Ref(&first) != Ref(&second));
    assert_same(&rt, Incompatible, Incompatible);
}
