//! Each call of the calendar, on dates of which the days are known.

use crate::tests::expected::{assert_at, assert_day, assert_holds, assert_same};
use cal_base::{AsCalendar, Calendar, Iso};
use cal_days::RataDie;
use cal_julian::Julian;
use cal_types::{
    DateAddError, DateAddOptions, DateDifferenceOptions, DateDuration, DateDurationUnit,
    DateFields, DateFromFieldsError, DateFromFieldsOptions, DateNewError, Month, Overflow,
    YearAmbiguity, YearInput,
};

/// Returns the fields of a year, a month and a day alone.
fn fields(year: i32, month: Month, day: u8) -> DateFields<'static> {
    DateFields::from_year_month_day(year, month, day)
}

fn duration(is_negative: bool, years: u32, months: u32, weeks: u32, days: u32) -> DateDuration {
    DateDuration {
        is_negative,
        years,
        months,
        weeks,
        days,
    }
}

#[test]
fn a_day_has_its_date(rt: HostRuntime) {
    for &(day, year, month, day_of_month, day_of_year, days) in &[
        (738156, 2021, 12, 19, 353, 365),
        (693667, 1900, 2, 29, 60, 366),
        (-1, 1, 1, 1, 1, 365),
        (-2, 0, 12, 31, 366, 366),
        (-368, -1, 12, 31, 365, 365),
        (-1721425, -4712, 1, 1, 1, 366),
    ] {
        assert_day(&rt, day);
        let date = Julian.from_rata_die(RataDie::new(day));
        assert_at(&rt, day, Julian.owns(&date), true);
        assert_at(&rt, day, Julian.to_rata_die(&date).to_i64_date(), day);
        assert_at(&rt, day, Julian.extended_year(&date), year);
        let shown = &Julian.month(&date);
        assert_at(&rt, day, shown.ordinal, month);
        assert_at(&rt, day, shown.number(), month);
        assert_at(&rt, day, shown.is_leap(), false);
        assert_at(&rt, day, Julian.day_of_month(&date).0, day_of_month);
        assert_at(&rt, day, Julian.day_of_year(&date).0, day_of_year);
        assert_at(&rt, day, Julian.days_in_year(&date), days);
        assert_at(&rt, day, Julian.is_in_leap_year(&date), days == 366);
        assert_at(&rt, day, Julian.months_in_year(&date), 12);
    }
}

#[test]
fn a_day_has_its_year_in_an_era(rt: HostRuntime) {
    use YearAmbiguity::{CenturyRequired, EraAndCenturyRequired};
    for &(day, era, year, index, ambiguity) in &[
        (738156, "ce", 2021, 1, CenturyRequired),
        (693667, "ce", 1900, 1, CenturyRequired),
        (-1, "ce", 1, 1, CenturyRequired),
        (-2, "bce", 1, 0, EraAndCenturyRequired),
        (-368, "bce", 2, 0, EraAndCenturyRequired),
        (-1721425, "bce", 4713, 0, EraAndCenturyRequired),
    ] {
        assert_day(&rt, day);
        let date = Julian.from_rata_die(RataDie::new(day));
        let named = Julian.year_info(&date);
        assert_at(&rt, day, named.era.as_str(), era);
        assert_at(&rt, day, named.year, year);
        assert_at(&rt, day, named.era_index, Some(index));
        assert_at(&rt, day, named.ambiguity, ambiguity);
    }
}

#[test]
fn fields_name_a_date_or_have_a_first_fault(rt: HostRuntime) {
    use DateFromFieldsError::{InvalidDay, MonthNotInCalendar, Overflow as OutOfRange};
    use Overflow::{Constrain, Reject};
    for &(year, month, day, overflow, want) in &[
        (2021, Month::new(12), 19, Reject, Ok(738156)),
        (1582, Month::new(10), 4, Reject, Ok(577735)),
        (1900, Month::new(2), 29, Reject, Ok(693667)),
        (2021, Month::new(2), 29, Constrain, Ok(737862)),
        (2021, Month::new(2), 29, Reject, Err(InvalidDay { max: 28 })),
        (2021, Month::new(13), 1, Reject, Err(MonthNotInCalendar)),
        (1040001, Month::new(1), 1, Constrain, Err(OutOfRange)),
    ] {
        let options = DateFromFieldsOptions {
            overflow: Some(overflow),
            missing_fields_strategy: None,
        };
        match Julian.from_fields(fields(year, month, day), options) {
            Ok(date) => assert_at(&rt, year, Ok(Julian.to_rata_die(&date).to_i64_date()), want),
            Err(cause) => assert_at(&rt, year, Err(cause), want),
        }
    }
}

#[test]
fn a_year_a_month_and_a_day_make_a_date_or_have_a_first_fault(rt: HostRuntime) {
    use DateNewError::{InvalidDay, InvalidYear, MonthNotInCalendar};
    let leap_day = Julian.from_rata_die(RataDie::new(693667));
    for &(year, month, day, want) in &[
        (1900, Month::new(2), 29, Ok(leap_day)),
        (2021, Month::new(2), 29, Err(InvalidDay { max: 28 })),
        (2021, Month::leap(2), 1, Err(MonthNotInCalendar)),
        (-10000, Month::new(12), 19, Err(InvalidYear)),
    ] {
        assert_at(&rt, year, Julian.new_date(year.into(), month, day), want);
    }
}

#[test]
fn a_sum_is_a_known_day(rt: HostRuntime) {
    use DateAddError::{InvalidDay, Overflow as OutOfRange};
    use Overflow::{Constrain, Reject};
    for &(day, added, overflow, want) in &[
        // 2021-01-31 and a month: 2021-02-28.
        (737834, duration(false, 0, 1, 0, 0), Constrain, Ok(737862)),
        (
            737834,
            duration(false, 0, 1, 0, 0),
            Reject,
            Err(InvalidDay { max: 28 }),
        ),
        // 1899-02-28, a year and a day: 1900-02-29.
        (693301, duration(false, 1, 0, 0, 1), Reject, Ok(693667)),
        // 2024-02-29 less 11 months and 29 days: 2023-02-28.
        (738958, duration(true, 0, 11, 0, 29), Constrain, Ok(738592)),
        (
            365242134,
            duration(false, 0, 0, 0, 1),
            Constrain,
            Err(OutOfRange),
        ),
    ] {
        assert_day(&rt, day);
        let date = Julian.from_rata_die(RataDie::new(day));
        let options = DateAddOptions {
            overflow: Some(overflow),
        };
        match Julian.add(&date, added, options) {
            Ok(sum) => assert_at(&rt, day, Ok(Julian.to_rata_die(&sum).to_i64_date()), want),
            Err(cause) => assert_at(&rt, day, Err(cause), want),
        }
    }
}

#[test]
fn a_difference_is_a_known_duration(rt: HostRuntime) {
    use DateDurationUnit::{Days, Months, Weeks, Years};
    for &(first, second, unit, want) in &[
        // 2020-02-29 to 2021-02-28, and back.
        (737497, 737862, Years, duration(false, 0, 11, 0, 30)),
        (737862, 737497, Years, duration(true, 0, 11, 0, 28)),
        // 1582-10-04 to 2021-12-19.
        (577735, 738156, Months, duration(false, 0, 5270, 0, 15)),
        (577735, 738156, Weeks, duration(false, 0, 0, 22917, 2)),
        (
            -365242499,
            365242134,
            Days,
            duration(false, 0, 0, 0, 730484633),
        ),
    ] {
        assert_day(&rt, first);
        assert_day(&rt, second);
        let from = Julian.from_rata_die(RataDie::new(first));
        let to = Julian.from_rata_die(RataDie::new(second));
        let options = DateDifferenceOptions {
            largest_unit: Some(unit),
        };
        assert_at(
            &rt,
            (first, second),
            Julian.until(&from, &to, options),
            want,
        );
        assert_at(&rt, (first, second), from < to, first < second);
    }
}

#[test]
fn an_iso_date_is_on_the_same_day(rt: HostRuntime) {
    // 1582-10-04, the day before the reform, and the valid days' ends.
    for &(number, year, month, day) in &[
        (577735, 1582, 10, 14),
        (-365242499, -999999, 1, 1),
        (365242134, 999999, 12, 31),
    ] {
        assert_day(&rt, number);
        let date = Julian.from_rata_die(RataDie::new(number));
        let iso = Julian.to_iso(&date);
        assert_at(&rt, number, Iso.extended_year(&iso), year);
        assert_at(&rt, number, Iso.month(&iso).ordinal, month);
        assert_at(&rt, number, Iso.day_of_month(&iso).0, day);
        assert_at(&rt, number, Julian.from_iso(iso), date);
    }
}

#[test]
fn the_calendar_names_itself(rt: HostRuntime) {
    assert_same(&rt, Julian::new().debug_name(), "Julian");
    assert_same(&rt, Julian.calendar_algorithm(), None);
    assert_same(&rt, Julian.has_cheap_iso_conversion(), false);
    assert_holds(
        &rt,
        "its own dates",
        Julian.check_date_compatibility(&Julian).is_ok(),
    );
    assert_same(&rt, *Julian.as_calendar(), Julian::default());
}
