//! Years in their eras, and known days from published conversion tables.

use crate::tests::expected::{assert_at, assert_day, assert_holds, assert_same, refuse_fault};
use cal_base::Calendar;
use cal_days::RataDie;
use cal_gregory::Gregorian;
use cal_types::{
    CalendarAlgorithm, DateAddOptions, DateDifferenceOptions, DateDuration, DateDurationUnit,
    DateFields, DateFromFieldsError, DateFromFieldsOptions, Month, YearAmbiguity, YearInput,
};

/// The options under which a fault is an error.
const REJECT: DateFromFieldsOptions = DateFromFieldsOptions {
    overflow: None,
    missing_fields_strategy: None,
};

/// Fields with a year, a month and a day alone.
fn fields(year: i32, month: Month, day: u8) -> DateFields<'static> {
    DateFields::from_year_month_day(year, month, day)
}

#[test]
fn years_are_named_in_their_eras(rt: HostRuntime) {
    use YearAmbiguity::{CenturyRequired, EraAndCenturyRequired, Unambiguous};
    for &(extended_year, era, year, index, ambiguity) in &[
        (-999999, "bce", 1000000, 0, EraAndCenturyRequired),
        (-4, "bce", 5, 0, EraAndCenturyRequired),
        (0, "bce", 1, 0, EraAndCenturyRequired),
        (1, "ce", 1, 1, EraAndCenturyRequired),
        (999, "ce", 999, 1, EraAndCenturyRequired),
        (1000, "ce", 1000, 1, CenturyRequired),
        (1949, "ce", 1949, 1, CenturyRequired),
        (1950, "ce", 1950, 1, Unambiguous),
        (2049, "ce", 2049, 1, Unambiguous),
        (2050, "ce", 2050, 1, CenturyRequired),
        (999999, "ce", 999999, 1, CenturyRequired),
    ] {
        match Gregorian.from_fields(fields(extended_year, Month::new(12), 31), REJECT) {
            Ok(date) => {
                let named = Gregorian.year_info(&date);
                assert_at(&rt, extended_year, named.era.as_str(), era);
                assert_at(&rt, extended_year, named.year, year);
                assert_at(&rt, extended_year, named.extended_year, extended_year);
                assert_at(&rt, extended_year, named.era_index, Some(index));
                assert_at(&rt, extended_year, named.ambiguity, ambiguity);
            }
            Err(cause) => refuse_fault(&rt, extended_year, &cause),
        }
    }
}

#[test]
fn known_days_have_known_dates(rt: HostRuntime) {
    for &(number, year, month, day) in &[
        (1155, 4, 2, 29),
        (-1461, -4, 12, 31),
        (738156, 2022, 1, 1),
        (-365242499, -999999, 1, 1),
        (365242134, 999999, 12, 31),
    ] {
        assert_day(&rt, number);
        let date = Gregorian.from_rata_die(RataDie::new(number));
        assert_at(&rt, number, Gregorian.year_info(&date).extended_year, year);
        assert_at(&rt, number, Gregorian.month(&date).ordinal, month);
        assert_at(&rt, number, Gregorian.day_of_month(&date).0, day);
        assert_at(
            &rt,
            number,
            Gregorian.to_rata_die(&date).to_i64_date(),
            number,
        );
        let same = Gregorian.from_fields(fields(year, Month::new(month), day), REJECT);
        assert_at(&rt, number, same, Ok(date));
    }
    let fault = Gregorian.from_fields(fields(2021, Month::leap(2), 1), REJECT);
    assert_same(&rt, fault, Err(DateFromFieldsError::MonthNotInCalendar));
}

#[test]
fn days_back_are_counted(rt: HostRuntime) {
    let days = DateDifferenceOptions {
        largest_unit: Some(DateDurationUnit::Days),
    };
    let from = Gregorian.from_rata_die(RataDie::new(1155));
    let to = Gregorian.from_rata_die(RataDie::new(-1461));
    let between = Gregorian.until(&from, &to, days);
    assert_same(&rt, (between.is_negative, between.days), (true, 2616));
    assert_holds(&rt, "the order of dates", to < from);
}

#[test]
fn a_date_is_made_compared_and_added_to(rt: HostRuntime) {
    let made = Gregorian.new_date(YearInput::Extended(2020), Month::new(2), 29);
    let leap_day = Gregorian.from_rata_die(RataDie::new(737484));
    assert_same(&rt, made, Ok(leap_day));
    assert_holds(&rt, "its own date", Gregorian.owns(&leap_day));
    assert_holds(&rt, "the leap year", Gregorian.is_in_leap_year(&leap_day));
    let year = DateDuration::for_years(1);
    let last = Gregorian.from_rata_die(RataDie::new(737849));
    let constrained = Gregorian.add(&leap_day, year, DateAddOptions::default());
    assert_same(&rt, constrained, Ok(last));
    let months = DateDifferenceOptions {
        largest_unit: Some(DateDurationUnit::Months),
    };
    let between = Gregorian.until(&leap_day, &last, months);
    assert_same(&rt, (between.months, between.days), (11, 30));
    let algorithm = Gregorian.calendar_algorithm();
    assert_same(&rt, algorithm, Some(CalendarAlgorithm::Gregory));
    assert_same(&rt, Gregorian.debug_name(), "Gregorian");
}
