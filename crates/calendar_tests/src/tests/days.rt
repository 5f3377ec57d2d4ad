//! Days of which the dates are known, and dates there and back.

use super::*;
use EthiopianEraStyle::{AmeteAlem, AmeteMihret};
use TabularAlgorithmEpoch::{Friday, Thursday};
use TabularAlgorithmLeapYears::{TypeI, TypeII};
use icu_calendar::east_asian::Rules as EastAsianRules;
use icu_calendar::hijri::Rules as HijriRules;
use icu_calendar::{
    AsCalendar, Buddhist, Calendar, ChineseTraditional, Coptic, DateNewError, EastAsianTable,
    EastAsianTraditional, Ethiopian, EthiopianEraStyle, Hebrew, Hijri, HijriTable, Indian,
    Japanese, KoreanTraditional, Persian, PersianCorrections, Roc, Side, TabularAlgorithmEpoch,
    TabularAlgorithmLeapYears, YearInput,
};
use std::cmp::Ordering;
use test_dates::{day, number_in};

/// What a date shows: its extended year, its month code, its day, and its era with the year in it.
type Shown = (i32, &'static str, u8, &'static str, i32);

/// Whether a date shows this.
fn shows<A: AsCalendar + Copy>(date: &Date<A>, shown: Shown) -> bool
where
    A::Calendar: Calendar,
{
    let (extended_year, code, day, era, year) = shown;
    match date.year().era() {
        None => false,
        Some(named) => {
            named.era.as_str() == era
                && named.year == year
                && named.extended_year == extended_year
                && date.month().standard_code.0.as_str() == code
                && date.day_of_month().0 == day
        }
    }
}

/// The day that the fields of a day's date name in the calendar.
fn day_from_fields<A: AsCalendar + Copy>(
    number: i64,
    calendar: A,
) -> Result<i64, DateFromFieldsError>
where
    A::Calendar: Calendar,
{
    let date = Date::from_rata_die(day(number), calendar);
    let month_code = date.month().standard_code;
    let fields = DateFields {
        extended_year: Some(date.year().extended_year()),
        month_code: Some(month_code.0.as_bytes()),
        day: Some(date.day_of_month().0),
        ..DateFields::default()
    };
    match Date::try_from_fields(fields, STRICT, calendar) {
        Ok(named) => Ok(number_in(&named)),
        Err(cause) => Err(cause),
    }
}

/// That dates of days show what is known of them.
fn assert_known<A: AsCalendar + Copy>(rt: &impl Abort, calendar: A, known: &[(i64, Shown)])
where
    A::Calendar: Calendar,
{
    for (number, shown) in known {
        let date = Date::from_rata_die(day(*number), calendar);
        assert!(rt; shows(&date, *shown), "of {number}: {date:?}");
    }
}

#[test]
fn known_days_have_known_dates_of_gregorian_months(rt: HostRuntime) {
    assert_known(&rt, Buddhist, &[(727443, (2535, "M09", 2, "be", 2535))]);
    let roc = [
        (738946, (113, "M03", 1, "roc", 113)),
        (697978, (1, "M01", 1, "roc", 1)),
        (697977, (0, "M12", 31, "broc", 1)),
    ];
    assert_known(&rt, Roc, &roc);
    let japanese = [
        (738946, (2024, "M03", 1, "reiwa", 6)),
        (726103, (1989, "M01", 1, "showa", 64)),
        (726110, (1989, "M01", 8, "heisei", 1)),
        (683369, (1872, "M01", 1, "ce", 1872)),
    ];
    assert_known(&rt, Japanese::new(), &japanese);
}

#[test]
fn known_days_have_known_dates_of_thirteen_months(rt: HostRuntime) {
    assert_known(&rt, Coptic, &[(719781, (1687, "M13", 6, "am", 1687))]);
    let mihret = [
        (719164, (1962, "M04", 24, "am", 1962)),
        (738774, (2015, "M13", 6, "am", 2015)),
    ];
    assert_known(&rt, Ethiopian::new_with_era_style(AmeteMihret), &mihret);
    let alem = [(719164, (7462, "M04", 24, "aa", 7462))];
    assert_known(&rt, Ethiopian::new_with_era_style(AmeteAlem), &alem);
}

#[test]
fn known_days_have_known_dates_of_other_calendars(rt: HostRuntime) {
    let indian = [
        (727443, (1914, "M06", 11, "shaka", 1914)),
        (738946, (1945, "M12", 11, "shaka", 1945)),
    ];
    assert_known(&rt, Indian, &indian);
    let persian = [
        (775489, (1502, "M12", 30, "ap", 1502)),
        (775490, (1503, "M01", 1, "ap", 1503)),
    ];
    assert_known(&rt, Persian::new(PersianCorrections::none()), &persian);
    let hebrew = [
        (738196, (5782, "M05L", 9, "am", 5782)),
        (738438, (5783, "M01", 15, "am", 5783)),
        (740029, (5787, "M05L", 10, "am", 5787)),
        (740414, (5788, "M06", 10, "am", 5788)),
        (740611, (5789, "M01", 1, "am", 5789)),
    ];
    assert_known(&rt, Hebrew, &hebrew);
}

/// The extended year of the date that a bag names in a calendar, or its first fault.
fn year_named<A: AsCalendar>(
    fields: DateFields<'_>,
    calendar: A,
) -> Result<i32, DateFromFieldsError>
where
    A::Calendar: Calendar,
{
    match Date::try_from_fields(fields, STRICT, calendar) {
        Ok(date) => Ok(date.year().extended_year()),
        Err(cause) => Err(cause),
    }
}

/// The day number of March 1 of a year of a calendar, or the first fault.
fn march_first<A: AsCalendar>(year: YearInput<'_>, calendar: A) -> Result<i64, DateNewError>
where
    A::Calendar: Calendar,
{
    match Date::try_new(year, Month::new(3), 1, calendar) {
        Ok(date) => Ok(number_in(&date)),
        Err(cause) => Err(cause),
    }
}

#[test]
fn eras_of_buddha_and_of_japan_name_known_dates(rt: HostRuntime) {
    let year_0 = DateFields {
        era: Some(b"be"),
        era_year: Some(0),
        extended_year: Some(0),
        ordinal_month: Some(1),
        day: Some(1),
        ..DateFields::default()
    };
    assert!(rt; year_named(year_0, Buddhist) == Ok(0));
    for &(era, year) in &[("ce", 2024), ("reiwa", 6)] {
        let found = march_first(YearInput::EraYear(era, year), Japanese::new());
        assert_holds(&rt, era, found == Ok(738946));
    }
}

/// That dates of days in a Hijri calendar show what is known of them.
fn assert_known_in_hijri<R: HijriRules + Copy>(
    rt: &impl Abort,
    calendar: Hijri<R>,
    known: &[(i64, Shown)],
) {
    assert_known(rt, calendar, known);
}

/// The same in a tabular Hijri calendar.
fn assert_tabular(
    rt: &impl Abort,
    leap_years: TabularAlgorithmLeapYears,
    epoch: TabularAlgorithmEpoch,
    known: &[(i64, Shown)],
) {
    assert_known_in_hijri(rt, Hijri::new_tabular(leap_years, epoch), known);
}

#[test]
fn known_days_have_known_hijri_dates(rt: HostRuntime) {
    let civil = [
        (738750, (1445, "M02", 1, "ah", 1445)),
        (739075, (1446, "M01", 1, "ah", 1446)),
        (742618, (1456, "M01", 1, "ah", 1456)),
        (227015, (1, "M01", 1, "ah", 1)),
        (227014, (0, "M12", 29, "bh", 1)),
    ];
    assert_tabular(&rt, TypeII, Friday, &civil);
    let tabular = [
        (742617, (1456, "M01", 1, "ah", 1456)),
        (227014, (1, "M01", 1, "ah", 1)),
    ];
    assert_tabular(&rt, TypeII, Thursday, &tabular);
    let simulated = [(738750, (1445, "M02", 1, "ah", 1445))];
    let calendar = Hijri::new_simulated_mecca(HijriTable::none());
    assert_known_in_hijri(&rt, calendar, &simulated);
}

/// A day in the four tabular calendars: 1945-11-12 is the 6th of Dhu al-Hijja 1364 from Friday on, as Reingold and
/// Dershowitz have it among the sample dates of Calendrical Calculations, and the 7th from Thursday on.
#[test]
fn a_published_day_has_its_dates_in_the_tabular_calendars(rt: HostRuntime) {
    let friday = [(710347, (1364, "M12", 6, "ah", 1364))];
    let thursday = [(710347, (1364, "M12", 7, "ah", 1364))];
    assert_tabular(&rt, TypeII, Friday, &friday);
    assert_tabular(&rt, TypeI, Friday, &friday);
    assert_tabular(&rt, TypeII, Thursday, &thursday);
    assert_tabular(&rt, TypeI, Thursday, &thursday);
}

/// The first days of years 1, 16, 17 and 31 by the leap years of types I and II, as R. H. van Gent's page on the
/// Arabic calendar lists them: five of the first fifteen years are leap years by type II, and six by type I.
#[test]
fn the_leap_years_of_types_i_and_ii_part_after_the_fifteenth(rt: HostRuntime) {
    let first_days = [
        (227015, (1, "M01", 1, "ah", 1)),
        (232330, (15, "M12", 30, "ah", 15)),
        (232331, (16, "M01", 1, "ah", 16)),
        (232685, (17, "M01", 1, "ah", 17)),
        (237646, (31, "M01", 1, "ah", 31)),
    ];
    assert_tabular(&rt, TypeI, Friday, &first_days);
    let a_day_before = [
        (227014, (1, "M01", 1, "ah", 1)),
        (232330, (16, "M01", 1, "ah", 16)),
        (232684, (17, "M01", 1, "ah", 17)),
        (237645, (31, "M01", 1, "ah", 31)),
    ];
    assert_tabular(&rt, TypeI, Thursday, &a_day_before);
    let of_type_ii = [
        (232330, (16, "M01", 1, "ah", 16)),
        (232684, (16, "M12", 30, "ah", 16)),
        (232685, (17, "M01", 1, "ah", 17)),
        (237646, (31, "M01", 1, "ah", 31)),
    ];
    assert_tabular(&rt, TypeII, Friday, &of_type_ii);
}

/// Whether the date of a day comes before that of the next day.
fn is_before_next<A: AsCalendar + Copy>(number: i64, calendar: A) -> bool
where
    A::Calendar: Calendar,
{
    let date = calendar.as_calendar().from_rata_die(day(number));
    let after = day(number.saturating_add(1));
    let next = calendar.as_calendar().from_rata_die(after);
    date.partial_cmp(&next) == Some(Ordering::Less)
}

/// Whether a day is the one that the fields of its date name.
fn is_named_back<A: AsCalendar + Copy>(number: i64, calendar: A) -> bool
where
    A::Calendar: Calendar,
{
    day_from_fields(number, calendar) == Ok(number)
}

/// That days near year 1, near today and at both ends of the valid range come back from their fields, and that dates
/// are ordered as they are.
fn assert_back<A: AsCalendar + Copy>(rt: &impl Abort, calendar: A)
where
    A::Calendar: Calendar,
{
    for &first in &[-1000i64, 0, 738000, -365242499, 365241133] {
        for after in 0..=1000i64 {
            let day = first.saturating_add(after);
            assert_holds(rt, day, is_named_back(day, calendar));
            assert_holds(rt, day, is_before_next(day, calendar));
        }
    }
    let last = 365242134;
    assert_holds(rt, last, is_named_back(last, calendar));
}

#[test]
fn days_of_gregorian_months_come_back_from_their_fields(rt: HostRuntime) {
    assert_back(&rt, Iso);
    assert_back(&rt, Gregorian);
    assert_back(&rt, Buddhist);
    assert_back(&rt, Roc);
    assert_back(&rt, Japanese::new());
}

#[test]
fn days_of_other_solar_calendars_come_back_from_their_fields(rt: HostRuntime) {
    assert_back(&rt, Julian);
    assert_back(&rt, Coptic);
    for &style in &[AmeteMihret, AmeteAlem] {
        assert_back(&rt, Ethiopian::new_with_era_style(style));
    }
    assert_back(&rt, Indian);
    assert_back(&rt, Persian::new(PersianCorrections::none()));
}

/// The same of a Hijri calendar.
fn assert_back_in_hijri<R: HijriRules + Copy>(rt: &impl Abort, calendar: Hijri<R>) {
    assert_back(rt, calendar);
}

#[test]
fn hijri_days_come_back_from_their_fields(rt: HostRuntime) {
    for &(leap_years, epoch) in &[
        (TypeII, Friday),
        (TypeII, Thursday),
        (TypeI, Friday),
        (TypeI, Thursday),
    ] {
        assert_back_in_hijri(&rt, Hijri::new_tabular(leap_years, epoch));
    }
    assert_back_in_hijri(&rt, Hijri::new_umm_al_qura(HijriTable::none()));
}

/// The same of the Chinese or the Korean calendar.
fn assert_back_in_east_asian<R: EastAsianRules + Copy>(
    rt: &impl Abort,
    calendar: EastAsianTraditional<R>,
) {
    assert_back(rt, calendar);
}

#[test]
fn lunisolar_days_come_back_from_their_fields(rt: HostRuntime) {
    assert_back(&rt, Hebrew);
    let china = ChineseTraditional::new(EastAsianTable::none(Side::China));
    assert_back_in_east_asian(&rt, china);
    let korea = KoreanTraditional::new(EastAsianTable::none(Side::Korea));
    assert_back_in_east_asian(&rt, korea);
}
