//! Dates of one calendar's own fields.

use crate::tests::expected::assert_holds;
use cal_hijri::Rules;
use icu_calendar::east_asian::Rules as EastAsianRules;
use icu_calendar::{
    AnyCalendar, AnyCalendarKind, AsCalendar, Calendar, Date, DateError, EastAsianTraditional,
    EraStartDate, EraYear, Hijri, Japanese, JapaneseEras, LunisolarDateError, Month, RangeError,
    Ref, TabularAlgorithmEpoch, TabularAlgorithmLeapYears, TinyAsciiStr,
};
use std::cmp::Ordering;
use std::fmt::Debug;
use std::process::Abort;
use test_dates::{calendar_of, date_on, number_in, parts_of};

/// The day number of a date that was made.
fn day_of<A: AsCalendar, E: Drop>(made: Result<Date<A>, E>) -> Option<i64>
where
    A::Calendar: Calendar,
{
    match made {
        Ok(date) => Some(number_in(&date)),
        Err(_) => None,
    }
}

/// The day number of a date of the Chinese or the Korean calendar that was made.
fn day_in_east_asian<R: EastAsianRules, E: Drop>(
    made: Result<Date<EastAsianTraditional<R>>, E>,
) -> Option<i64> {
    day_of(made)
}

/// The day number of the date that a Hijri calendar makes of a year, a month and a day.
fn day_of_hijri<R: Rules, A: AsCalendar<Calendar = Hijri<R>>>(
    year: i32,
    month: u8,
    day: u8,
    calendar: A,
) -> Option<i64> {
    day_of(Date::try_new_hijri_with_calendar(year, month, day, calendar))
}

/// The day number of the date that a Japanese calendar makes of a year in an era, a month and a day.
fn day_in_era<A: AsCalendar<Calendar = Japanese>>(
    (era, year): (&str, i32),
    month: u8,
    day: u8,
    calendar: A,
) -> Option<i64> {
    day_of(Date::try_new_japanese_with_calendar(era, year, month, day, calendar))
}

/// The day number of the date that a calendar's own constructor makes of an extended year, a month, which is the one
/// at this place of the year, and a day. A Japanese calendar makes none, since its constructor wants an era.
fn day_made(
    calendar: &AnyCalendar<'static>,
    year: i32,
    (place, month): (u8, Month),
    day: u8,
) -> Option<i64> {
    match calendar {
        AnyCalendar::Buddhist(_) => day_of(Date::try_new_buddhist(year, place, day)),
        AnyCalendar::Chinese(c) => {
            day_in_east_asian(Date::try_new_chinese_traditional(year, month, day, *c))
        }
        AnyCalendar::Coptic(_) => day_of(Date::try_new_coptic(year, place, day)),
        AnyCalendar::Dangi(c) => {
            day_in_east_asian(Date::try_new_korean_traditional(year, month, day, *c))
        }
        AnyCalendar::Ethiopian(c) => {
            day_of(Date::try_new_ethiopian(c.era_style(), year, place, day))
        }
        AnyCalendar::Gregorian(_) => day_of(Date::try_new_gregorian(year, place, day)),
        AnyCalendar::Hebrew(_) => day_of(Date::try_new_hebrew_v2(year, month, day)),
        AnyCalendar::HijriSimulated(c) => day_of_hijri(year, place, day, Ref(c)),
        AnyCalendar::HijriTabular(c) => day_of_hijri(year, place, day, Ref(c)),
        AnyCalendar::HijriUmmAlQura(c) => day_of_hijri(year, place, day, Ref(c)),
        AnyCalendar::Indian(_) => day_of(Date::try_new_indian(year, place, day)),
        AnyCalendar::Iso(_) => day_of(Date::try_new_iso(year, place, day)),
        AnyCalendar::Japanese(_) => None,
        AnyCalendar::JapaneseExtended(_) => None,
        AnyCalendar::Julian(_) => day_of(Date::try_new_julian(year, place, day)),
        AnyCalendar::Persian(c) => day_of(Date::try_new_persian(year, place, day, *c)),
        AnyCalendar::Roc(_) => day_of(Date::try_new_roc(year, place, day)),
    }
}

/// That the own constructor of a kind of calendars makes the date of this day of an extended year, the month with this
/// number, which may be a leap month, and a day.
fn assert_made(
    rt: &impl Abort,
    kind: AnyCalendarKind,
    year: i32,
    (number, is_leap): (u8, bool),
    day: u8,
    want: i64,
) {
    let month = if is_leap {
        Month::leap(number)
    } else {
        Month::new(number)
    };
    let found = day_made(&calendar_of(kind), year, (number, month), day);
    assert_holds(rt, want, found == Some(want));
}

/// 1992-09-02 of the ISO calendar.
#[test]
fn one_day_is_made_in_five_calendars(rt: HostRuntime) {
    use AnyCalendarKind::{Buddhist, Gregorian, Indian, Iso, Roc};
    for &(kind, year, month, day) in &[
        (Iso, 1992, 9, 2),
        (Gregorian, 1992, 9, 2),
        (Buddhist, 2535, 9, 2),
        (Roc, 81, 9, 2),
        (Indian, 1914, 6, 11),
    ] {
        assert_made(&rt, kind, year, (month, false), day, 727443);
    }
}

/// -0004-12-31 and 2022-01-01 of the ISO calendar are among them.
#[test]
fn solar_dates_have_known_days(rt: HostRuntime) {
    use AnyCalendarKind::{Gregorian, Julian, Persian};
    for &(kind, year, month, day, want) in &[
        (Gregorian, -4, 12, 31, -1461),
        (Julian, -1, 12, 31, -368),
        (Julian, 2021, 12, 19, 738156),
        (Persian, 1502, 12, 30, 775489),
    ] {
        assert_made(&rt, kind, year, (month, false), day, want);
    }
}

/// 1970-01-02 and 2023-09-11 of the ISO calendar are among them.
#[test]
fn dates_of_thirteen_months_have_known_days(rt: HostRuntime) {
    use AnyCalendarKind::{Coptic, Ethiopian, EthiopianAmeteAlem};
    for &(kind, year, month, day, want) in &[
        (Ethiopian, 1962, 4, 24, 719164),
        (EthiopianAmeteAlem, 7462, 4, 24, 719164),
        (Ethiopian, 2015, 13, 6, 738774),
        (Coptic, 1687, 13, 6, 719781),
    ] {
        assert_made(&rt, kind, year, (month, false), day, want);
    }
}

#[test]
fn hijri_dates_have_known_days(rt: HostRuntime) {
    let civil = Hijri::new_tabular(
        TabularAlgorithmLeapYears::TypeII,
        TabularAlgorithmEpoch::Friday,
    );
    assert!(rt; day_of_hijri(1445, 2, 1, civil) == Some(738750));
    assert!(rt; day_of_hijri(1446, 1, 1, Ref(&civil)) == Some(739075));
}

#[test]
fn lunisolar_dates_have_known_days(rt: HostRuntime) {
    use AnyCalendarKind::{Chinese, Dangi, Hebrew};
    for &(kind, year, month, is_leap, day, want) in &[
        (Hebrew, 5782, 5, true, 9, 738196),
        (Hebrew, 5783, 1, false, 15, 738438),
        (Chinese, 1900, 8, true, 1, 693862),
        (Dangi, 1911, 12, false, 30, 698025),
    ] {
        assert_made(&rt, kind, year, (month, is_leap), day, want);
    }
}

/// The Japanese calendar with an era of 2086 after those that it has.
fn japanese_with_a_later_era(rt: &impl Abort) -> Japanese {
    let start = EraStartDate {
        year: 2086,
        month: 11,
        day: 1,
    };
    let eras = JapaneseEras::with_last_era(start, TinyAsciiStr::of_text(b"fuzu"), 8);
    Japanese::with_eras(eras.expect(rt, "the era is accepted"))
}

#[test]
fn japanese_dates_are_made_in_any_era(rt: HostRuntime) {
    let later = japanese_with_a_later_era(&rt);
    for &(era, year, month, day, same_era, same_year) in &[
        ("ce", 2024, 3, 1, "reiwa", 6),
        ("heisei", 1, 1, 1, "showa", 64),
        ("fuzu", 1, 10, 31, "reiwa", 68),
    ] {
        let made = day_in_era((era, year), month, day, later);
        let same = day_in_era((same_era, same_year), month, day, Ref(&later));
        assert_holds(&rt, era, made.is_some());
        assert_holds(&rt, era, made == same);
    }
    let heisei = day_in_era(("heisei", 1), 1, 1, Japanese::new());
    assert!(rt; heisei == Some(726103));
}

/// That no date was made, with this error.
fn assert_fault<A: AsCalendar, E: PartialEq + Debug + Copy>(
    rt: &impl Abort,
    made: Result<Date<A>, E>,
    want: E,
)
where
    A::Calendar: Calendar,
{
    assert_holds(rt, want, made.err() == Some(want));
}

fn range_error(field: &'static str, value: i32, min: i32, max: i32) -> RangeError {
    RangeError {
        field,
        value,
        min,
        max,
    }
}

#[test]
fn the_first_argument_out_of_its_range_is_named(rt: HostRuntime) {
    for &(year, month, day, field, value, min, max) in &[
        (2024, 0, 1, "month", 0, 1, 12),
        (10000, 1, 1, "year", 10000, -9999, 9999),
        (-10000, 13, 32, "year", -10000, -9999, 9999),
        (2021, 2, 29, "day", 29, 1, 28),
    ] {
        let made = Date::try_new_iso(year, month, day);
        assert_fault(&rt, made, range_error(field, value, min, max));
    }
    assert_fault(
        &rt,
        Date::try_new_coptic(1686, 14, 7),
        range_error("month", 14, 1, 13),
    );
}

#[test]
fn a_month_or_an_era_that_is_not_there_is_named(rt: HostRuntime) {
    assert_fault(
        &rt,
        Date::try_new_hebrew_v2(5783, Month::leap(5), 1),
        LunisolarDateError::MonthNotInYear,
    );
    assert_fault(
        &rt,
        Date::try_new_japanese_with_calendar("edo", 1, 0, 1, Japanese::new()),
        DateError::UnknownEra,
    );
}

const KINDS: [AnyCalendarKind; 20] = [
    AnyCalendarKind::Buddhist,
    AnyCalendarKind::Chinese,
    AnyCalendarKind::Coptic,
    AnyCalendarKind::Dangi,
    AnyCalendarKind::Ethiopian,
    AnyCalendarKind::EthiopianAmeteAlem,
    AnyCalendarKind::Gregorian,
    AnyCalendarKind::Hebrew,
    AnyCalendarKind::Indian,
    AnyCalendarKind::HijriTabularTypeIIFriday,
    AnyCalendarKind::HijriTabularTypeIIThursday,
    AnyCalendarKind::HijriSimulatedMecca,
    AnyCalendarKind::HijriUmmAlQura,
    AnyCalendarKind::Iso,
    AnyCalendarKind::Japanese,
    AnyCalendarKind::Julian,
    AnyCalendarKind::Persian,
    AnyCalendarKind::Roc,
    AnyCalendarKind::HijriTabularTypeIFriday,
    AnyCalendarKind::HijriTabularTypeIThursday,
];

/// The month of a date as a constructor takes it, the year in its era, where it has one, and whether the date comes
/// after another.
fn answers_of<A: AsCalendar>(date: &Date<A>, before: &Date<A>) -> (Month, Option<EraYear>, bool)
where
    A::Calendar: Calendar,
{
    let comes_after = before.date_cmp(date) == Some(Ordering::Less);
    (date.month().to_input(), date.year().era(), comes_after)
}

/// The same of dates of any calendar. What hands over `AnyCalendar` is dear to prove, so one function asks such dates.
fn answers_of_any(
    date: &Date<AnyCalendar<'static>>,
    before: &Date<AnyCalendar<'static>>,
) -> (Month, Option<EraYear>, bool) {
    answers_of(date, before)
}

/// The day number of the date that a calendar's own constructor makes of a date's parts, its month and its year in an era.
fn day_made_again(
    calendar: &AnyCalendar<'static>,
    (year, place, day): (i32, u8, u8),
    month: Month,
    named: Option<EraYear>,
) -> Option<i64> {
    match calendar {
        AnyCalendar::Japanese(c) | AnyCalendar::JapaneseExtended(c) => {
            let named = named?;
            day_in_era((named.era.as_str(), named.year), place, day, Ref(c))
        }
        other => day_made(other, year, (place, month), day),
    }
}

/// That each of so many days from one on has a date after that of the day before, which its own constructor makes.
fn assert_made_again(rt: &impl Abort, kind: AnyCalendarKind, first: i64, count: i64) {
    let calendar = calendar_of(kind);
    let mut before = date_on(first.saturating_sub(1), kind);
    for number in first..first.saturating_add(count) {
        let date = date_on(number, kind);
        let (month, named, comes_after) = answers_of_any(&date, &before);
        let made = day_made_again(&calendar, parts_of(&date), month, named);
        assert_holds(rt, number, made == Some(number));
        assert_holds(rt, number, comes_after);
        before = date;
    }
}

/// Days from -1000 to 1000 and from 738000 to 739000.
#[test]
fn constructors_give_each_date_back_and_days_give_its_order(rt: HostRuntime) {
    for &kind in &KINDS {
        assert_made_again(&rt, kind, -1000, 2001);
        assert_made_again(&rt, kind, 738000, 1001);
    }
}
