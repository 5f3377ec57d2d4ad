//! Known years, and years by another program.
//!
//! The mean years are those of a program in Python that tries the moons and the terms one after another.

ghost use Rattle.std.specs.Prelude.{◌≡◌, IsTrue, pos};
ghost use Rattle.cal_days.specs.Day.{IsBetween, IsValidDay};
ghost use Rattle.cal_east_asian.specs.EastAsianSystem.{east_asian_belongs};
ghost use Rattle.cal_east_asian.specs.MeanYears.{IsOffset};
ghost use Rattle.cal_east_asian.specs.declared.sides.Side.TheVariants as side;

use crate::mean_rules::MeanRules;
use crate::tests::expected::{assert_at, assert_day, assert_holds, assert_same, assert_year};
use cal_base::Calendar;
use cal_days::RataDie;
use cal_east_asian::{
    ChineseDateInner, ChineseTraditional, EastAsianRow, EastAsianTable, EastAsianTraditional,
    EastAsianTraditionalYear, KoreanTraditional, Rules, Side, mean_year, qing_year,
};
use cal_types::{
    DateDifferenceOptions, DateDuration, DateDurationUnit, DateFields, DateFromFieldsError,
    DateFromFieldsOptions, LeapStatus, MissingFieldsStrategy, Month, Overflow, TableFault,
    TablePart, YearInput,
};
use std::process::Abort;

/// A bit for each month of 30 days, the first month's lowest.
fn long_months(year: EastAsianTraditionalYear) -> u16 {
    let mut bits: u16 = 0;
    for place in 1..=year.months() {
        if year.month_len(place) == 30 {
            bits |= 1u16.wrapping_shl(u32::from(place - 1));
        }
    }
    bits
}

/// That an offset from Greenwich is one of the rules.
fn assert_offset(rt: &impl Abort, offset: i64)
    ensures { IsOffset offset }
{
    assert!(rt; 27_940_000 <= offset && offset <= 32_400_000);
}

/// That a year starts on a day, and has this leap month, or 0 for none.
fn assert_year_shape(
    rt: &impl Abort,
    found: EastAsianTraditionalYear,
    year: i32,
    new_year: i64,
    leap_month: u8,
) {
    assert_at(rt, year, found.new_year().to_i64_date(), new_year);
    assert_at(rt, year, found.leap_month().unwrap_or(0), leap_month);
}

#[test]
fn mean_years_have_known_months(rt: HostRuntime) {
    for &(offset, year, new_year, bits, leap_month) in &[
        (28_800_000, 1912, 698026, 0b10101101010, 0),
        (32_400_000, 1912, 698026, 0b10101011010, 0),
        (27_940_000, 1899, 693271, 0b101010101101, 0),
        (28_800_000, 2024, 738926, 0b11010101010, 0),
        (32_400_000, 2024, 738926, 0b10110101010, 0),
        (28_800_000, 2025, 739280, 0b1010101010101, 9),
        (28_800_000, 2033, 742204, 0b1101010101010, 11),
        (27_940_000, 0, -314, 0b101010101011, 0),
        (27_940_000, -8000000, -2921940336, 0b101101010101, 9),
        (28_800_000, 8000000, 2921939679, 0b110101010101, 0),
        (32_400_000, 8000000, 2921939679, 0b101101010101, 0),
    ] {
        assert_offset(&rt, offset);
        assert_year(&rt, year);
        let found = mean_year(offset, year);
        assert_at(&rt, year, found.related_iso(), year);
        assert_year_shape(&rt, found, year, new_year, leap_month);
        assert_at(&rt, year, long_months(found), bits);
    }
}

#[test]
fn days_lie_in_known_mean_years(rt: HostRuntime) {
    for &(offset, day, year) in &[
        (28_800_000, 738925, 2023),
        (28_800_000, 738926, 2024),
        (28_800_000, 739279, 2024),
        (28_800_000, 739280, 2025),
        (27_940_000, -365242499, -1000000),
        (32_400_000, 365242134, 999999),
    ] {
        assert_offset(&rt, offset);
        assert_day(&rt, day);
        let calendar = EastAsianTraditional(MeanRules::new(offset));
        let date = calendar.from_rata_die(RataDie::new(day));
        assert_at(&rt, day, calendar.extended_year(&date), year);
    }
}

#[test]
fn qing_years_have_their_days_and_leap_months(rt: HostRuntime) {
    for &(year, new_year, long, leap_month) in &[
        (1900, 693626, 7, 9),
        (1901, 694010, 6, 0),
        (1902, 694364, 7, 0),
        (1903, 694719, 6, 6),
        (1904, 695102, 6, 0),
        (1905, 695456, 7, 0),
        (1906, 695811, 7, 5),
        (1907, 696195, 6, 0),
        (1908, 696549, 7, 0),
        (1909, 696904, 7, 3),
        (1910, 697288, 6, 0),
        (1911, 697642, 7, 7),
    ] {
        let found = qing_year(year).expect(&rt, "the year is there");
        assert_year_shape(&rt, found, year, new_year, leap_month);
        assert_at(&rt, year, long_months(found).count_ones(), long);
    }
    assert_holds(
        &rt,
        "the years about them",
        qing_year(1899).is_none() && qing_year(1912).is_none(),
    );
}

/// The table of Chinese rows.
pub(super) fn table_of<'t>(rt: &impl Abort, rows: &'t [EastAsianRow]) -> EastAsianTable<'t>
    ensures { result.side ≡ side.China }
{
    let table = EastAsianTable::try_new(Side::China, rows);
    table.expect(rt, "the table is accepted")
}

/// The rows of a hundred years from 1912 on.
pub(super) fn hundred_rows() -> [EastAsianRow; 100] {
    let mut rows = [mean_year(28_800_000, 1912).row(); 100];
    for place in 0u8..100 {
        rows[usize::from(place)] = mean_year(28_800_000, 1912 + i32::from(place)).row();
    }
    rows
}

/// The date of an extended year, a month and a day.
fn dated<R: Rules>(
    rt: &impl Abort,
    calendar: &EastAsianTraditional<R>,
    date: (i32, Month, u8),
) -> ChineseDateInner<R>
    ensures { IsTrue (east_asian_belongs (R.year_of calendar.now.0) result.0.parts) }
{
    let (year, month, day) = date;
    let made = calendar.new_date(YearInput::Extended(year), month, day);
    made.expect(rt, "the date is there")
}

/// That the date of an extended year, a month and a day has a day number.
pub(super) fn assert_dated<R: Rules>(
    rt: &impl Abort,
    calendar: &EastAsianTraditional<R>,
    date: (i32, Month, u8),
    number: i64,
) {
    let made = dated(rt, calendar, date);
    assert_same(rt, calendar.to_rata_die(&made).to_i64_date(), number);
}

/// The first day of a year, and the place of its leap month, or 0.
fn start_and_leap_month<R: Rules>(
    rt: &impl Abort,
    calendar: &EastAsianTraditional<R>,
    year: i32,
) -> (i64, u8) {
    let made = calendar.new_date(YearInput::Extended(year), Month::new(1), 1);
    let date = made.expect(rt, "the year has a first day");
    let mut leap_month = 0;
    for number in 1..=12 {
        if let Ok(found) = calendar.new_date(YearInput::Extended(year), Month::leap(number), 1) {
            leap_month = calendar.month(&found).ordinal;
        }
    }
    (calendar.to_rata_die(&date).to_i64_date(), leap_month)
}

/// That a year starts on a day and has a leap month in a place, or 0 for none.
fn assert_computed_year<R: Rules>(
    rt: &impl Abort,
    calendar: &EastAsianTraditional<R>,
    year: i32,
    (first_day, leap_month): (i64, u8),
) {
    let found = start_and_leap_month(rt, calendar, year);
    assert_at(rt, year, found.0, first_day);
    assert_at(rt, year, found.1, leap_month);
}

/// In China and in Korea.
#[test]
fn computed_years_change_at_1900_and_1912(rt: HostRuntime) {
    let china = ChineseTraditional::new(EastAsianTable::none(Side::China));
    let korea = KoreanTraditional::new(EastAsianTable::none(Side::Korea));
    for &(year, in_china, in_korea) in &[
        (1899, (693271, 0), (693271, 0)),
        (1900, (693626, 9), (693626, 9)),
        (1911, (697642, 7), (697642, 7)),
        (1912, (698026, 0), (698026, 0)),
        (1938, (707505, 10), (707505, 11)),
    ] {
        assert_computed_year(&rt, &china, year, in_china);
        assert_computed_year(&rt, &korea, year, in_korea);
    }
}

/// That a day lies in a year of a calendar.
fn assert_year_on<R: Rules>(
    rt: &impl Abort,
    calendar: &EastAsianTraditional<R>,
    day: i64,
    year: i32,
) {
    assert_day(rt, day);
    let date = calendar.from_rata_die(RataDie::new(day));
    assert_at(rt, day, calendar.extended_year(&date), year);
}

#[test]
fn days_lie_in_known_computed_years(rt: HostRuntime) {
    let china = ChineseTraditional::new(EastAsianTable::none(Side::China));
    let korea = KoreanTraditional::new(EastAsianTable::none(Side::Korea));
    for &(day, year) in &[
        (693625, 1899),
        (693626, 1900),
        (698025, 1911),
        (698026, 1912),
        (-365242499, -1000000),
        (365242134, 999999),
    ] {
        assert_year_on(&rt, &china, day, year);
        assert_year_on(&rt, &korea, day, year);
    }
}

/// The difference in months between the first day of a year and that of another.
fn months_passed<R: Rules>(
    rt: &impl Abort,
    calendar: &EastAsianTraditional<R>,
    (from, to): (i32, i32),
) -> DateDuration {
    let first = calendar.new_date(YearInput::Extended(from), Month::new(1), 1);
    let last = calendar.new_date(YearInput::Extended(to), Month::new(1), 1);
    let options = DateDifferenceOptions {
        largest_unit: Some(DateDurationUnit::Months),
    };
    calendar.until(
        &first.expect(rt, "the year has a first day"),
        &last.expect(rt, "the year has a first day"),
        options,
    )
}

/// That so many months lie between the first day of a year and that of another, and whether they lead back.
fn assert_months<R: Rules>(
    rt: &impl Abort,
    calendar: &EastAsianTraditional<R>,
    years: (i32, i32),
    months: u32,
    is_negative: bool,
) {
    let from = years.0;
    let passed = months_passed(rt, calendar, years);
    assert_at(rt, from, passed.months, months);
    assert_at(rt, from, passed.is_negative, is_negative);
}

#[test]
fn months_of_computed_years_are_counted(rt: HostRuntime) {
    let china = ChineseTraditional::new(EastAsianTable::none(Side::China));
    let korea = KoreanTraditional::new(EastAsianTable::none(Side::Korea));
    assert_months(&rt, &china, (1900, 1912), 149, false);
    assert_months(&rt, &korea, (1900, 1901), 13, false);
    assert_months(&rt, &korea, (1912, 1911), 13, true);
    assert_months(&rt, &china, (1899, 1900), 12, false);
    assert_months(&rt, &china, (2024, 2026), 25, false);
}

/// Rows that are computed years change no count of months, whether all rows lie between the years or some.
#[test]
fn months_of_rows_are_those_of_their_years(rt: HostRuntime) {
    let rows = hundred_rows();
    let china = ChineseTraditional::new(table_of(&rt, &rows));
    let computed = ChineseTraditional::new(EastAsianTable::none(Side::China));
    for &years in &[
        (1850, 2100),
        (1912, 2012),
        (1911, 2013),
        (1850, 1900),
        (1850, 1950),
        (1912, 1913),
        (1950, 1970),
        (1950, 2012),
        (2011, 2100),
        (2012, 2100),
    ] {
        let expected = months_passed(&rt, &computed, years).months;
        let found = months_passed(&rt, &china, years).months;
        assert_at(&rt, years, found, expected);
    }
}

/// That a month of 2025 stands in a place and has a leap status.
fn assert_month_of_2025<R: Rules>(
    rt: &impl Abort,
    calendar: &EastAsianTraditional<R>,
    month: Month,
    ordinal: u8,
    status: LeapStatus,
) {
    let date = dated(rt, calendar, (2025, month, 1));
    let found = calendar.month(&date);
    assert_at(rt, ordinal, found.ordinal, ordinal);
    assert_at(rt, ordinal, found.leap_status(), status);
}

/// By the mean years at 8 hours 2025 has the leap month 8 in the place 9, and the month before it is its base.
#[test]
fn leap_months_are_shown_over_any_rules(rt: HostRuntime) {
    let calendar = EastAsianTraditional(MeanRules::new(28_800_000));
    assert_date(&rt, &calendar, 739280, (2025, 42, 13), (Month::new(1), 1));
    for &(month, ordinal, status) in &[
        (Month::new(7), 7, LeapStatus::Normal),
        (Month::new(8), 8, LeapStatus::Base),
        (Month::leap(8), 9, LeapStatus::Leap),
        (Month::new(9), 10, LeapStatus::Normal),
    ] {
        assert_month_of_2025(&rt, &calendar, month, ordinal, status);
    }
    let absent = calendar.new_date(YearInput::Extended(2024), Month::leap(8), 1);
    assert_same(&rt, absent.is_ok(), false);
}

/// A date belongs to the calendar of its own rules.
#[test]
fn a_date_belongs_to_its_own_rules(rt: HostRuntime) {
    let eight = EastAsianTraditional(MeanRules::new(28_800_000));
    let nine = EastAsianTraditional(MeanRules::new(32_400_000));
    let date = eight.from_rata_die(RataDie::new(738926));
    assert_holds(&rt, "its own rules", eight.owns(&date));
    assert_same(&rt, nine.owns(&date), false);
    assert_same(&rt, eight.check_date_compatibility(&nine).is_ok(), false);
    assert_same(&rt, eight.to_rata_die(&date).to_i64_date(), 738926);
}

/// A year is read from the first days of its months.
#[test]
fn a_year_has_the_lengths_between_its_starts(rt: HostRuntime) {
    let starts = [
        RataDie::new(738926),
        RataDie::new(738955),
        RataDie::new(738985),
        RataDie::new(739014),
        RataDie::new(739044),
        RataDie::new(739073),
        RataDie::new(739103),
        RataDie::new(739132),
        RataDie::new(739162),
        RataDie::new(739191),
        RataDie::new(739221),
        RataDie::new(739250),
        RataDie::new(739280),
        RataDie::new(739309),
    ];
    let year = EastAsianTraditionalYear::try_new(2024, starts, Some(3)).expect(&rt, "a year");
    assert_same(&rt, year.months(), 13);
    assert_same(&rt, year.month_len(1), 29);
    assert_same(&rt, year.month_len(2), 30);
    assert_same(&rt, year.leap_month(), Some(3));
    for &place in &[1u8, 14] {
        let with_no_such_place = EastAsianTraditionalYear::try_new(2024, starts, Some(place));
        assert_same(&rt, with_no_such_place.is_some(), false);
    }
    let without_a_leap_month = EastAsianTraditionalYear::try_new(2023, starts, None);
    assert_same(&rt, without_a_leap_month.is_some(), false);
}

/// That a calendar has a name, and that each day lies in the month in a place of its year.
fn assert_named<R: Rules>(
    rt: &impl Abort,
    calendar: &EastAsianTraditional<R>,
    name: &'static str,
    days: &[(i64, u8)],
) {
    assert_same(rt, calendar.debug_name(), name);
    for &(day, ordinal) in days {
        assert_day(rt, day);
        let date = calendar.from_rata_die(RataDie::new(day));
        assert_at(rt, day, calendar.month(&date).ordinal, ordinal);
    }
}

/// That a day has a year, a year of the cycle, which is a leap year where it has 13 months, a month and a day of the
/// month.
fn assert_date<R: Rules>(
    rt: &impl Abort,
    calendar: &EastAsianTraditional<R>,
    day: i64,
    (year, cycle, months): (i32, u8, u8),
    (month, day_of_month): (Month, u8),
) {
    assert_day(rt, day);
    let date = calendar.from_rata_die(RataDie::new(day));
    assert_at(rt, day, calendar.extended_year(&date), year);
    assert_at(rt, day, calendar.year_info(&date).year, cycle);
    assert_at(rt, day, calendar.months_in_year(&date), months);
    assert_at(rt, day, calendar.is_in_leap_year(&date), months == 13);
    assert_at(rt, day, calendar.month(&date).to_input(), month);
    assert_at(rt, day, calendar.day_of_month(&date).0, day_of_month);
}

#[test]
fn days_have_known_dates_in_china_and_korea(rt: HostRuntime) {
    let china = ChineseTraditional::new(EastAsianTable::none(Side::China));
    let korea = KoreanTraditional::new(EastAsianTable::none(Side::Korea));
    for &(day, year, date) in &[
        (698025, (1911, 48, 13), (Month::new(12), 30)),
        (698026, (1912, 49, 12), (Month::new(1), 1)),
        (693862, (1900, 37, 13), (Month::leap(8), 1)),
        (694216, (1901, 38, 12), (Month::new(8), 1)),
    ] {
        assert_date(&rt, &china, day, year, date);
    }
    let ordinals = [(698025, 13), (698026, 1), (693862, 9), (694216, 8)];
    assert_named(&rt, &china, "Chinese", &ordinals);
    assert_named(&rt, &korea, "Korean", &ordinals);
}

/// From the leap month 8 of 1900 to the month 8 of 1901 no year has passed, since its plain month stands in for the
/// leap month.
#[test]
fn a_leap_month_counts_in_a_difference(rt: HostRuntime) {
    let china = ChineseTraditional::new(EastAsianTable::none(Side::China));
    let from = china.from_rata_die(RataDie::new(693862));
    let to = china.from_rata_die(RataDie::new(694216));
    let options = DateDifferenceOptions {
        largest_unit: Some(DateDurationUnit::Years),
    };
    let passed = china.until(&from, &to, options);
    assert_same(&rt, passed.years, 0);
    assert_same(&rt, passed.months, 12);
    assert_same(&rt, passed.days, 0);
}

/// That so many months and days lie between the first valid day and the last one.
fn assert_months_of_valid_days<R: Rules>(
    rt: &impl Abort,
    calendar: &EastAsianTraditional<R>,
    months: u32,
    days: u32,
) {
    let first = calendar.from_rata_die(RataDie::new(-365242499));
    let last = calendar.from_rata_die(RataDie::new(365242134));
    let options = DateDifferenceOptions {
        largest_unit: Some(DateDurationUnit::Months),
    };
    let passed = calendar.until(&first, &last, options);
    assert_same(rt, passed.months, months);
    assert_same(rt, passed.days, days);
}

/// From the first valid day to the last one there are as many months as mean moons, by a program in Python that
/// numbers the moons of the two days.
#[test]
fn months_are_counted_over_all_valid_days(rt: HostRuntime) {
    let china = ChineseTraditional::new(EastAsianTable::none(Side::China));
    let korea = KoreanTraditional::new(EastAsianTable::none(Side::Korea));
    assert_months_of_valid_days(&rt, &china, 24736541, 11);
    assert_months_of_valid_days(&rt, &korea, 24736541, 11);
}

/// The reference year of a month's first day, or the fault where there is none.
fn reference_year<R: Rules>(
    calendar: &EastAsianTraditional<R>,
    month: Month,
    overflow: Overflow,
) -> Result<i32, DateFromFieldsError> {
    let fields = DateFields {
        month: Some(month),
        day: Some(1),
        ..DateFields::default()
    };
    let options = DateFromFieldsOptions {
        overflow: Some(overflow),
        missing_fields_strategy: Some(MissingFieldsStrategy::Ecma),
    };
    match calendar.from_fields(fields, options) {
        Ok(date) => Ok(calendar.extended_year(&date)),
        Err(fault) => Err(fault),
    }
}

/// A leap month 1 has no reference year, and leaves its place to the month 1 under Constrain alone.
#[test]
fn a_leap_month_without_a_reference_year_is_constrained(rt: HostRuntime) {
    let china = ChineseTraditional::new(EastAsianTable::none(Side::China));
    let refused = Err(DateFromFieldsError::MonthNotInYear);
    for &(month, overflow, expected) in &[
        (Month::leap(1), Overflow::Constrain, Ok(1972)),
        (Month::leap(8), Overflow::Constrain, Ok(1957)),
        (Month::new(12), Overflow::Reject, Ok(1971)),
        (Month::leap(1), Overflow::Reject, refused),
    ] {
        let found = reference_year(&china, month, overflow);
        assert_at(&rt, month, found, expected);
    }
}

/// The day so many days after another.
fn day_after(first: i64, days: i64) -> RataDie
    requires first { IsBetween (pos 0) (pos 4000000) first }
    requires days { IsBetween (pos 0) (pos 400) days }
{
    RataDie::new(first + days)
}

/// A year without a leap month, whose months have 30 and 29 days in turn, but for the last one, which has so many.
fn year_by_turns(related_iso: i32, first: i64, last: i64) -> Option<EastAsianTraditionalYear>
    requires first { IsBetween (pos 0) (pos 4000000) first }
    requires last { IsBetween (pos 29) (pos 30) last }
{
    let starts = [
        day_after(first, 0),
        day_after(first, 30),
        day_after(first, 59),
        day_after(first, 89),
        day_after(first, 118),
        day_after(first, 148),
        day_after(first, 177),
        day_after(first, 207),
        day_after(first, 236),
        day_after(first, 266),
        day_after(first, 295),
        day_after(first, 325),
        day_after(first, 325 + last),
        day_after(first, 355 + last),
    ];
    EastAsianTraditionalYear::try_new(related_iso, starts, None)
}

/// A row of a year of twelve months of 30 days.
fn row_of_thirties(rt: &impl Abort, related_iso: i32, first: i64) -> EastAsianRow
    requires { IsBetween (pos 0) (pos 4000000) first }
{
    let starts = [
        day_after(first, 0),
        day_after(first, 30),
        day_after(first, 60),
        day_after(first, 90),
        day_after(first, 120),
        day_after(first, 150),
        day_after(first, 180),
        day_after(first, 210),
        day_after(first, 240),
        day_after(first, 270),
        day_after(first, 300),
        day_after(first, 330),
        day_after(first, 360),
        day_after(first, 390),
    ];
    let year = EastAsianTraditionalYear::try_new(related_iso, starts, None);
    year.expect(rt, "the year is there").row()
}

/// A row of 1912 in which the first month has 30 days; in the computed year it has 29.
fn row_of_1912(rt: &impl Abort) -> EastAsianRow {
    let year = year_by_turns(1912, 698026, 29);
    year.expect(rt, "the year is there").row()
}

/// The place of the month of a day, and its day of the month.
fn month_and_day<R: Rules>(calendar: &EastAsianTraditional<R>, day: RataDie) -> (u8, u8)
    requires { IsValidDay day }
{
    let date = calendar.from_rata_die(day);
    (
        calendar.month(&date).ordinal,
        calendar.day_of_month(&date).0,
    )
}

#[test]
fn a_row_takes_the_place_of_a_computed_year(rt: HostRuntime) {
    let rows = [row_of_1912(&rt)];
    let table = table_of(&rt, &rows);
    let day = RataDie::new(698055);
    let by_the_row = month_and_day(&ChineseTraditional::new(table), day);
    assert_same(&rt, by_the_row, (1, 30));
    let none = EastAsianTable::none(Side::China);
    let computed = month_and_day(&ChineseTraditional::new(none), day);
    assert_same(&rt, computed, (2, 1));
}

/// That dates of each of two calendars can be compared, and not those of both, which have different tables.
fn assert_other_table<R: Rules>(
    rt: &impl Abort,
    calendar: &EastAsianTraditional<R>,
    other: &EastAsianTraditional<R>,
) {
    let same = calendar.check_date_compatibility(calendar).is_ok();
    assert_holds(rt, "the same table", same);
    let same = other.check_date_compatibility(other).is_ok();
    assert_holds(rt, "the same other table", same);
    let different = calendar.check_date_compatibility(other).is_err();
    assert_holds(rt, "another table", different);
}

#[test]
fn calendars_over_other_rows_are_not_compatible(rt: HostRuntime) {
    let rows = [row_of_1912(&rt)];
    let table = table_of(&rt, &rows);
    let china = ChineseTraditional::new(table);
    let computed = ChineseTraditional::new(EastAsianTable::none(Side::China));
    assert_other_table(&rt, &china, &computed);
}

#[test]
fn korea_accepts_the_row_too(rt: HostRuntime) {
    let rows = [row_of_1912(&rt)];
    let korea = EastAsianTable::try_new(Side::Korea, &rows);
    assert_holds(&rt, "Korea", korea.is_ok());
}

/// January 19 of 2023 is day 738539, and places of leap months are 2 to 13.
#[test]
fn a_row_is_read_as_the_nearest_year(rt: HostRuntime) {
    for &(start_offset, leap_month, start, place) in &[
        (0, 0, 738539, None),
        (3, 3, 738542, Some(3)),
        (34, 2, 738573, Some(2)),
        (35, 1, 738573, None),
        (255, 13, 738573, Some(13)),
        (255, 14, 738573, None),
    ] {
        let row = EastAsianRow {
            related_iso: 2023,
            long_months: 0x15b2,
            leap_month,
            start_offset,
        };
        let year = row.year();
        assert_at(&rt, leap_month, year.new_year().to_i64_date(), start);
        assert_at(&rt, leap_month, year.leap_month(), place);
    }
    for &(related_iso, number) in &[
        (-8000001, -8000000),
        (-8000000, -8000000),
        (8000000, 8000000),
        (i32::MAX, 8000000),
    ] {
        let row = EastAsianRow {
            related_iso,
            long_months: 0x15b2,
            leap_month: 3,
            start_offset: 3,
        };
        assert_at(&rt, related_iso, row.year().related_iso(), number);
    }
}

/// A row of these fields.
fn row_with(related_iso: i32, long_months: u16, leap_month: u8, start_offset: u8) -> EastAsianRow {
    EastAsianRow {
        related_iso,
        long_months,
        leap_month,
        start_offset,
    }
}

/// A row that names no year is refused as such, whatever else its table breaks.
#[test]
fn a_row_that_names_no_year_is_refused_first(rt: HostRuntime) {
    let own = row_of_1912(&rt);
    for &row in &[
        row_with(1912, 0x555, 0, 35),
        row_with(1912, 0x555, 0, 255),
        row_with(1912, 0x1555, 0, 30),
        row_with(1912, 0x2555, 2, 30),
        row_with(1912, 0x555, 1, 30),
        row_with(1912, 0x555, 14, 30),
        row_with(1912, 0x555, 255, 30),
        row_with(8000001, 0x555, 0, 30),
        row_with(-8000001, 0x555, 0, 30),
    ] {
        let part = TablePart::Range;
        let first = EastAsianTable::try_new(Side::China, &[row]).err();
        assert_at(&rt, row, first, Some(TableFault { row: 1, part }));
        let second = EastAsianTable::try_new(Side::Korea, &[own, row]).err();
        assert_at(&rt, row, second, Some(TableFault { row: 2, part }));
    }
}

#[test]
fn a_year_has_one_row(rt: HostRuntime) {
    for &(number, bits, place, start) in &[
        (1912, 0x555, 0, 30),
        (1912, 0xfff, 0, 0),
        (2023, 0x15b2, 3, 3),
        (2023, 0x1fff, 13, 34),
        (-8000000, 0, 2, 34),
        (8000000, 1, 0, 34),
    ] {
        let row = row_with(number, bits, place, start).year().row();
        let fields = (
            row.related_iso,
            row.long_months,
            row.leap_month,
            row.start_offset,
        );
        assert_at(&rt, number, fields, (number, bits, place, start));
    }
}

/// That a year may start on a day, and its last month have so many.
fn assert_start_and_end(rt: &impl Abort, first: i64, last: i64)
    ensures first { IsBetween (pos 0) (pos 4000000) first }
    ensures last { IsBetween (pos 29) (pos 30) last }
{
    assert!(rt; 0 <= first && first <= 4000000 && 29 <= last && last <= 30);
}

#[test]
fn a_single_row_is_refused_for_its_first_fault(rt: HostRuntime) {
    for &(related_iso, first, last, part) in &[
        (1912, 698026, 30, TablePart::End),
        (1912, 698027, 29, TablePart::Join),
        (1912, 698027, 30, TablePart::Join),
        (1911, 697642, 30, TablePart::Year),
        (10000, 3652079, 29, TablePart::Year),
    ] {
        assert_start_and_end(&rt, first, last);
        let year = year_by_turns(related_iso, first, last).expect(&rt, "the year is there");
        let fault = EastAsianTable::try_new(Side::China, &[year.row()]).err();
        assert_at(&rt, related_iso, fault, Some(TableFault { row: 1, part }));
    }
}

/// Four years without a leap month follow 1911, which has one. Where the third is the last row, it doesn't end where
/// the computed 1915 starts, and this is found before its want of a leap month.
#[test]
fn rows_are_refused_for_the_first_fault(rt: HostRuntime) {
    let y1912 = row_of_thirties(&rt, 1912, 698026);
    let y1913 = row_of_thirties(&rt, 1913, 698386);
    let y1914 = row_of_thirties(&rt, 1914, 698746);
    let y1915 = row_of_thirties(&rt, 1915, 699106);
    let four = [y1912, y1913, y1914, y1915];
    let three = [y1912, y1913, y1914];
    let gap = [y1912, y1914];
    let twice = [y1912, y1912];
    for &(fault, row, part) in &[
        (
            EastAsianTable::try_new(Side::China, &four).err(),
            3,
            TablePart::Leap,
        ),
        (
            EastAsianTable::try_new(Side::China, &three).err(),
            3,
            TablePart::End,
        ),
        (
            EastAsianTable::try_new(Side::China, &gap).err(),
            2,
            TablePart::Year,
        ),
        (
            EastAsianTable::try_new(Side::China, &twice).err(),
            2,
            TablePart::Year,
        ),
    ] {
        assert_at(&rt, row, fault, Some(TableFault { row, part }));
    }
}
