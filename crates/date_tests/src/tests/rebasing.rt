//! Dates that were stored under a table of years, under the longer table.

ghost use Rattle.std.specs.Prelude.{◌≡◌};

use crate::tests::expected::assert_holds;
use icu_calendar::east_asian::Rules as EastAsianRules;
use icu_calendar::hijri::Rules as HijriRules;
use icu_calendar::published::{china_table, korea_table, umm_al_qura_table};
use icu_calendar::{
    AsCalendar, Calendar, ChineseTraditional, Date, EastAsianRow, EastAsianTable,
    EastAsianTraditional, Hijri, HijriRow, HijriTable, KoreanTraditional, Month, RataDie, Rebased,
    Side, UmmAlQura,
};
use std::process::Abort;
use test_dates::number_in;

/// `row hijri 1445 738720 sllslslslsll`
const YEAR_1445: HijriRow = HijriRow {
    extended_year: 1445,
    long_months: 0xd56,
    start_offset: 5,
};

/// `row hijri 1446 739075 sllslslslsls`
const YEAR_1446: HijriRow = HijriRow {
    extended_year: 1446,
    long_months: 0x556,
    start_offset: 6,
};

/// The calendars under a table of rows, and under the longer table.
fn calendars_of<'t>(
    rt: &impl Abort,
    rows: &'t [HijriRow],
    more_rows: &'t [HijriRow],
) -> (Hijri<UmmAlQura<'t>>, Hijri<UmmAlQura<'t>>) {
    let table = HijriTable::try_new(rows).expect(rt, "the table is accepted");
    let longer = table.lengthened(more_rows).expect(rt, "it is lengthened");
    (
        Hijri::new_umm_al_qura(table),
        Hijri::new_umm_al_qura(longer),
    )
}

/// That a date was brought over to this day of the second month, on this day number, and was moved or not.
fn assert_rebased<A: AsCalendar>(
    rt: &impl Abort,
    rebased: &Rebased<A>,
    number: i64,
    day: u8,
    moved: bool,
)
where
    A::Calendar: Calendar,
{
    assert_holds(rt, number, number_in(&rebased.date) == number);
    assert_holds(rt, number, rebased.date.month().ordinal == 2);
    assert_holds(rt, number, rebased.date.day_of_month().0 == day);
    assert_holds(rt, number, rebased.moved == moved);
}

/// That the first day of the second month of each year lies on a day, and what the day is by the second calendar.
fn assert_second_months<A: AsCalendar + Copy>(
    rt: &impl Abort,
    before: A,
    after: A,
    cases: &[(i32, i64, u8, bool)],
)
where
    A::Calendar: Calendar,
{
    for &(year, number, day, moved) in cases {
        let stored = Date::try_new(year.into(), Month::new(2), 1, before);
        let stored = stored.expect(rt, "the date is there");
        assert_holds(rt, year, number_in(&stored) == number);
        assert_rebased(rt, &stored.rebase(after), number, day, moved);
    }
}

#[test]
fn dates_of_the_added_year_are_moved(rt: HostRuntime) {
    let row = [YEAR_1445];
    let rows = [YEAR_1445, YEAR_1446];
    let (before, after) = calendars_of(&rt, &row, &rows);
    let cases = [(1445, 738749, 1, false), (1446, 739105, 2, true)];
    assert_second_months(&rt, before, after, &cases);
}

/// Whether a day is another date by the second calendar.
fn is_moved<A: AsCalendar>(rt: &impl Abort, before: A, after: A, number: i64) -> bool
where
    A::Calendar: Calendar,
{
    assert!(rt; -400000000 <= number && number <= 400000000);
    Date::from_rata_die(RataDie::new(number), before)
        .rebase(after)
        .moved
}

/// How many days from one to another are other dates by the second calendar.
fn count_moved<A: AsCalendar + Copy>(
    rt: &impl Abort,
    before: A,
    after: A,
    first: i64,
    last: i64,
) -> u32
where
    A::Calendar: Calendar,
{
    let mut moved = 0u32;
    for number in first..=last {
        if is_moved(rt, before, after, number) {
            moved = moved.wrapping_add(1);
        }
    }
    moved
}

/// That so many days from one to another are other dates by the second calendar, for each first day, last day and
/// count.
fn assert_moved<A: AsCalendar + Copy>(
    rt: &impl Abort,
    before: A,
    after: A,
    counts: &[(i64, i64, u32)],
)
where
    A::Calendar: Calendar,
{
    for &(first, last, count) in counts {
        let moved = count_moved(rt, before, after, first, last);
        assert_holds(rt, first, moved == count);
    }
}

/// The same under two rules of the Hijri calendar.
fn assert_moved_in_hijri<R: HijriRules + Copy>(
    rt: &impl Abort,
    before: Hijri<R>,
    after: Hijri<R>,
    counts: &[(i64, i64, u32)],
) {
    assert_moved(rt, before, after, counts);
}

/// The same under two rules of the Chinese or the Korean calendar.
fn assert_moved_in_east_asian<R: EastAsianRules + Copy>(
    rt: &impl Abort,
    before: EastAsianTraditional<R>,
    after: EastAsianTraditional<R>,
    counts: &[(i64, i64, u32)],
) {
    assert_moved(rt, before, after, counts);
}

// The counts of moved days, and the days of the added years, are those of a program of its own that reads `rows/` and
// computes the years beside them from their formulas. Of the years before and behind no day is moved.

/// The years 1300 to 1349, and then 1350 to 1600, which have the days 705056 to 794001.
#[test]
fn days_of_added_hijri_years_are_moved(rt: HostRuntime) {
    let rows: &'static [HijriRow] = umm_al_qura_table().rows();
    let first_50 = rows.get(..50).expect(&rt, "there are 301 rows");
    let (before, after) = calendars_of(&rt, first_50, rows);
    let counts = [
        (704056, 705055, 0),
        (705056, 794001, 35269),
        (794002, 795001, 0),
    ];
    assert_moved_in_hijri(&rt, before, after, &counts);
}

/// The table of the first 50 of some rows, and that of all of them.
fn tables_of(
    rt: &impl Abort,
    side: Side,
    rows: &'static [EastAsianRow],
) -> (EastAsianTable<'static>, EastAsianTable<'static>)
    ensures first { result.0.side ≡ side }
    ensures longer { result.1.side ≡ side }
{
    let first_50 = rows.get(..50).expect(rt, "there are more rows");
    let table = EastAsianTable::try_new(side, first_50);
    let table = table.expect(rt, "the years meet the next one");
    let longer = table.lengthened(rows).expect(rt, "the others are added");
    (table, longer)
}

/// The years 1912 to 1961, and then 1962 to 2099, which have the days 716276 to 766683.
#[test]
fn days_of_added_chinese_years_are_moved(rt: HostRuntime) {
    let (table, longer) = tables_of(&rt, Side::China, china_table().rows());
    let before = ChineseTraditional::new(table);
    let after = ChineseTraditional::new(longer);
    let counts = [
        (715276, 716275, 0),
        (716276, 766683, 16613),
        (766684, 767683, 0),
    ];
    assert_moved_in_east_asian(&rt, before, after, &counts);
}

/// The years 1912 to 1961, and then 1962 to 2097, which have the days 716276 to 765945.
#[test]
fn days_of_added_korean_years_are_moved(rt: HostRuntime) {
    let (table, longer) = tables_of(&rt, Side::Korea, korea_table().rows());
    let before = KoreanTraditional::new(table);
    let after = KoreanTraditional::new(longer);
    let counts = [
        (715276, 716275, 0),
        (716276, 765945, 16256),
        (765946, 766945, 0),
    ];
    assert_moved_in_east_asian(&rt, before, after, &counts);
}
