//! Three Gregorian years, counted through by hand-made lists.

use crate::tests::expected::assert_at;
use cal_listed::{ListedDate, ListedMonth, ListedYears};
use cal_types::{DateDuration, Month};

fn listed(number: u8, days: u8) -> ListedMonth {
    ListedMonth {
        month: Month::new(number),
        days,
    }
}

fn months(february: u8) -> [ListedMonth; 12] {
    [
        listed(1, 31),
        listed(2, february),
        listed(3, 31),
        listed(4, 30),
        listed(5, 31),
        listed(6, 30),
        listed(7, 31),
        listed(8, 31),
        listed(9, 30),
        listed(10, 31),
        listed(11, 30),
        listed(12, 31),
    ]
}

fn date((year, month, day): (i32, u8, u8)) -> ListedDate {
    ListedDate { year, month, day }
}

#[test]
fn counts_gregorian_days(rt: HostRuntime) {
    let (common, leap) = (months(28), months(29));
    let years: [&[ListedMonth]; 3] = [&common, &leap, &common];
    let list = ListedYears::new(2023, 738521, &years);
    for &(year, month, day, number) in &[
        (2023, 1, 1, 738521),
        (2023, 12, 31, 738885),
        (2024, 1, 1, 738886),
        (2024, 2, 29, 738945),
        (2025, 12, 31, 739616),
    ] {
        let date = ListedDate { year, month, day };
        assert_at(&rt, date, list.day_number(date), Some(number));
        assert_at(&rt, number, list.date_on(number), Some(date));
    }
}

#[test]
fn counts_days_between_dates(rt: HostRuntime) {
    let (common, leap) = (months(28), months(29));
    let years: [&[ListedMonth]; 3] = [&common, &leap, &common];
    let list = ListedYears::new(2023, 738521, &years);
    for &(from, to, is_negative, days) in &[
        ((2023, 3, 1), (2025, 2, 28), false, 730),
        ((2024, 2, 28), (2024, 3, 1), false, 2),
        ((2025, 12, 31), (2023, 1, 1), true, 1095),
        ((2024, 2, 29), (2024, 2, 29), false, 0),
    ] {
        let (from, to) = (date(from), date(to));
        let want = DateDuration {
            is_negative,
            years: 0,
            months: 0,
            weeks: 0,
            days,
        };
        assert_at(
            &rt,
            (from, to),
            list.difference_in_days(from, to),
            Some(want),
        );
    }
}

#[test]
fn refuses_what_is_not_listed(rt: HostRuntime) {
    let (common, leap) = (months(28), months(29));
    let years: [&[ListedMonth]; 3] = [&common, &leap, &common];
    let list = ListedYears::new(2023, 738521, &years);
    for &(year, month, day) in &[
        (2022, 12, 31),
        (2026, 1, 1),
        (2023, 2, 29),
        (2024, 0, 1),
        (2024, 13, 1),
        (2024, 1, 0),
        (2024, 4, 31),
    ] {
        let number = list.day_number(ListedDate { year, month, day });
        assert_at(&rt, (year, month, day), number, None);
    }
    for &number in &[738520, 739617, i64::MIN, i64::MAX] {
        assert_at(&rt, number, list.date_on(number), None);
    }
}
