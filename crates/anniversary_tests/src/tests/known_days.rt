//! Anniversaries of a few years.

use crate::tests::expected::{Asked, assert_days};
use cal_base::Iso;
use cal_hebrew::Hebrew;
use cal_julian::{Persian, PersianCorrections};
use cal_types::{Leaping, Month};

#[test]
fn a_leap_month_comes_in_leap_years_alone(rt: HostRuntime) {
    let asked = Asked {
        month: Month::leap(5),
        day: 10,
        leaping: Leaping::Exact,
        first: 738000,
        last: 740029,
    };
    assert_days(&rt, Hebrew::new(), asked, &[738197, 738935, 740029]);
}

#[test]
fn its_stand_in_comes_in_the_other_years(rt: HostRuntime) {
    let asked = Asked {
        month: Month::leap(5),
        day: 10,
        leaping: Leaping::Constrain,
        first: 738197,
        last: 738935,
    };
    assert_days(&rt, Hebrew::new(), asked, &[738197, 738582, 738935]);
}

#[test]
fn a_window_between_two_leap_days_has_none(rt: HostRuntime) {
    let asked = Asked {
        month: Month::new(2),
        day: 29,
        leaping: Leaping::Exact,
        first: 737850,
        last: 738000,
    };
    assert_days(&rt, Iso::new(), asked, &[]);
}

#[test]
fn a_window_of_one_day_has_it(rt: HostRuntime) {
    let asked = Asked {
        month: Month::new(2),
        day: 29,
        leaping: Leaping::Constrain,
        first: 738214,
        last: 738214,
    };
    assert_days(&rt, Iso::new(), asked, &[738214]);
}

/// Rosh Hashanah of the years 5780 to 5790, from 2019-09-30 to 2029-09-10. Sources: hebcal 4.31 (Debian) and ICU 78.2
/// (Node.js 20.20.2), which have the same days.
const ROSH_HASHANAH: [i64; 11] = [
    737332, 737687, 738040, 738424, 738779, 739162, 739517, 739871, 740256, 740611, 740965,
];

/// Nowruz of the years 1400 to 1410, from 2021-03-21 to 2031-03-21. Source: ICU 78.2 (Node.js 20.20.2).
const NOWRUZ: [i64; 11] = [
    737870, 738235, 738600, 738965, 739331, 739696, 740061, 740426, 740791, 741157, 741522,
];

#[test]
fn the_hebrew_year_begins_on_its_published_days(rt: HostRuntime) {
    let asked = Asked {
        month: Month::new(1),
        day: 1,
        leaping: Leaping::Exact,
        first: 737303,
        last: 741077,
    };
    assert_days(&rt, Hebrew::new(), asked, &ROSH_HASHANAH);
}

#[test]
fn the_persian_year_begins_on_its_published_days(rt: HostRuntime) {
    let asked = Asked {
        month: Month::new(1),
        day: 1,
        leaping: Leaping::Exact,
        first: 737791,
        last: 741807,
    };
    assert_days(
        &rt,
        Persian::new(PersianCorrections::none()),
        asked,
        &NOWRUZ,
    );
}
