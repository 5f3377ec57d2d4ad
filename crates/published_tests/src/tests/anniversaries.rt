//! The first day of each year, listed as an anniversary of the first month's first day.

use super::{assert_found, window_of};
use cal_anniversary::anniversaries;
use cal_base::Calendar;
use cal_types::{Leaping, Month};
use published_years::{chinese, persian, umm_al_qura};
use std::process::Abort;

/// Chinese New Year of 2020 to 2030. Sources: lunar 2.2 and python3-lunardate 0.2.0 (Debian), which have the same days.
/// ICU 78.2 has them too, but those of 2027 and 2030, of which the new moon is within minutes of midnight.
const CHINESE_NEW_YEAR: [i64; 11] = [
    737449, // 2020-01-25
    737833, // 2021-02-12
    738187, // 2022-02-01
    738542, // 2023-01-22
    738926, // 2024-02-10
    739280, // 2025-01-29
    739664, // 2026-02-17
    740018, // 2027-02-06
    740372, // 2028-01-26
    740756, // 2029-02-13
    741111, // 2030-02-03
];

/// 1 Muharram of 1440 to 1450. Sources: the Umm al-Qura calendar of ICU 78.2 (Node.js 20.20.2) and of ICU 72.1
/// (Debian), which have the same days.
const MUHARRAM_1: [i64; 11] = [
    736948, // 2018-09-11
    737302, // 2019-08-31
    737657, // 2020-08-20
    738011, // 2021-08-09
    738366, // 2022-07-30
    738720, // 2023-07-19
    739074, // 2024-07-07
    739428, // 2025-06-26
    739783, // 2026-06-16
    740138, // 2027-06-06
    740492, // 2028-05-25
];

/// Nowruz of 1498 to 1508, around the first correction: 1502 gives its leap day to 1503. Source: ICU 78.2 (Node.js
/// 20.20.2).
const NOWRUZ: [i64; 11] = [
    773663, // 2119-03-21
    774029, // 2120-03-21
    774394, // 2121-03-21
    774759, // 2122-03-21
    775124, // 2123-03-21
    775489, // 2124-03-20
    775855, // 2125-03-21
    776220, // 2126-03-21
    776585, // 2127-03-21
    776950, // 2128-03-20
    777316, // 2129-03-21
];

/// That years of a calendar begin on these days of a window, and on no other ones.
fn assert_first_days<C: Calendar>(
    rt: &impl Abort,
    calendar: C,
    first: i64,
    last: i64,
    days: &[i64],
) {
    let window = window_of(rt, first, last);
    let listed = anniversaries(calendar, Month::new(1), 1, Leaping::Exact, window);
    let mut list = listed.expect(rt, "there is such a month and such a day");
    for &number in days {
        assert_found(rt, list.next(), Some(number));
    }
    assert_found(rt, list.next(), None);
}

/// From 2020-01-01 to 2030-12-31.
#[test]
fn chinese_new_year_comes_on_its_known_days(rt: HostRuntime) {
    assert_first_days(&rt, chinese(), 737425, 741442, &CHINESE_NEW_YEAR);
}

/// From 2018-01-01 to 2028-12-31.
#[test]
fn muharram_1_comes_on_its_known_days(rt: HostRuntime) {
    assert_first_days(&rt, umm_al_qura(), 736695, 740712, &MUHARRAM_1);
}

/// From the first of these days to the last one.
#[test]
fn nowruz_comes_on_its_known_days_around_a_correction(rt: HostRuntime) {
    assert_first_days(&rt, persian(), 773663, 777316, &NOWRUZ);
}
