//! The recurrences of RFC 5545 (iCalendar) and RFC 7529 (RSCALE), in their examples and their rule for days that are
//! lacking.

use super::{assert_listed, rule_of};
use cal_base::Iso;
use cal_coptic::Ethiopian;
use cal_hebrew::Hebrew;
use cal_recur::Missing::{Constrain, Skip};
use cal_types::DateDurationUnit::{Days, Months, Weeks, Years};

/// RFC 5545, section 3.8.5.3, from September 2, 1997: FREQ=DAILY;INTERVAL=10;COUNT=5 is September 2, 12, 22 and October 2, 12;
/// and FREQ=WEEKLY;INTERVAL=2;COUNT=8 is September 2, 16, 30, October 14, 28, November 11, 25 and December 9.
#[test]
fn every_10_days_and_every_other_week(rt: HostRuntime) {
    let days = [
        (0, 729269),
        (1, 729279),
        (2, 729289),
        (3, 729299),
        (4, 729309),
    ];
    let ends = (729269, 729318);
    assert_listed(&rt, Iso, 729269, rule_of(&rt, Days, 10, Skip), ends, &days);
    let weeks = [
        (0, 729269),
        (1, 729283),
        (2, 729297),
        (3, 729311),
        (4, 729325),
        (5, 729339),
        (6, 729353),
        (7, 729367),
    ];
    let ends = (729269, 729380);
    assert_listed(&rt, Iso, 729269, rule_of(&rt, Weeks, 2, Skip), ends, &weeks);
}

/// RFC 7529: FREQ=MONTHLY from January 31, 2014 with SKIP=OMIT is January 31, March 31 and May 31, and with
/// SKIP=BACKWARD the last days of the months.
#[test]
fn the_31st_of_each_month(rt: HostRuntime) {
    let ends = (735264, 735384);
    let omit = [(0, 735264), (2, 735323), (4, 735384)];
    assert_listed(&rt, Iso, 735264, rule_of(&rt, Months, 1, Skip), ends, &omit);
    let backward = [
        (0, 735264),
        (1, 735292),
        (2, 735323),
        (3, 735353),
        (4, 735384),
    ];
    let rule = rule_of(&rt, Months, 1, Constrain);
    assert_listed(&rt, Iso, 735264, rule, ends, &backward);
}

/// RFC 7529: FREQ=YEARLY from February 29, 2012 with SKIP=OMIT is February 29, 2016 and 2020, and with
/// SKIP=BACKWARD February 28 in the years between.
#[test]
fn a_leap_day(rt: HostRuntime) {
    let omit = [(0, 734562), (4, 736023), (8, 737484)];
    let skip = rule_of(&rt, Years, 1, Skip);
    assert_listed(&rt, Iso, 734562, skip, (734562, 737484), &omit);
    let backward = [
        (0, 734562),
        (1, 734927),
        (2, 735292),
        (3, 735657),
        (4, 736023),
    ];
    let rule = rule_of(&rt, Years, 1, Constrain);
    assert_listed(&rt, Iso, 734562, rule, (734562, 736023), &backward);
}

/// The sixth day of the Ethiopian month 13 comes every fourth year, as on September 11, 2015 and 2019; in the others
/// SKIP=BACKWARD makes it the fifth, September 10. RFC 7529, RSCALE=ETHIOPIC;FREQ=MONTHLY;BYMONTH=13: the month's first
/// day is September 6 in 2013, 2014, 2015 and 2016, which is what one year from it gives.
#[test]
fn the_ethiopian_month_13(rt: HostRuntime) {
    let calendar = Ethiopian::new();
    let firsts = [(0, 735117), (1, 735482), (2, 735847), (3, 736213)];
    let skip = rule_of(&rt, Years, 1, Skip);
    assert_listed(&rt, calendar, 735117, skip, (735117, 736213), &firsts);
    let omit = [(0, 735852), (4, 737313)];
    let skip = rule_of(&rt, Years, 1, Skip);
    assert_listed(&rt, calendar, 735852, skip, (735852, 737313), &omit);
    let backward = [
        (0, 735852),
        (1, 736217),
        (2, 736582),
        (3, 736947),
        (4, 737313),
    ];
    let rule = rule_of(&rt, Years, 1, Constrain);
    assert_listed(&rt, calendar, 735852, rule, (735852, 737313), &backward);
}

/// RFC 7529, RSCALE=HEBREW;FREQ=YEARLY;BYMONTH=5L;BYMONTHDAY=8;SKIP=FORWARD: day 8 of Adar I, or of Adar where the
/// year has no Adar I, is February 8, 2014, February 27, 2015, February 17, 2016 and March 6, 2017.
#[test]
fn a_birthday_in_adar_i(rt: HostRuntime) {
    let forward = [(0, 735272), (1, 735656), (2, 736011), (3, 736394)];
    let rule = rule_of(&rt, Years, 1, Constrain);
    assert_listed(&rt, Hebrew, 735272, rule, (735272, 736394), &forward);
    let omit = [(0, 735272), (2, 736011)];
    let skip = rule_of(&rt, Years, 1, Skip);
    assert_listed(&rt, Hebrew, 735272, skip, (735272, 736394), &omit);
}
