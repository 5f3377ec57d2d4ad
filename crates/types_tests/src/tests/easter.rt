//! Days of Easter that others have published or computed.

use crate::tests::expected::{assert_at, assert_same};
use cal_days::{gregorian, julian};

/// A number that the days of a run of years come to, each of which has a part in it.
fn mixed(sum: u64, day: i64) -> u64 {
    sum.wrapping_mul(31).wrapping_add(day.unsigned_abs())
}

/// The dates are those of the United States Naval Observatory's and of the Orthodox churches' lists: the earliest and
/// the latest Easter, years in which both keep one day, and full moons that the rule moves a day earlier.
#[test]
fn easter_is_on_published_days(rt: HostRuntime) {
    for &(year, western, eastern) in &[
        (1818, 663726, 663761),
        (1943, 709415, 709415),
        (1954, 713426, 713433),
        (2000, 730233, 730240),
        (2008, 733124, 733159),
        (2011, 734251, 734251),
        (2024, 738976, 739011),
        (2025, 739361, 739361),
        (2038, 744114, 744114),
        (2076, 757988, 757995),
    ] {
        assert_at(&rt, year, gregorian::easter(year).to_i64_date(), western);
        assert_at(&rt, year, julian::easter(year).to_i64_date(), eastern);
    }
}

/// The sums are those of the days that python-dateutil 2.9.0 and the algorithms of Meeus, Jones and Butcher give, which
/// take other steps than this crate.
#[test]
fn easter_of_the_years_326_to_4099_is_that_of_other_algorithms(rt: HostRuntime) {
    let mut western = 0;
    let mut eastern = 0;
    for year in 326..=4099 {
        western = mixed(western, gregorian::easter(year).to_i64_date());
        eastern = mixed(eastern, julian::easter(year).to_i64_date());
    }
    assert_same(&rt, western, 2875790298413821137);
    assert_same(&rt, eastern, 16989418367851434888);
}
