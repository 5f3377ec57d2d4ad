//! Recurrences over the published years.

use super::{assert_found, window_of};
use cal_base::Calendar;
use cal_days::RataDie;
use cal_recur::{Missing, Rule, recur};
use cal_types::DateDurationUnit;
use published_years::chinese;

/// RFC 7529, RSCALE=CHINESE;FREQ=YEARLY from February 10, 2013: Chinese New Year is January 31, 2014, February 19, 2015,
/// February 8, 2016 and January 28, 2017. ICU 78.2 and lunar 2.2 (Debian) have the same days.
#[test]
fn chinese_new_year_comes_back_each_year(rt: HostRuntime) {
    let days = [734909, 735264, 735648, 736002, 736357];
    let rule = Rule::try_new(DateDurationUnit::Years, 1, Missing::Skip);
    let rule = rule.expect(&rt, "one year is a rule");
    let calendar = chinese();
    let start = calendar.from_rata_die(RataDie::new(734909));
    let mut items = recur(calendar, start, rule, window_of(&rt, 734909, 736357));
    for day in days {
        let item = items.next();
        assert_found(&rt, item.map(|it| it.day), Some(day));
    }
    assert_found(&rt, items.next().map(|it| it.day), None);
}
