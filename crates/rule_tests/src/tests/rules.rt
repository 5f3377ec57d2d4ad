//! Texts that are the same rule, and what rules hold.

use crate::tests::expected::{assert_at, assert_same_rule, assert_writes};
use cal_days::RataDie;
use cal_kinds::AnyCalendarKind as Kind;
use cal_rule::{Frequency, Place, RecurrenceRule, Skip, WeekdayPlace};
use cal_types::{Month, Weekday};
use std::alloc::AllocError;

#[test]
fn the_same_rule(rt: HostRuntime) {
    for &(kind, text, other) in &[
        (
            Kind::Iso,
            "FREQ=DAILY",
            "wkst=mo;skip=omit;interval=0001;freq=daily",
        ),
        (
            Kind::Iso,
            "FREQ=YEARLY;BYMONTH=2,1,2",
            "BYMONTH=01,02;FREQ=YEARLY",
        ),
        (
            Kind::Iso,
            "FREQ=MONTHLY;BYDAY=+1MO,1mo,MO",
            "FREQ=MONTHLY;BYDAY=MO,01MO",
        ),
        (
            Kind::Iso,
            "FREQ=DAILY;RSCALE=ISO8601",
            "FREQ=DAILY;RSCALE=iso",
        ),
        (
            Kind::Gregorian,
            "FREQ=DAILY;RSCALE=GREGORIAN",
            "FREQ=DAILY;RSCALE=gregory",
        ),
        (
            Kind::EthiopianAmeteAlem,
            "FREQ=DAILY;RSCALE=Ethiopic-Amete-Alem",
            "FREQ=DAILY;RSCALE=ETHIOAA",
        ),
        (
            Kind::Hebrew,
            "FREQ=YEARLY;BYMONTH=5L;BYYEARDAY=385",
            "FREQ=YEARLY;BYMONTH=05l;BYYEARDAY=+385",
        ),
        (
            Kind::Coptic,
            "FREQ=YEARLY;BYMONTH=13;BYMONTHDAY=6",
            "FREQ=YEARLY;BYMONTH=13;BYMONTHDAY=+06",
        ),
    ] {
        assert_same_rule(&rt, kind, text, other);
    }
}

#[test]
fn what_a_rule_holds(rt: HostRuntime) {
    let text =
        "FREQ=YEARLY;INTERVAL=2;UNTIL=00010101;BYMONTH=3L;BYMONTHDAY=-30;BYYEARDAY=385;BYSETPOS=-1;BYDAY=-55SU,MO;WKST=SU;SKIP=FORWARD";
    let found = RecurrenceRule::try_from_str(text, Kind::Chinese);
    assert_at(&rt, text, found.is_ok(), true);
    if let Ok(rule) = found {
        let last_sunday = WeekdayPlace {
            day: Weekday::Sunday,
            ordinal: Some(Place::FromBack(55)),
        };
        let mondays = WeekdayPlace {
            day: Weekday::Monday,
            ordinal: None,
        };
        assert_at(&rt, "FREQ", rule.frequency(), Frequency::Yearly);
        assert_at(&rt, "INTERVAL", rule.interval(), 2);
        assert_at(&rt, "COUNT", rule.count(), None);
        assert_at(&rt, "UNTIL", rule.until(), Some(RataDie::new(1)));
        assert_at(&rt, "BYMONTH", rule.months().contains(Month::leap(3)), true);
        assert_at(&rt, "BYMONTH", rule.months().contains(Month::new(3)), false);
        assert_at(
            &rt,
            "BYMONTHDAY",
            rule.month_days().contains(Place::FromBack(30)),
            true,
        );
        assert_at(
            &rt,
            "BYMONTHDAY",
            rule.month_days().contains(Place::FromFront(30)),
            false,
        );
        assert_at(
            &rt,
            "BYYEARDAY",
            rule.year_days().contains(Place::FromFront(385)),
            true,
        );
        assert_at(
            &rt,
            "BYWEEKNO",
            rule.weeks().contains(Place::FromFront(1)),
            false,
        );
        assert_at(
            &rt,
            "BYSETPOS",
            rule.positions().contains(Place::FromBack(1)),
            true,
        );
        assert_at(&rt, "BYDAY", rule.weekdays().contains(last_sunday), true);
        assert_at(&rt, "BYDAY", rule.weekdays().contains(mondays), true);
        assert_at(&rt, "WKST", rule.week_start(), Weekday::Sunday);
        assert_at(&rt, "SKIP", rule.skip(), Skip::Forward);
    }
}

#[test]
fn rules_are_written(rt: HostRuntime) -> Result<(), AllocError> {
    for &(kind, text, written) in &[
        (
            Kind::Iso,
            "wkst=mo;skip=omit;interval=0001;freq=daily",
            "FREQ=DAILY",
        ),
        (
            Kind::Iso,
            "COUNT=10;INTERVAL=2;FREQ=WEEKLY;BYDAY=SA,SU;WKST=SU",
            "FREQ=WEEKLY;INTERVAL=2;COUNT=10;BYDAY=SU,SA;WKST=SU",
        ),
        (
            Kind::Iso,
            "FREQ=YEARLY;UNTIL=00000229",
            "FREQ=YEARLY;UNTIL=00000229",
        ),
        (
            Kind::Iso,
            "FREQ=MONTHLY;UNTIL=99991231;BYDAY=+1MO,-1FR,TU;BYSETPOS=-1,1",
            "FREQ=MONTHLY;UNTIL=99991231;BYDAY=1MO,TU,-1FR;BYSETPOS=1,-1",
        ),
        (
            Kind::Iso,
            "FREQ=YEARLY;BYWEEKNO=53,-53,1;BYMONTHDAY=31,-31",
            "FREQ=YEARLY;BYWEEKNO=1,53,-53;BYMONTHDAY=31,-31",
        ),
        (
            Kind::Chinese,
            "RSCALE=CHINESE;FREQ=YEARLY;BYMONTH=12L,1,1L;BYYEARDAY=385,-385,64;SKIP=FORWARD",
            "FREQ=YEARLY;BYMONTH=1,1L,12L;BYYEARDAY=64,385,-385;SKIP=FORWARD",
        ),
    ] {
        assert_writes(&rt, rt.alloc(), kind, text, written)?;
    }
    Ok(())
}
