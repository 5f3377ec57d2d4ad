//! The first error of a text that is no rule (RFC 5545, 3.3.10; RFC 7529, 4).

use crate::tests::expected::assert_error;
use cal_kinds::AnyCalendarKind as Kind;
use cal_rule::{RuleError, RulePart};

#[test]
fn parts_that_are_none(rt: HostRuntime) {
    for &(text, error) in &[
        ("", RuleError::BadPart),
        ("FREQ=DAILY;", RuleError::BadPart),
        (";FREQ=DAILY", RuleError::BadPart),
        ("FREQ", RuleError::BadPart),
        (" FREQ=DAILY", RuleError::UnknownPart),
        ("FREQ=DAILY;X-NAME=1", RuleError::UnknownPart),
        ("=DAILY", RuleError::UnknownPart),
        (
            "FREQ=DAILY;freq=DAILY",
            RuleError::RepeatedPart(RulePart::Freq),
        ),
        (
            "FREQ=DAILY;BYHOUR=",
            RuleError::TimeNotSupported(RulePart::ByHour),
        ),
        (
            "BYMINUTE=30;FREQ=DAILY",
            RuleError::TimeNotSupported(RulePart::ByMinute),
        ),
        (
            "FREQ=DAILY;BYSECOND=5,60",
            RuleError::TimeNotSupported(RulePart::BySecond),
        ),
        ("FREQ=hourly", RuleError::TimeNotSupported(RulePart::Freq)),
        ("FREQ=MINUTELY", RuleError::TimeNotSupported(RulePart::Freq)),
        ("FREQ=SECONDLY", RuleError::TimeNotSupported(RulePart::Freq)),
        (
            "UNTIL=20240101T000000Z;FREQ=DAILY",
            RuleError::TimeNotSupported(RulePart::Until),
        ),
        (
            "UNTIL=20240101t235960",
            RuleError::TimeNotSupported(RulePart::Until),
        ),
    ] {
        assert_error(&rt, Kind::Iso, text, error);
    }
}

#[test]
fn values_that_are_none(rt: HostRuntime) {
    for &(text, error) in &[
        ("FREQ=", RuleError::BadValue(RulePart::Freq)),
        ("FREQ=FORTNIGHTLY", RuleError::BadValue(RulePart::Freq)),
        ("FREQ=DAILY=", RuleError::BadValue(RulePart::Freq)),
        ("COUNT=", RuleError::BadValue(RulePart::Count)),
        ("COUNT=+1", RuleError::BadValue(RulePart::Count)),
        ("COUNT=0", RuleError::ValueOutOfRange(RulePart::Count)),
        (
            "INTERVAL=1000000000",
            RuleError::ValueOutOfRange(RulePart::Interval),
        ),
        (
            "INTERVAL=99999999999999999999999",
            RuleError::ValueOutOfRange(RulePart::Interval),
        ),
        ("UNTIL=2024010", RuleError::BadValue(RulePart::Until)),
        ("UNTIL=20240101T", RuleError::BadValue(RulePart::Until)),
        (
            "UNTIL=20240101T000000ZZ",
            RuleError::BadValue(RulePart::Until),
        ),
        (
            "UNTIL=20230229",
            RuleError::ValueOutOfRange(RulePart::Until),
        ),
        (
            "UNTIL=20241301",
            RuleError::ValueOutOfRange(RulePart::Until),
        ),
        ("BYMONTH=1,", RuleError::BadValue(RulePart::ByMonth)),
        ("BYMONTH=001", RuleError::BadValue(RulePart::ByMonth)),
        ("BYMONTH=L", RuleError::BadValue(RulePart::ByMonth)),
        ("BYMONTH=13", RuleError::ValueOutOfRange(RulePart::ByMonth)),
        ("BYMONTH=5L", RuleError::ValueOutOfRange(RulePart::ByMonth)),
        (
            "BYMONTHDAY=32,X",
            RuleError::ValueOutOfRange(RulePart::ByMonthDay),
        ),
        ("BYMONTHDAY=X,32", RuleError::BadValue(RulePart::ByMonthDay)),
        ("BYMONTHDAY=--1", RuleError::BadValue(RulePart::ByMonthDay)),
        (
            "BYMONTHDAY=0",
            RuleError::ValueOutOfRange(RulePart::ByMonthDay),
        ),
        (
            "BYYEARDAY=367",
            RuleError::ValueOutOfRange(RulePart::ByYearDay),
        ),
        ("BYYEARDAY=0366", RuleError::BadValue(RulePart::ByYearDay)),
        (
            "BYSETPOS=-367",
            RuleError::ValueOutOfRange(RulePart::BySetPos),
        ),
        (
            "BYWEEKNO=54",
            RuleError::ValueOutOfRange(RulePart::ByWeekNo),
        ),
        ("BYDAY=1", RuleError::BadValue(RulePart::ByDay)),
        ("BYDAY=+MO", RuleError::BadValue(RulePart::ByDay)),
        ("BYDAY=99XX", RuleError::BadValue(RulePart::ByDay)),
        ("BYDAY=MO,54TU", RuleError::ValueOutOfRange(RulePart::ByDay)),
        ("WKST=1MO", RuleError::BadValue(RulePart::Wkst)),
        ("SKIP=SKIP", RuleError::BadValue(RulePart::Skip)),
        ("RSCALE=", RuleError::BadValue(RulePart::Rscale)),
        ("RSCALE=iso_8601", RuleError::BadValue(RulePart::Rscale)),
        ("RSCALE=islamic", RuleError::UnknownCalendar),
        (
            "RSCALE=a-calendar-with-a-name-that-is-longer-than-any",
            RuleError::UnknownCalendar,
        ),
        ("RSCALE=gregory", RuleError::MismatchedCalendar),
    ] {
        assert_error(&rt, Kind::Iso, text, error);
    }
}

#[test]
fn rules_that_are_none(rt: HostRuntime) {
    for &(text, error) in &[
        (
            "COUNT=1;UNTIL=20240101",
            RuleError::MissingPart(RulePart::Freq),
        ),
        (
            "FREQ=DAILY;COUNT=1;UNTIL=20240101;BYWEEKNO=1",
            RuleError::CountWithUntil,
        ),
        (
            "FREQ=MONTHLY;BYYEARDAY=1;BYWEEKNO=1",
            RuleError::PartNotAllowed(RulePart::ByWeekNo),
        ),
        (
            "FREQ=DAILY;BYYEARDAY=1",
            RuleError::PartNotAllowed(RulePart::ByYearDay),
        ),
        (
            "FREQ=WEEKLY;BYMONTHDAY=1;BYDAY=1MO",
            RuleError::PartNotAllowed(RulePart::ByMonthDay),
        ),
        ("FREQ=WEEKLY;BYDAY=MO,1TU", RuleError::OrdinalNotAllowed),
        ("FREQ=DAILY;BYDAY=-1MO", RuleError::OrdinalNotAllowed),
        (
            "FREQ=YEARLY;BYDAY=1MO;BYWEEKNO=1",
            RuleError::OrdinalNotAllowed,
        ),
        ("FREQ=MONTHLY;BYSETPOS=1", RuleError::SetPosAlone),
    ] {
        assert_error(&rt, Kind::Iso, text, error);
    }
}

#[test]
fn ranges_by_kind(rt: HostRuntime) {
    for &(kind, text, part) in &[
        (Kind::Coptic, "BYMONTHDAY=31", RulePart::ByMonthDay),
        (Kind::Coptic, "BYMONTH=14", RulePart::ByMonth),
        (Kind::HijriUmmAlQura, "BYYEARDAY=356", RulePart::ByYearDay),
        (Kind::HijriUmmAlQura, "BYWEEKNO=52", RulePart::ByWeekNo),
        (Kind::Hebrew, "BYMONTH=6L", RulePart::ByMonth),
        (Kind::Hebrew, "BYDAY=56MO", RulePart::ByDay),
        (Kind::Chinese, "BYSETPOS=386", RulePart::BySetPos),
        (Kind::Chinese, "BYMONTH=13L", RulePart::ByMonth),
    ] {
        assert_error(&rt, kind, text, RuleError::ValueOutOfRange(part));
    }
}
