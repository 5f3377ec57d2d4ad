//! Dates in the calendar of each kind.

use crate::tests::expected::assert_holds;
use icu_calendar::AnyCalendarKind;
use test_dates::{date_on, parts_of};

/// The year that each kind gives to January 1, 2000 of the ISO calendar (day 730120).
#[test]
fn year_2000_by_kind(rt: HostRuntime) {
    for &(kind, year) in &[
        (AnyCalendarKind::Buddhist, 2543),
        (AnyCalendarKind::Chinese, 1999),
        (AnyCalendarKind::Coptic, 1716),
        (AnyCalendarKind::Dangi, 1999),
        (AnyCalendarKind::Ethiopian, 1992),
        (AnyCalendarKind::EthiopianAmeteAlem, 7492),
        (AnyCalendarKind::Gregorian, 2000),
        (AnyCalendarKind::Hebrew, 5760),
        (AnyCalendarKind::Indian, 1921),
        (AnyCalendarKind::HijriTabularTypeIIFriday, 1420),
        (AnyCalendarKind::HijriSimulatedMecca, 1420),
        (AnyCalendarKind::HijriTabularTypeIIThursday, 1420),
        (AnyCalendarKind::HijriUmmAlQura, 1420),
        (AnyCalendarKind::Iso, 2000),
        (AnyCalendarKind::Japanese, 2000),
        (AnyCalendarKind::JapaneseExtended, 2000),
        (AnyCalendarKind::Julian, 1999),
        (AnyCalendarKind::Persian, 1378),
        (AnyCalendarKind::Roc, 89),
        (AnyCalendarKind::HijriTabularTypeIFriday, 1420),
        (AnyCalendarKind::HijriTabularTypeIThursday, 1420),
    ] {
        let date = date_on(730120, kind);
        assert_holds(&rt, year, parts_of(&date).0 == year);
    }
}
