//! The examples of the docs: recurrence rules.

use cal_days::RataDie;
use cal_rule::{Frequency, RecurrenceRule, RulePart, Skip};
use icu_calendar::AnyCalendarKind;
use std::test::Fail;

#[test]
fn recurrence_rules(rt: HostRuntime) -> Result<(), Fail> {
    let rule = RecurrenceRule::try_from_utf8(b"FREQ=MONTHLY;BYDAY=-1FR", AnyCalendarKind::Iso)?;
    assert!(rt; rule.frequency() == Frequency::Monthly);
    let until: Option<RataDie> = rule.until();
    assert!(rt; until.is_none());

    let rule = RecurrenceRule::try_from_str("FREQ=DAILY;COUNT=3", AnyCalendarKind::Iso)?;
    assert!(rt; rule.count() == Some(3));
    Ok(())
}

#[test]
fn words_of_rules(rt: HostRuntime) {
    assert!(rt; RulePart::ByDay.name() == "BYDAY");

    assert!(rt; Frequency::Yearly.name() == "YEARLY");

    assert!(rt; Skip::Omit.name() == "OMIT");
}
