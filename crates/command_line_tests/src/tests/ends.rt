//! What stands behind the arguments: nothing, fields, or a start and a rule.

use crate::tests::expected::{assert_command, assert_fault};
use command_line::CommandPart;

#[test]
fn whole_commands(rt: HostRuntime) {
    for &words in &[
        "span",
        "explain",
        "explain holidays",
        "gen 100000",
        "convert iso hebrew constrain",
        "anniversary hebrew iso exact M05L 0 1 -9",
        "recur iso iso days 000000001 skip 1 9",
        "recur iso iso years 1 constrain 1 9 day=1 year=-4 month=M02",
        "rrule iso iso 1 9 12",
        "rrule iso iso 1 9 12 FREQ=DAILY",
        "rrule iso iso 1 9 day=1 month=M01 day=2",
        "holidays 738000 738999",
    ] {
        assert_command(&rt, words);
    }
}

#[test]
fn words_behind_the_last(rt: HostRuntime) {
    for &(words, word, part) in &[
        ("span span", 2, CommandPart::End),
        ("explain ", 2, CommandPart::Holidays),
        ("explain holidays holidays", 3, CommandPart::End),
        ("gen 1 2", 3, CommandPart::End),
        ("convert iso iso reject 7 8", 5, CommandPart::End),
        ("holidays 1 9 2 3", 4, CommandPart::End),
        (
            "recur iso iso days 1 skip 1 9 day=1 day=2",
            10,
            CommandPart::Field,
        ),
        (
            "recur iso iso days 1 skip 1 9 ordinal=256",
            9,
            CommandPart::Field,
        ),
        ("rrule iso iso 1 9", 6, CommandPart::StartOrRule),
        ("rrule iso iso 1 9 12 FREQ=DAILY 12", 8, CommandPart::End),
        (
            "rrule iso iso 1 9 FREQ=DAILY COUNT=1",
            7,
            CommandPart::BehindRule,
        ),
        (
            "rrule iso iso 1 9 day=1 12 FREQ=DAILY",
            8,
            CommandPart::BehindRule,
        ),
        (
            "rrule iso iso 1 9 day=1 day=2 x",
            8,
            CommandPart::BehindRule,
        ),
    ] {
        assert_fault(&rt, words, word, part);
    }
}
