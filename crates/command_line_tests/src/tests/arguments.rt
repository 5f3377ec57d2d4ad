//! Bad and missing names of commands, and arguments at fixed places.

use crate::tests::expected::assert_fault;
use command_line::{Argument, CommandPart};

#[test]
fn bad_names(rt: HostRuntime) {
    for &words in &[
        "",
        "spam",
        "Span",
        " span",
        "iso iso",
        "anniversaries iso",
        "--unproved span",
    ] {
        assert_fault(&rt, words, 1, CommandPart::Command);
    }
}

#[test]
fn bad_arguments(rt: HostRuntime) {
    for &(words, word, argument) in &[
        ("gen 100001", 2, Argument::Count),
        ("gen 0000001", 2, Argument::Count),
        ("gen -1 2", 2, Argument::Count),
        ("convert iso gregorain reject", 3, Argument::Calendar),
        ("convert ISO gregorain", 2, Argument::Calendar),
        ("convert hebrew iso skip", 4, Argument::Overflow),
        ("anniversary iso iso skip M01 1 1 9", 4, Argument::Leaping),
        ("anniversary iso iso exact M1 1 1 9", 5, Argument::MonthCode),
        (
            "anniversary iso iso exact M05L 256 1 9",
            6,
            Argument::DayOfMonth,
        ),
        (
            "anniversary iso iso exact M05L 31 1 1234567890",
            8,
            Argument::DayNumber,
        ),
        ("recur iso iso day 1 skip 1 9", 4, Argument::Unit),
        ("recur iso iso days -1 skip 1 9", 5, Argument::Every),
        ("recur iso iso days 1 reject 1 9", 6, Argument::Missing),
        ("recur iso iso days 1 skip year=1 9", 7, Argument::DayNumber),
        (
            "rrule iso roc 1 FREQ=DAILY FREQ=DAILY",
            5,
            Argument::DayNumber,
        ),
        ("holidays +1 9", 2, Argument::DayNumber),
        ("holidays  9", 2, Argument::DayNumber),
    ] {
        assert_fault(&rt, words, word, CommandPart::Argument(argument));
    }
}

#[test]
fn missing_arguments(rt: HostRuntime) {
    for &(words, word, argument) in &[
        ("gen", 2, Argument::Count),
        ("convert", 2, Argument::Calendar),
        ("convert iso iso", 4, Argument::Overflow),
        ("anniversary iso", 3, Argument::Calendar),
        (
            "anniversary iso iso constrain M13 0 -1",
            8,
            Argument::DayNumber,
        ),
        ("recur iso iso weeks", 5, Argument::Every),
        ("holidays 1", 3, Argument::DayNumber),
    ] {
        assert_fault(&rt, words, word, CommandPart::Argument(argument));
    }
}
