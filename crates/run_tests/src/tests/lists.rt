//! The lists: worked rows, the order of refusals, other lines and row lines of the source, and what ends a run.

use crate::tests::runs::{
    Case, Fault, assert_cases, assert_no_commands, assert_pieces, assert_read_faults,
    assert_write_faults,
};
use calspan_run::Status;
use std::test::Fail;

/// The most bytes that a call gives or takes.
const SIZES: [usize; 3] = [1, 7, 4096];

const HEBREW_DAYS: &[u8] = b"5782/am.5782/M05L/10@738197 2022/default.2022/M02/11@738197
5784/am.5784/M05L/10@738935 2024/default.2024/M02/19@738935
5787/am.5787/M05L/10@740029 2027/default.2027/M02/17@740029
";

/// A leap month of leap years alone, one with a stand-in in the other years, and a leap day in a window without one.
const LEAP_MONTHS: [Case; 3] = [
    Case {
        words: &[
            "anniversary",
            "hebrew",
            "iso",
            "exact",
            "M05L",
            "10",
            "738000",
            "740029",
        ],
        input: b"",
        text: HEBREW_DAYS,
        status: Status::Done,
    },
    Case {
        words: &[
            "anniversary",
            "hebrew",
            "iso",
            "constrain",
            "M05L",
            "10",
            "738197",
            "738935",
        ],
        input: b"",
        text: b"5782/am.5782/M05L/10@738197 2022/default.2022/M02/11@738197
5783/am.5783/M06/10@738582 2023/default.2023/M03/03@738582
5784/am.5784/M05L/10@738935 2024/default.2024/M02/19@738935
",
        status: Status::Done,
    },
    Case {
        words: &[
            "anniversary",
            "iso",
            "iso",
            "exact",
            "M02",
            "29",
            "737850",
            "738000",
        ],
        input: b"",
        text: b"",
        status: Status::Done,
    },
];

#[test]
fn a_leap_month_comes_in_leap_years_or_has_a_stand_in(rt: HostRuntime) -> Result<(), Fail> {
    assert_cases(&rt, rt.alloc(), &SIZES, &LEAP_MONTHS)
}

/// The 31st of each month and of the longer months alone, and a leap month of leap years alone.
const STARTS: [Case; 3] = [
    Case {
        words: &[
            "recur",
            "iso",
            "gregorian",
            "months",
            "1",
            "constrain",
            "737821",
            "737910",
            "year=2021",
            "month=M01",
            "day=31",
        ],
        input: b"",
        text: b"0 2021/default.2021/M01/31@737821 2021/ce.2021/M01/31@737821
1 2021/default.2021/M02/28@737849 2021/ce.2021/M02/28@737849
2 2021/default.2021/M03/31@737880 2021/ce.2021/M03/31@737880
3 2021/default.2021/M04/30@737910 2021/ce.2021/M04/30@737910
",
        status: Status::Done,
    },
    Case {
        words: &[
            "recur",
            "iso",
            "gregorian",
            "months",
            "1",
            "skip",
            "737821",
            "737910",
            "day=31",
            "month=M01",
            "year=2021",
        ],
        input: b"",
        text: b"0 2021/default.2021/M01/31@737821 2021/ce.2021/M01/31@737821
2 2021/default.2021/M03/31@737880 2021/ce.2021/M03/31@737880
",
        status: Status::Done,
    },
    Case {
        words: &[
            "recur",
            "hebrew",
            "iso",
            "years",
            "1",
            "skip",
            "738000",
            "740029",
            "year=5782",
            "month=M05L",
            "day=10",
        ],
        input: b"",
        text: b"0 5782/am.5782/M05L/10@738197 2022/default.2022/M02/11@738197
2 5784/am.5784/M05L/10@738935 2024/default.2024/M02/19@738935
5 5787/am.5787/M05L/10@740029 2027/default.2027/M02/17@740029
",
        status: Status::Done,
    },
];

#[test]
fn the_31st_counts_from_the_start(rt: HostRuntime) -> Result<(), Fail> {
    assert_cases(&rt, rt.alloc(), &SIZES, &STARTS)
}

/// Words of lists that are refused, and the lines that say so.
const REFUSED: [(&[&str], &[u8]); 12] = [
    (
        &["anniversary", "iso", "iso", "exact", "M13", "1", "1", "2"],
        b"err MonthNotInCalendar\n",
    ),
    (
        &["anniversary", "iso", "iso", "exact", "M13", "32", "1", "2"],
        b"err MonthNotInCalendar\n",
    ),
    (
        &["anniversary", "iso", "iso", "exact", "M02", "32", "1", "2"],
        b"err InvalidDay\n",
    ),
    (
        &["anniversary", "iso", "iso", "exact", "M02", "0", "1", "2"],
        b"err InvalidDay\n",
    ),
    (
        &["anniversary", "iso", "iso", "exact", "M13", "1", "2", "1"],
        b"err InvalidWindow\n",
    ),
    (
        &[
            "anniversary",
            "iso",
            "iso",
            "exact",
            "M02",
            "1",
            "-365242500",
            "1",
        ],
        b"err InvalidWindow\n",
    ),
    (
        &[
            "anniversary",
            "iso",
            "iso",
            "exact",
            "M02",
            "1",
            "1",
            "365242135",
        ],
        b"err InvalidWindow\n",
    ),
    (
        &["recur", "iso", "iso", "days", "0", "skip", "1", "2"],
        b"err Every\n",
    ),
    (
        &["recur", "iso", "iso", "days", "0", "skip", "2", "1"],
        b"err InvalidWindow\n",
    ),
    (
        &["recur", "iso", "iso", "days", "1", "skip", "1", "2"],
        b"err NotEnoughFields\n",
    ),
    (
        &[
            "recur", "iso", "iso", "days", "1", "skip", "1", "2", "era=x", "year=1",
        ],
        b"err NotEnoughFields\n",
    ),
    (
        &[
            "recur",
            "iso",
            "iso",
            "days",
            "1",
            "constrain",
            "1",
            "2",
            "year=2021",
            "month=M02",
            "day=29",
        ],
        b"err InvalidDay 28\n",
    ),
];

#[test]
fn the_window_is_refused_first(rt: HostRuntime) -> Result<(), Fail> {
    for &(words, text) in &REFUSED {
        let case = Case {
            words,
            input: b"",
            text,
            status: Status::Refused,
        };
        assert_pieces(&rt, rt.alloc(), &SIZES, case)?;
    }
    Ok(())
}

/// Words off the form.
const OFF_THE_FORM: [&[&str]; 14] = [
    &["anniversary"],
    &["anniversary", "iso", "iso", "exact", "M02", "1", "1"],
    &[
        "anniversary",
        "iso",
        "iso",
        "exact",
        "M02",
        "1",
        "1",
        "2",
        "3",
    ],
    &["anniversary", "iso", "spam", "exact", "M02", "1", "1", "2"],
    &["anniversary", "iso", "iso", "skip", "M02", "1", "1", "2"],
    &["anniversary", "iso", "iso", "exact", "M2", "1", "1", "2"],
    &["anniversary", "iso", "iso", "exact", "M02", "256", "1", "2"],
    &["anniversary", "iso", "iso", "exact", "M02", "1", "+1", "2"],
    &["recur", "iso", "iso", "days", "1", "exact", "1", "2"],
    &["recur", "iso", "iso", "none", "1", "skip", "1", "2"],
    &[
        "recur",
        "iso",
        "iso",
        "days",
        "1234567890",
        "skip",
        "1",
        "2",
    ],
    &[
        "recur", "iso", "iso", "days", "1", "skip", "1", "2", "year=1", "year=1",
    ],
    &[
        "recur", "iso", "iso", "days", "1", "skip", "1", "2", "era=a b",
    ],
    &[
        "recur",
        "iso",
        "iso",
        "days",
        "1",
        "skip",
        "1",
        "2",
        "month-code=a\nb",
    ],
];

#[test]
fn words_off_the_form_read_nothing(rt: HostRuntime) -> Result<(), Fail> {
    assert_no_commands(&rt, rt.alloc(), &OFF_THE_FORM, b"row persian 1502\n", 16)
}

const SAFAR: &[&str] = &[
    "anniversary",
    "islamic-umalqura",
    "iso",
    "exact",
    "M02",
    "1",
    "738720",
    "739100",
];

/// Sources of the list of the first days of Safar, and what is written for them.
const SOURCES: [(&[u8], &[u8], Status); 8] = [
    (
        b"",
        b"1445/ah.1445/M02/01@738750 2023/default.2023/M08/18@738750\n",
        Status::Done,
    ),
    (
        b"# the year 1445\n\r\nrow hijri 1445 738720 sllslslslsll\n",
        b"1445/ah.1445/M02/01@738749 2023/default.2023/M08/17@738749\n",
        Status::Done,
    ),
    (
        b"row hijri 1445 738720 sllslslslsll",
        b"1445/ah.1445/M02/01@738749 2023/default.2023/M08/17@738749\n",
        Status::Done,
    ),
    (
        b"row hijri 1445 738720 sllslslslsls\n",
        b"table hijri 1 end\n",
        Status::TableRefused,
    ),
    (
        b"\nrow hijri x\nspam\n",
        b"table line 2 syntax\n",
        Status::TableRefused,
    ),
    (
        b"row hijri 1445 738720 sllslslslsls\n\nspam\n",
        b"err line 3 syntax\n",
        Status::Refused,
    ),
    (
        b"span iso iso days none none from year=1 month=M01 day=1 to year=1 month=M01 day=1\n",
        b"err line 1 syntax\n",
        Status::Refused,
    ),
    (b"spam", b"err line 1 syntax\n", Status::Refused),
];

#[test]
fn rows_of_the_source_serve_a_list(rt: HostRuntime) -> Result<(), Fail> {
    for &(input, text, status) in &SOURCES {
        let case = Case {
            words: SAFAR,
            input,
            text,
            status,
        };
        assert_pieces(&rt, rt.alloc(), &SIZES, case)?;
    }
    Ok(())
}

#[test]
fn a_row_line_of_the_source_is_looked_at_before_the_words(rt: HostRuntime) -> Result<(), Fail> {
    let case = Case {
        words: &["anniversary", "iso", "iso", "exact", "M13", "1", "2", "1"],
        input: b"row persian 1404\n",
        text: b"table persian 1 rule\n",
        status: Status::TableRefused,
    };
    assert_pieces(&rt, rt.alloc(), &SIZES, case)
}

#[test]
fn a_long_line_of_the_source_is_refused(rt: HostRuntime) -> Result<(), Fail> {
    let input = vec![in rt.alloc(); b'x'; 513]?;
    let case = Case {
        words: SAFAR,
        input: &input,
        text: b"err line 1 long\n",
        status: Status::Refused,
    };
    assert_pieces(&rt, rt.alloc(), &[4096], case)
}

const HEBREW: &[&str] = &[
    "anniversary",
    "hebrew",
    "iso",
    "exact",
    "M05L",
    "10",
    "738000",
    "740029",
];

const READ_FAULTS: [Fault<'static>; 3] = [
    (4096, 1, Status::ReadFault, b""),
    (4096, 2, Status::ReadFault, b""),
    (4096, 3, Status::Done, HEBREW_DAYS),
];

#[test]
fn a_failed_read_writes_nothing(rt: HostRuntime) -> Result<(), Fail> {
    assert_read_faults(&rt, rt.alloc(), HEBREW, b"# nothing\n", &READ_FAULTS)
}

#[test]
fn a_failed_write_writes_a_prefix(rt: HostRuntime) -> Result<(), Fail> {
    let faults = &[
        (7, 1, Status::WriteFault, b"".as_slice()),
        (7, 3, Status::WriteFault, &HEBREW_DAYS[..14]),
    ];
    assert_write_faults(&rt, rt.alloc(), HEBREW, b"# nothing\n", faults)
}
