//! Conversions of dates line by line, by the grammar of the manual, however the input is cut and whichever call fails.

use crate::tests::runs::{Case, assert_cases, assert_read_faults, assert_write_faults};
use calspan_run::Status;
use std::test::Fail;

const ISO: &[&str] = &["convert", "iso", "iso", "reject"];

const HEBREW: &[&str] = &["convert", "hebrew", "iso", "reject"];

/// Good and bad lines, carriage returns, NULs, and last lines without an LF.
const CASES: [Case<'static>; 7] = [
    Case {
        words: HEBREW,
        input: b"5784-M05L-10\tDana\n5783-M05L-10\tAvi\n\nam 5784-6-031\n@738935",
        text: b"2024-M02-19\tDana\n!MonthNotInYear\tAvi\n\n!syntax 13\n2024-M02-19\n",
        status: Status::Refused,
    },
    Case {
        words: ISO,
        input: b"1-1-1\t\r\n1-1-1\r\n\r\n",
        text: b"1-M01-01\t\r\n!syntax 6\n!syntax 1\n",
        status: Status::Refused,
    },
    Case {
        words: ISO,
        input: b"1-1-1\0\n\0\n1-1-1\t\0\xff\n",
        text: b"!syntax 6\n!syntax 1\n1-M01-01\t\0\xff\n",
        status: Status::Refused,
    },
    Case {
        words: ISO,
        input: b"\n\n",
        text: b"\n\n",
        status: Status::Done,
    },
    Case {
        words: ISO,
        input: b"# 1\n1-1-1\n# 1\nrow\n",
        text: b"1-M01-01\n!syntax 1\n!syntax 4\n",
        status: Status::Refused,
    },
    Case {
        words: ISO,
        input: b"1-2-29\t1\n@-365242500\n0-2-29",
        text: b"!InvalidDay 28\t1\n!Overflow\n0-M02-29\n",
        status: Status::Refused,
    },
    Case {
        words: ISO,
        input: b"row persian 1x",
        text: b"table line 1 syntax\n",
        status: Status::TableRefused,
    },
];

/// Each case holds however its input and its text are cut.
#[test]
fn dates_are_converted_however_they_are_cut(rt: HostRuntime) -> Result<(), Fail> {
    let alloc = rt.alloc();
    assert_cases(&rt, alloc, &[1, 2, 3, 4, 5, 6, 7, 11, 4096], &CASES)
}

/// Reads and writes that fail keep the answers to the lines that came.
#[test]
fn conversions_stop_at_faults(rt: HostRuntime) -> Result<(), Fail> {
    let alloc = rt.alloc();
    let input: &[u8] = b"1-1-1\n1-1-2\n";
    assert_read_faults(
        &rt,
        alloc,
        ISO,
        input,
        &[
            (1, 1, Status::ReadFault, b""),
            (1, 6, Status::ReadFault, b""),
            (1, 7, Status::ReadFault, b"1-M01-01\n"),
            (1, 12, Status::ReadFault, b"1-M01-01\n"),
            (1, 13, Status::ReadFault, b"1-M01-01\n1-M01-02\n"),
            (6, 2, Status::ReadFault, b"1-M01-01\n"),
        ],
    )?;
    assert_write_faults(
        &rt,
        alloc,
        ISO,
        input,
        &[
            (1, 1, Status::WriteFault, b""),
            (1, 9, Status::WriteFault, b"1-M01-01"),
            (9, 2, Status::WriteFault, b"1-M01-01\n"),
        ],
    )
}
