//! Row lines before requests, and what is written. The answers are worked by hand or by an independent implementation.

use crate::tests::runs::{
    Case, SPAN, assert_cases, assert_pieces, assert_read_faults, assert_run, assert_write_faults,
    calls_of, joined,
};
use calspan_run::Status;
use std::alloc::Global;
use std::process::Abort;
use std::test::Fail;

const LEAP_DAY: &[u8] =
    b"span iso gregorian days reject none from year=2020 month=M02 day=29 to year=2021 month=M02 day=28\n";

const LEAP_DAY_ANSWER: &[u8] =
    b"ok 2020/default.2020/M02/29@737484 2020/ce.2020/M02/29@737484 2021/default.2021/M02/28@737849 2021/ce.2021/M02/28@737849 P365D\n";

/// A Hijri year, which the simulation doesn't take; a corrected Persian year; a Chinese year, which Korea doesn't take;
/// an era after Reiwa; rows of several tables among lines that are ignored; an era that starts before 2026; and no
/// request.
const ANSWERED: [Case; 8] = [
    Case {
        words: SPAN,
        input: b"row hijri 1445 738720 sllslslslsll\nspan islamic-umalqura iso days reject none from year=1445 month=M02 day=1 to year=1446 month=M01 day=1\n",
        text: b"ok 1445/ah.1445/M02/01@738749 2023/default.2023/M08/17@738749 1446/ah.1446/M01/01@739075 2024/default.2024/M07/08@739075 P326D\n",
        status: Status::Done,
    },
    Case {
        words: SPAN,
        input: b"row hijri 1445 738720 sllslslslsll\nspan islamic-simulated iso days reject none from year=1445 month=M02 day=1 to year=1446 month=M01 day=1\n",
        text: b"ok 1445/ah.1445/M02/01@738750 2023/default.2023/M08/18@738750 1446/ah.1446/M01/01@739075 2024/default.2024/M07/08@739075 P325D\n",
        status: Status::Done,
    },
    Case {
        words: SPAN,
        input: b"row persian 1502\nspan persian persian days reject none from year=1502 month=M12 day=30 to year=1503 month=M01 day=1",
        text: b"err from InvalidDay 29\n",
        status: Status::Refused,
    },
    Case {
        words: SPAN,
        input: b"row china 1912 698026 lslslslslsls 0\nspan chinese dangi days reject none from year=1912 month=M01 day=30 to year=1912 month=M01 day=30\n",
        text: b"ok 1912/cycle.49/M01/30@698055 1912/cycle.49/M02/01@698055 1912/cycle.49/M01/30@698055 1912/cycle.49/M02/01@698055 P0D\n",
        status: Status::Done,
    },
    Case {
        words: SPAN,
        input: b"row era 2086 11 1 fuzu 8\nspan japanese iso days reject none from era=fuzu era-year=1 month=M10 day=31 to era=fuzu era-year=1 month=M11 day=1\n",
        text: b"ok 2086/reiwa.68/M10/31@761835 2086/default.2086/M10/31@761835 2086/fuzu.1/M11/01@761836 2086/default.2086/M11/01@761836 P1D\n",
        status: Status::Done,
    },
    Case {
        words: SPAN,
        input: b"# rows\n\nrow persian 1502\r\nrow hijri 1445 738720 sllslslslsll\nrow era 2086 11 1 fuzu 8\n#\nspan persian persian days reject none from year=1503 month=M01 day=1 to year=1503 month=M01 day=1\n",
        text: b"ok 1503/ap.1503/M01/01@775489 1503/ap.1503/M01/01@775489 1503/ap.1503/M01/01@775489 1503/ap.1503/M01/01@775489 P0D\n",
        status: Status::Done,
    },
    Case {
        words: SPAN,
        input: b"row era 2020 99 200 zzz 0\nspan japanese japanese days reject none from era=zzz era-year=1 month=M10 day=31 to\n",
        text: b"err from InvalidEra\n",
        status: Status::Refused,
    },
    Case {
        words: SPAN,
        input: b"row hijri 1445 738720 sllslslslsll\n",
        text: b"",
        status: Status::Done,
    },
];

/// Each part of the tables of Hijri and of Chinese years.
const LUNAR: [(&[u8], &[u8]); 12] = [
    (
        b"row hijri 1445 738720 sllslslslsls\n",
        b"table hijri 1 end\n",
    ),
    (b"row hijri 1445 738720 sll\n", b"table line 1 syntax\n"),
    (
        b"row hijri 1445 738720 sllslslslslls\n",
        b"table line 1 syntax\n",
    ),
    (
        b"row hijri 1445 738730 sllslslslsll\n",
        b"table line 1 range\n",
    ),
    (
        b"row hijri 1445 738720 sllslslslsll\nrow hijri 1447 739429 lslslslslsll\n",
        b"table hijri 2 year\n",
    ),
    (
        b"row china 1912 698026 lslslslslsll 0\n",
        b"table china 1 end\n",
    ),
    (
        b"row china 1912 698027 lslslslslsls 0\n",
        b"table china 1 join\n",
    ),
    (
        b"row china 1912 698026 lslslslslsls 1\n",
        b"table line 1 syntax\n",
    ),
    (
        b"row china 1912 698026 lslslslslslsl 0\n",
        b"table line 1 syntax\n",
    ),
    (
        b"row china 1912 698026 lslslslslslsl 1\n",
        b"table line 1 range\n",
    ),
    (
        b"row china 1912 698026 llllllllllll 0\nrow china 1913 698386 llllllllllll 0\nrow china 1914 698746 llllllllllll 0\nrow china 1915 699106 llllllllllll 0\n",
        b"table china 3 leap\n",
    ),
    (
        b"row china 1912 698026 llllllllllll 0\nrow china 1913 698386 llllllllllll 0\nrow china 1914 698746 llllllllllll 0\n",
        b"table china 3 end\n",
    ),
];

/// Each part of the other tables, and the order of the tables.
const ORDERED: [(&[u8], &[u8]); 7] = [
    (
        b"row korea 1911 697642 lslslslslsls 0\n",
        b"table korea 1 year\n",
    ),
    (b"row persian 1404\n", b"table persian 1 rule\n"),
    (
        b"row persian 1502\nrow persian 1502\n",
        b"table persian 2 year\n",
    ),
    (b"row persian 0\n", b"table persian 1 year\n"),
    (
        b"row persian 0\nrow hijri 1445 738720 sllslslslsls\nrow korea 1912 698027 lslslslslsls 0\nrow china 1912 698027 lslslslslsls 0\n",
        b"table china 1 join\n",
    ),
    (
        b"row persian 0\nrow hijri 1445 738720 sllslslslsls\nrow korea 1912 698027 lslslslslsls 0\n",
        b"table korea 1 join\n",
    ),
    (
        b"row persian 0\nrow hijri 1445 738720 sllslslslsls\nspan iso",
        b"table hijri 1 end\n",
    ),
];

/// Each fault of a row line, and a fault of a last line.
const FAULTY: [(&[u8], &[u8]); 7] = [
    (b"row era 2030 4 1 abc 9\n", b"table line 1 range\n"),
    (
        b"row era 2086 11 1 fuzu 8\nrow era 2086 11 1 fuzu 8\n",
        b"table line 2 syntax\n",
    ),
    (b"row era 2086 11 1 Fuzu 8\n", b"table line 1 syntax\n"),
    (b"row\n", b"table line 1 syntax\n"),
    (b"row ", b"table line 1 syntax\n"),
    (b"\n\n# one\nrow persian 1 ", b"table line 4 syntax\n"),
    (b"row persian 1234567890\r", b"table line 1 syntax\n"),
];

/// That rows of tables, in pieces of any size, end the run with these texts.
fn assert_refused(rt: &impl Abort, alloc: Global, refused: &[(&[u8], &[u8])]) -> Result<(), Fail> {
    for &(input, text) in refused {
        let case = Case {
            words: SPAN,
            input,
            text,
            status: Status::TableRefused,
        };
        assert_pieces(rt, alloc, &[1, 13, 4096], case)?;
    }
    Ok(())
}

#[test]
fn rows_stand_in_place_of_computed_years(rt: HostRuntime) -> Result<(), Fail> {
    assert_cases(&rt, rt.alloc(), &[1, 13, 4096], &ANSWERED)
}

#[test]
fn bad_rows_end_the_run(rt: HostRuntime) -> Result<(), Fail> {
    assert_refused(&rt, rt.alloc(), &LUNAR)
}

#[test]
fn bad_rows_of_several_tables_end_the_run(rt: HostRuntime) -> Result<(), Fail> {
    assert_refused(&rt, rt.alloc(), &ORDERED)
}

#[test]
fn faulty_row_lines_end_the_run(rt: HostRuntime) -> Result<(), Fail> {
    assert_refused(&rt, rt.alloc(), &FAULTY)
}

/// That a row line behind a line with an answer ends the run, and what stands behind it isn't read.
fn assert_late(
    rt: &impl Abort,
    alloc: Global,
    first: &[u8],
    answer: &[u8],
    late: &[u8],
) -> Result<(), Fail> {
    let input = joined(alloc, &[first, late, b"\nspan iso\n"])?;
    let text = joined(alloc, &[answer, b"table line 2 late\n"])?;
    let case = Case {
        words: SPAN,
        input: &input,
        text: &text,
        status: Status::TableRefused,
    };
    let left = assert_run(rt, alloc, case, calls_of(1), calls_of(4096))?;
    assert!(rt; left == 1);
    Ok(())
}

/// A row line behind a request line, whether it was answered or off the grammar, and whatever the row line holds. What
/// stands behind it isn't read.
#[test]
fn late_rows_end_the_run(rt: HostRuntime) -> Result<(), Fail> {
    for &late in &[
        b"row hijri 1445 738720 sllslslslsll".as_slice(),
        b"row",
        b"row ?",
    ] {
        assert_late(&rt, rt.alloc(), LEAP_DAY, LEAP_DAY_ANSWER, late)?;
        assert_late(&rt, rt.alloc(), b"span iso\n", b"err line 1 syntax\n", late)?;
    }
    Ok(())
}

const NO_PERSIAN_YEAR: &[u8] = b"row persian 0\n";

/// The tables aren't tested where the source failed.
#[test]
fn a_read_fault_among_rows(rt: HostRuntime) -> Result<(), Fail> {
    let faults = &[(4096, 2, Status::ReadFault, b"".as_slice())];
    assert_read_faults(&rt, rt.alloc(), SPAN, NO_PERSIAN_YEAR, faults)
}

/// A sink that takes nothing is a fault of its own.
#[test]
fn a_write_fault_among_rows(rt: HostRuntime) -> Result<(), Fail> {
    let faults = &[(7, 2, Status::WriteFault, b"table p".as_slice())];
    assert_write_faults(&rt, rt.alloc(), SPAN, NO_PERSIAN_YEAR, faults)
}
