//! Lines about malformed and misplaced lines, by the grammar of the manual.

use crate::tests::runs::{Case, assert_cases, assert_read_faults, assert_write_faults, joined};
use calspan_run::Status;
use std::test::Fail;

const EXPLAIN: &[&str] = &["explain"];

/// Lines that are well-formed, ignored, or neither a request nor a row.
const LINES: [Case<'static>; 6] = [
    Case {
        words: EXPLAIN,
        input: b"",
        text: b"",
        status: Status::Done,
    },
    Case {
        words: EXPLAIN,
        input: b"# span\n\n\r\nrow persian -1\r\nspan iso hebrew none none ecma from era=a=b day=255 to ordinal=0 month-code=\n",
        text: b"",
        status: Status::Done,
    },
    Case {
        words: EXPLAIN,
        input: b"rows\n span\n\nspans iso",
        text: b"line 1 word 1 rows: span or row\nline 2 word 1 : span\nline 4 word 1 spans: span\n",
        status: Status::Refused,
    },
    Case {
        words: EXPLAIN,
        input: b"span iso gregorain days none none from to\n",
        text: b"line 1 word 3 gregorain: a calendar: iso, gregorian, julian, buddhist, roc, japanese, chinese, dangi, hebrew, islamic-umalqura, islamic-civil, islamic-tbla, islamic-type1-friday, islamic-type1-thursday, islamic-simulated, persian, indian, coptic, ethiopic or ethioaa\n",
        status: Status::Refused,
    },
    Case {
        words: EXPLAIN,
        input: b"span\r\n",
        text: b"line 1 word 2: a calendar: iso, gregorian, julian, buddhist, roc, japanese, chinese, dangi, hebrew, islamic-umalqura, islamic-civil, islamic-tbla, islamic-type1-friday, islamic-type1-thursday, islamic-simulated, persian, indian, coptic, ethiopic or ethioaa\n",
        status: Status::Refused,
    },
    Case {
        words: EXPLAIN,
        input: b"span iso iso day none none from to\nspan iso iso days skip none from to\nspan iso iso days none none to\nspan iso iso days none x\n",
        text: b"line 1 word 4 day: years, months, weeks, days or none\nline 2 word 5 skip: constrain, reject or none\nline 3 word 7 to: from\nline 4 word 6 x: reject, ecma or none\n",
        status: Status::Refused,
    },
];

/// Fields, of which each key may stand once.
const FIELDS: [Case<'static>; 3] = [
    Case {
        words: EXPLAIN,
        input: b"span iso iso days none none from year=1 month=1 day=1 to\nspan iso iso days none none from day=1 day=2 to\nspan iso iso days none none from",
        text: b"line 1 word 9 month=1: to, or a new field: era=BYTES, era-year=INT, year=INT, month=CODE, month-code=BYTES, ordinal=BYTE or day=BYTE\nline 2 word 9 day=2: to, or a new field: era=BYTES, era-year=INT, year=INT, month=CODE, month-code=BYTES, ordinal=BYTE or day=BYTE\nline 3 word 8: to, or a new field: era=BYTES, era-year=INT, year=INT, month=CODE, month-code=BYTES, ordinal=BYTE or day=BYTE\n",
        status: Status::Refused,
    },
    Case {
        words: EXPLAIN,
        input: b"span iso iso days none none from day=1 to day=2 \nspan iso iso days none none from to to\nspan iso iso days none none from to day=256\n",
        text: b"line 1 word 11 : a new field: era=BYTES, era-year=INT, year=INT, month=CODE, month-code=BYTES, ordinal=BYTE or day=BYTE\nline 2 word 9 to: a new field: era=BYTES, era-year=INT, year=INT, month=CODE, month-code=BYTES, ordinal=BYTE or day=BYTE\nline 3 word 9 day=256: a new field: era=BYTES, era-year=INT, year=INT, month=CODE, month-code=BYTES, ordinal=BYTE or day=BYTE\n",
        status: Status::Refused,
    },
    Case {
        words: EXPLAIN,
        input: b"span iso iso days none none from  to\n",
        text: b"line 1 word 8 : to, or a new field: era=BYTES, era-year=INT, year=INT, month=CODE, month-code=BYTES, ordinal=BYTE or day=BYTE\n",
        status: Status::Refused,
    },
];

/// Row lines.
const ROWS: [Case<'static>; 3] = [
    Case {
        words: EXPLAIN,
        input: b"row\nrow roc 1\nrow china 2024\nrow korea 1 1 llllllllllll 1\nrow china 1 1 lllllllllllll 0\nrow china 1 1 lllllllllll 0\n",
        text: b"line 1 word 2: china, korea, hijri, persian or era\nline 2 word 2 roc: china, korea, hijri, persian or era\nline 3 word 4: START, an optional - and 1 to 9 digits\nline 4 word 6 1: LEAP, 0 after 12 lengths\nline 5 word 6 0: LEAP, 1 to 255 after 13 lengths\nline 6 word 5 lllllllllll: LENGTHS, 12 or 13 letters l and s\n",
        status: Status::Refused,
    },
    Case {
        words: EXPLAIN,
        input: b"row hijri 1 1 lllllllllllll\nrow hijri 1 1 llllllllllll x\nrow persian 1x\r\nrow persian 1 \n",
        text: b"line 1 word 5 lllllllllllll: LENGTHS, 12 letters l and s\nline 2 word 6 x: the end of the line\nline 3 word 3 1x: YEAR, an optional - and 1 to 9 digits\nline 4 word 4 : the end of the line\n",
        status: Status::Refused,
    },
    Case {
        words: EXPLAIN,
        input: b"row era 1 256\nrow era 1 1 -1\nrow era 1 1 1 A\nrow era 1 1 1 abcdefgh",
        text: b"line 1 word 4 256: MONTH, 1 to 3 digits up to 255\nline 2 word 5 -1: DAY, 1 to 3 digits up to 255\nline 3 word 6 A: CODE, 1 to 8 letters a to z\nline 4 word 7: INDEX, 1 to 3 digits up to 255\n",
        status: Status::Refused,
    },
];

/// Rows that are well-formed, and have no year or no era.
const NUMBERS: [Case<'static>; 5] = [
    Case {
        words: EXPLAIN,
        input: b"row china 8000001 0 llllllllllll 0\nrow korea -8000001 0 llllllllllll 0\nrow hijri 8000001 0 llllllllllll\nrow china 8000000 0 llllllllllll 0\nrow hijri -8000000 0 llllllllllll\n",
        text: b"line 1 word 3 8000001: YEAR, -8000000 to 8000000\nline 2 word 3 -8000001: YEAR, -8000000 to 8000000\nline 3 word 3 8000001: YEAR, -8000000 to 8000000\nline 4 word 4 0: START, 0 to 34 days after January 19 of the year\nline 5 word 4 0: START, at most 5 days from the start of the mean year\n",
        status: Status::Refused,
    },
    // January 19, 2024 is day number 738904.
    Case {
        words: EXPLAIN,
        input: b"row china 2024 738904 llllllllllll 0\nrow china 2024 738903 llllllllllll 0\nrow korea 2024 738938 llllllllllll 0\nrow korea 2024 738939 llllllllllll 0\n",
        text: b"line 2 word 4 738903: START, 0 to 34 days after January 19 of the year\nline 4 word 4 738939: START, 0 to 34 days after January 19 of the year\n",
        status: Status::Refused,
    },
    Case {
        words: EXPLAIN,
        input: b"row china 2024 738904 lllllllllllll 1\nrow china 2024 738904 lllllllllllll 2\nrow china 2024 738904 lllllllllllll 13\nrow korea 2024 738904 lllllllllllll 014\n",
        text: b"line 1 word 6 1: LEAP, 2 to 13 after 13 lengths\nline 4 word 6 014: LEAP, 2 to 13 after 13 lengths\n",
        status: Status::Refused,
    },
    // The mean year 1 starts on day number 227015.
    Case {
        words: EXPLAIN,
        input: b"row hijri 1 227009 llllllllllll\nrow hijri 1 227010 llllllllllll\nrow hijri 1 227020 llllllllllll\nrow hijri 1 227021 llllllllllll\n",
        text: b"line 1 word 4 227009: START, at most 5 days from the start of the mean year\nline 4 word 4 227021: START, at most 5 days from the start of the mean year\n",
        status: Status::Refused,
    },
    Case {
        words: EXPLAIN,
        input: b"row era 2090 0 0 a 0\nrow era 2026 0 0 a 0\nrow era 2026 16 0 a 0\nrow era 2026 1 0 a 0\nrow era 2026 15 32 a 0\nrow era 2026 1 1 a 6\nrow era 2089 15 31 a 9\n",
        text: b"line 1 word 3 2090: YEAR, up to 2089\nline 2 word 4 0: MONTH, 1 to 15\nline 3 word 4 16: MONTH, 1 to 15\nline 4 word 5 0: DAY, 1 to 31\nline 5 word 5 32: DAY, 1 to 31\nline 6 word 7 6: INDEX, 7 or 8\nline 7 word 7 9: INDEX, 7 or 8\n",
        status: Status::Refused,
    },
];

/// Rows that the lines before them don't allow.
const PLACES: [Case<'static>; 4] = [
    Case {
        words: EXPLAIN,
        input: b"row era 2026 1 1 a 6\nrow era 2026 1 1 a 7\nrow era 2026 1 1 b 6\nrow era 2026\nrow persian 1502\n",
        text: b"line 1 word 7 6: INDEX, 7 or 8\nline 3 word 2 era: china, korea, hijri or persian, since an earlier row has an era\nline 4 word 4: MONTH, 1 to 3 digits up to 255\n",
        status: Status::Refused,
    },
    // An era that starts before 2026 is none after Reiwa, but counts.
    Case {
        words: EXPLAIN,
        input: b"row era 2025 0 0 a 0\nrow era 2089 15 31 a 8\n",
        text: b"line 2 word 2 era: china, korea, hijri or persian, since an earlier row has an era\n",
        status: Status::Refused,
    },
    Case {
        words: EXPLAIN,
        input: b"row persian 1502\n# row\nspan iso iso none none none from to\nrow persian 1502\n\nrow x\nspan iso iso none none none from to\nrow",
        text: b"line 4 word 1 row: span, since rows come before the first request\nline 6 word 1 row: span, since rows come before the first request\nline 8 word 1 row: span, since rows come before the first request\n",
        status: Status::Refused,
    },
    // An invalid row ends no rows, but a line that is no row does.
    Case {
        words: EXPLAIN,
        input: b"row x\nrow persian 1\nrows\nrow era 2090 1 1 a 7\r\nspan",
        text: b"line 1 word 2 x: china, korea, hijri, persian or era\nline 3 word 1 rows: span or row\nline 4 word 1 row: span, since rows come before the first request\nline 5 word 2: a calendar: iso, gregorian, julian, buddhist, roc, japanese, chinese, dangi, hebrew, islamic-umalqura, islamic-civil, islamic-tbla, islamic-type1-friday, islamic-type1-thursday, islamic-simulated, persian, indian, coptic, ethiopic or ethioaa\n",
        status: Status::Refused,
    },
];

/// Each case holds however its input and its text are cut.
#[test]
fn malformed_lines_are_explained(rt: HostRuntime) -> Result<(), Fail> {
    let alloc = rt.alloc();
    assert_cases(&rt, alloc, &[1, 2, 3, 7, 4096], &LINES)?;
    assert_cases(&rt, alloc, &[1, 5, 4096], &FIELDS)?;
    assert_cases(&rt, alloc, &[1, 5, 4096], &ROWS)
}

/// Rows that the program rejects for their numbers, or for the lines before them, are explained too.
#[test]
fn refused_rows_are_explained(rt: HostRuntime) -> Result<(), Fail> {
    let alloc = rt.alloc();
    assert_cases(&rt, alloc, &[1, 5, 4096], &NUMBERS)?;
    assert_cases(&rt, alloc, &[1, 5, 4096], &PLACES)
}

/// A line of 512 bytes is explained, and a longer one isn't read.
#[test]
fn long_lines_are_named(rt: HostRuntime) -> Result<(), Fail> {
    let alloc = rt.alloc();
    let most = [b'#' + 1; 512];
    let input = joined(alloc, &[b"\n", &most, b"x\nrow\n"])?;
    let case = Case {
        words: EXPLAIN,
        input: &input,
        text: b"line 2: at most 512 bytes\nline 3 word 1 row: span, since rows come before the first request\n",
        status: Status::Refused,
    };
    assert_cases(&rt, alloc, &[1, 100, 4096], &[case])
}

/// Reads and writes that fail keep the lines about the lines that came.
#[test]
fn explanations_stop_at_faults(rt: HostRuntime) -> Result<(), Fail> {
    let alloc = rt.alloc();
    let input: &[u8] = b"row\nx\n";
    let first: &[u8] = b"line 1 word 2: china, korea, hijri, persian or era\n";
    assert_read_faults(
        &rt,
        alloc,
        EXPLAIN,
        input,
        &[
            (1, 1, Status::ReadFault, b""),
            (1, 4, Status::ReadFault, b""),
            (1, 5, Status::ReadFault, first),
            (4, 2, Status::ReadFault, first),
        ],
    )?;
    assert_write_faults(
        &rt,
        alloc,
        EXPLAIN,
        input,
        &[
            (1, 1, Status::WriteFault, b""),
            (5, 2, Status::WriteFault, b"line "),
        ],
    )
}
