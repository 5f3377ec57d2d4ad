//! Lists of the holidays of a book: worked rows, refusals, faults of the source and the sink; and a source read whole.

use crate::tests::runs::{Case, Fault, assert_pieces, assert_read_faults, assert_write_faults};
use byte_io::{MemorySource, PlainSource, ReadAllError, Source, read_all};
use calspan_run::Status;
use std::alloc::Global;
use std::process::Abort;
use std::test::Fail;

const YEAR_2024: &[&str] = &["holidays", "738886", "739251"];

const BOOK: &[u8] = b"easter,Easter,gregorian,,0,
easter,Pascha,julian,,0,
weekday,Thanksgiving,gregorian,M11,4,thursday
fixed,Purim,hebrew,M06,14,constrain
";

const HOLIDAYS: &[u8] = b"2024/default.2024/M03/24@738969 Purim
2024/default.2024/M03/31@738976 Easter
2024/default.2024/M05/05@739011 Pascha
2024/default.2024/M11/28@739218 Thanksgiving
";

/// That words and books are answered by texts, however the bytes are cut.
fn assert_holidays(
    rt: &impl Abort,
    alloc: Global,
    words: &[&'static str],
    status: Status,
    books: &[(&[u8], &[u8])],
) -> Result<(), Fail> {
    for &(input, text) in books {
        let case = Case {
            words,
            input,
            text,
            status,
        };
        assert_pieces(rt, alloc, &[1, 7, 4096], case)?;
    }
    Ok(())
}

/// Books of the year 2024, and their days.
const BOOKS: [(&[u8], &[u8]); 3] = [(BOOK, HOLIDAYS), (b"", b""), (b"\r\n\n", b"")];

#[test]
fn the_days_of_a_book_come_in_order(rt: HostRuntime) -> Result<(), Fail> {
    assert_holidays(&rt, rt.alloc(), YEAR_2024, Status::Done, &BOOKS)
}

#[test]
fn quotes_part_no_field_and_rules_of_one_day_stand_as_in_the_book(
    rt: HostRuntime,
) -> Result<(), Fail> {
    let book = b"fixed,\"a, \"\"b\"\"\",iso,M02,29,constrain\nfixed,a,iso,M02,28,exact".as_slice();
    let days =
        b"2023/default.2023/M02/28@738579 a, \"b\"\n2023/default.2023/M02/28@738579 a\n".as_slice();
    let words = &["holidays", "738521", "738885"];
    assert_holidays(&rt, rt.alloc(), words, Status::Done, &[(book, days)])
}

/// Rows of Umm al-Qura whose first month of 1446 has 29 days, where the computed one has 30.
const ROWS_AND_BOOK: &[u8] = b"# published\n\nrow hijri 1445 738720 sllslslslsll
row hijri 1446 739075 sllslslslsls
\nfixed,Safar,islamic-umalqura,M02,1,exact
";

#[test]
fn rows_before_a_book_replace_computed_years(rt: HostRuntime) -> Result<(), Fail> {
    let words = &["holidays", "739100", "739110"];
    let without = b"fixed,Safar,islamic-umalqura,M02,1,exact".as_slice();
    let books = [
        (
            ROWS_AND_BOOK,
            b"2024/default.2024/M08/06@739104 Safar\n".as_slice(),
        ),
        (
            without,
            b"2024/default.2024/M08/07@739105 Safar\n".as_slice(),
        ),
    ];
    assert_holidays(&rt, rt.alloc(), words, Status::Done, &books)
}

/// Rows that aren't accepted before a book with a bad record, with what is written for them.
const BAD_ROWS: [(&[u8], &[u8]); 3] = [
    (b"row hijri 1446\nfixed,X", b"table line 1 syntax\n"),
    (
        b"# a\n\nrow hijri 1446 739074 slllsllsslss\nfixed,X",
        b"table hijri 1 join\n",
    ),
    (
        b"row hijri 1446 738000 sllslslslsls\n",
        b"table line 1 range\n",
    ),
];

#[test]
fn bad_rows_are_refused_before_the_window_and_the_book(rt: HostRuntime) -> Result<(), Fail> {
    let words = &["holidays", "2", "1"];
    assert_holidays(&rt, rt.alloc(), words, Status::TableRefused, &BAD_ROWS)
}

#[test]
fn a_row_behind_a_record_is_a_record(rt: HostRuntime) -> Result<(), Fail> {
    let books = [(
        b"easter,X,julian,,0,\nrow hijri 1446 739075 sllslslslsls\n".as_slice(),
        b"err record 2 field 0\n".as_slice(),
    )];
    assert_holidays(&rt, rt.alloc(), YEAR_2024, Status::Refused, &books)
}

/// A window that goes backwards and one past the last day, and books with a bad record, with what is written for them.
const BAD: [(&[&str], &[u8], &[u8]); 5] = [
    (
        &["holidays", "2", "1"],
        b"fixed,X,klingon,M01,1,exact",
        b"err InvalidWindow\n",
    ),
    (
        &["holidays", "1", "365242135"],
        BOOK,
        b"err InvalidWindow\n",
    ),
    (
        YEAR_2024,
        b"fixed,X,klingon,M01,1,exact",
        b"err record 1 field 3\n",
    ),
    (YEAR_2024, b"easter,X,gregorian", b"err record 1 field 0\n"),
    (
        YEAR_2024,
        b"easter,X,julian,,0,\n\neaster,,julian,M01,0,\n",
        b"err record 2 field 2\n",
    ),
];

#[test]
fn a_bad_window_and_then_the_first_bad_record_are_refused(rt: HostRuntime) -> Result<(), Fail> {
    for &(words, book, text) in &BAD {
        assert_holidays(&rt, rt.alloc(), words, Status::Refused, &[(book, text)])?;
    }
    Ok(())
}

/// Words of another form.
const OTHERS: [&[&str]; 4] = [
    &["holidays", "1"],
    &["holidays", "1", "2", "3"],
    &["holidays", "1", "x"],
    &["holiday", "1", "2"],
];

#[test]
fn words_of_another_form_are_no_command(rt: HostRuntime) -> Result<(), Fail> {
    for &words in &OTHERS {
        assert_holidays(&rt, rt.alloc(), words, Status::Words, &[(BOOK, b"")])?;
    }
    Ok(())
}

const READ_FAULTS: [Fault<'static>; 3] = [
    (4096, 1, Status::ReadFault, b""),
    (4096, 2, Status::ReadFault, b""),
    (4096, 3, Status::Done, HOLIDAYS),
];

#[test]
fn a_failed_read_writes_nothing(rt: HostRuntime) -> Result<(), Fail> {
    assert_read_faults(&rt, rt.alloc(), YEAR_2024, BOOK, &READ_FAULTS)
}

#[test]
fn a_failed_write_writes_a_prefix(rt: HostRuntime) -> Result<(), Fail> {
    let faults = &[(7, 3, Status::WriteFault, &HOLIDAYS[..14])];
    assert_write_faults(&rt, rt.alloc(), YEAR_2024, BOOK, faults)
}

/// Why a source isn't read whole.
fn unread(alloc: Global, source: &mut impl Source, limit: usize) -> Option<ReadAllError> {
    read_all(alloc, source, limit).err()
}

#[test]
fn a_source_is_read_whole_up_to_a_limit(rt: HostRuntime) -> Result<(), Fail> {
    let alloc = rt.alloc();
    let all = read_all(alloc, &mut PlainSource::new(b"abcde"), 5)?;
    assert!(rt; all.as_slice() == b"abcde".as_slice());
    let long = unread(alloc, &mut PlainSource::new(b"abcde"), 4);
    assert!(rt; long == Some(ReadAllError::TooLong));
    let failed = unread(alloc, &mut MemorySource::new(b"abcde", 2, &[2]), 5);
    assert!(rt; failed == Some(ReadAllError::Fault));
    Ok(())
}
