//! Lines of all kinds, faults and limits, the words of the command line, and texts of numbers.

use crate::tests::runs::{
    Calls, Case, Fault, SPAN, assert_cases, assert_count, assert_no_commands, assert_pieces,
    assert_read_faults, assert_run, assert_write_faults, calls_of,
};
use byte_io::LIMIT;
use calspan_run::{Status, code};
use reply_texts::{Pending, push_signed, push_two_digits};
use std::alloc::Global;
use std::process::Abort;
use std::test::Fail;

const TEXTS: [Case; 9] = [
    Case {
        words: SPAN,
        input: b"",
        status: Status::Done,
        text: b"",
    },
    Case {
        words: SPAN,
        input: b"\r",
        status: Status::Done,
        text: b"",
    },
    Case {
        words: SPAN,
        input: b"\n\r\n# births\n#\n",
        status: Status::Done,
        text: b"",
    },
    Case {
        words: SPAN,
        input: b"span iso",
        status: Status::Refused,
        text: b"err line 1 syntax\n",
    },
    Case {
        words: SPAN,
        input: b"span iso\n",
        status: Status::Refused,
        text: b"err line 1 syntax\n",
    },
    Case {
        words: SPAN,
        input: b"\r\r\n",
        status: Status::Refused,
        text: b"err line 1 syntax\n",
    },
    Case {
        words: SPAN,
        input: b"row\r\n",
        status: Status::TableRefused,
        text: b"table line 1 syntax\n",
    },
    Case {
        words: SPAN,
        input: b"# births\r\n\r\nspan iso\r\n\nspan",
        status: Status::Refused,
        text: b"err line 3 syntax\nerr line 5 syntax\n",
    },
    Case {
        words: SPAN,
        input: b" # not a comment\n\nx\n#x",
        status: Status::Refused,
        text: b"err line 1 syntax\nerr line 3 syntax\n",
    },
];

#[test]
fn answers_in_any_pieces(rt: HostRuntime) -> Result<(), Fail> {
    assert_cases(&rt, rt.alloc(), &[1, 7, 4096], &TEXTS)
}

/// Words that are no command.
const OTHERS: [&[&str]; 10] = [
    &["spam"],
    &[],
    &["span", "span"],
    &["Span"],
    &["gen"],
    &["gen", ""],
    &["gen", "100001"],
    &["gen", "0000001"],
    &["gen", "-1"],
    &["gen", "1", "1"],
];

#[test]
fn other_words_read_and_write_nothing(rt: HostRuntime) -> Result<(), Fail> {
    assert_no_commands(&rt, rt.alloc(), &OTHERS, b"span iso\n", 9)
}

/// A line of so many letters: the first, then others, and an end.
fn line_of(alloc: Global, letters: usize, first: u8, end: &str) -> Result<Vec<u8>, Fail> {
    let mut line = Vec::new(alloc);
    line.push(first)?;
    for _ in 1..letters {
        line.push(b'x')?;
    }
    line.extend_from_slice(end.as_bytes())?;
    Ok(line)
}

/// Letters, the first of them and the end of a line, and the status and the text that a run over it comes to.
type Long = (usize, u8, &'static str, Status, &'static [u8]);

/// That runs over some lines come to these.
fn assert_long(rt: &impl Abort, alloc: Global, lines: &[Long]) -> Result<(), Fail> {
    for &(letters, first, end, status, text) in lines {
        let input = line_of(alloc, letters, first, end)?;
        let case = Case {
            words: SPAN,
            input: &input,
            text,
            status,
        };
        assert_pieces(rt, alloc, &[1, 4096], case)?;
    }
    Ok(())
}

const SYNTAX: &[u8] = b"err line 1 syntax\n";

const LONG: &[u8] = b"err line 1 long\n";

const LONG_LINES: [Long; 8] = [
    (512, b'x', "", Status::Refused, SYNTAX),
    (513, b'x', "", Status::Refused, LONG),
    (512, b'x', "\n", Status::Refused, SYNTAX),
    (513, b'x', "\n", Status::Refused, LONG),
    (511, b'x', "\r\n", Status::Refused, SYNTAX),
    (512, b'x', "\r\n", Status::Refused, LONG),
    (9000, b'x', "\n", Status::Refused, LONG),
    (600, b'#', "\n", Status::Done, b""),
];

#[test]
fn long_lines(rt: HostRuntime) -> Result<(), Fail> {
    assert_long(&rt, rt.alloc(), &LONG_LINES)
}

const TWO_LINES: &[u8] = b"span iso\nspan iso\n";

const READ_FAULTS: [Fault<'static>; 4] = [
    (9, 1, Status::ReadFault, b""),
    (9, 2, Status::ReadFault, b"err line 1 syntax\n"),
    (12, 2, Status::ReadFault, b"err line 1 syntax\n"),
    (
        18,
        2,
        Status::ReadFault,
        b"err line 1 syntax\nerr line 2 syntax\n",
    ),
];

#[test]
fn read_fault_keeps_the_answers_to_whole_lines(rt: HostRuntime) -> Result<(), Fail> {
    assert_read_faults(&rt, rt.alloc(), SPAN, TWO_LINES, &READ_FAULTS)
}

const WRITE_FAULTS: [Fault<'static>; 3] = [
    (4096, 1, Status::WriteFault, b""),
    (10, 2, Status::WriteFault, b"err line 1"),
    (
        10,
        4,
        Status::WriteFault,
        b"err line 1 syntax\nerr line 2 s",
    ),
];

#[test]
fn write_fault_keeps_a_prefix(rt: HostRuntime) -> Result<(), Fail> {
    assert_write_faults(&rt, rt.alloc(), SPAN, TWO_LINES, &WRITE_FAULTS)
}

/// A thousand answers are more than is kept pending: 9 of 18 bytes, 90 of 19, 900 of 20, 1 of 21.
#[test]
fn many_answers(rt: HostRuntime) -> Result<(), Fail> {
    let mut input = Vec::new(rt.alloc());
    for _ in 0..1000 {
        input.extend_from_slice(b"x\n")?;
    }
    assert_count(&rt, rt.alloc(), &input, Status::Refused, 19893)
}

#[test]
fn stops_past_the_limit(rt: HostRuntime) -> Result<(), Fail> {
    for &(more, wanted) in &[(0usize, Status::Done), (1, Status::TooLong)] {
        let input = vec![in rt.alloc(); b'\n'; LIMIT + more]?;
        assert_count(&rt, rt.alloc(), &input, wanted, 0)?;
    }
    Ok(())
}

#[test]
fn codes(rt: HostRuntime) {
    let statuses = [
        Status::Done,
        Status::Refused,
        Status::Words,
        Status::ReadFault,
        Status::WriteFault,
        Status::NoMemory,
        Status::TableRefused,
        Status::TooLong,
    ];
    for (i, status) in statuses.iter().enumerate() {
        assert_eq!(rt; usize::from(code(*status)), i);
    }
}

#[test]
fn numbers_as_texts(rt: HostRuntime) {
    let mut text = Pending::new();
    push_signed(&mut text, -9223372036854775808);
    text.push(b' ');
    push_signed(&mut text, 20);
    text.push(b' ');
    push_two_digits(&mut text, 5);
    push_two_digits(&mut text, 31);
    assert_eq!(rt; text.as_slice(), b"-9223372036854775808 20 0531".as_slice());
}

/// Words with a number, and the line that is written for them.
const NUMBERS: [(&[&str], &[u8]); 4] = [
    (&["gen", "0"], b"gen 0 ok 0 err 0 sum 0 parts 0 0 0 0\n"),
    (&["gen", "000"], b"gen 0 ok 0 err 0 sum 0 parts 0 0 0 0\n"),
    (
        &["gen", "1"],
        b"gen 1 ok 1 err 0 sum -1851656 parts 3 7 0 29\n",
    ),
    (
        &["gen", "360"],
        b"gen 360 ok 296 err 64 sum -44550748 parts 90201 763986 5670112 50596390\n",
    ),
];

/// That words are answered by a text, and nothing is read for them.
fn assert_number(
    rt: &impl Abort,
    alloc: Global,
    words: &[&'static str],
    text: &[u8],
) -> Result<(), Fail> {
    let case = Case {
        words,
        input: b"span iso\n",
        text,
        status: Status::Done,
    };
    let reads = Calls {
        most: 4096,
        failing: &[1],
    };
    let _left = assert_run(rt, alloc, case, reads, calls_of(7))?;
    Ok(())
}

/// The lines were computed by two programs, each written from the rule of the requests alone. Nothing is read for them.
#[test]
fn a_number_is_answered_by_counts_and_sums(rt: HostRuntime) -> Result<(), Fail> {
    for &(words, text) in &NUMBERS {
        assert_number(&rt, rt.alloc(), words, text)?;
    }
    Ok(())
}

#[test]
fn a_fault_within_the_line_of_a_number_keeps_a_prefix(rt: HostRuntime) -> Result<(), Fail> {
    let faults = &[(6, 2, Status::WriteFault, b"gen 1 ".as_slice())];
    assert_write_faults(&rt, rt.alloc(), &["gen", "1"], b"", faults)
}
