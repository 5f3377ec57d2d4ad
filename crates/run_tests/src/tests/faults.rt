//! Each read and each write of a run failed in its turn, however the bytes are cut.

use crate::tests::runs::{Case, SPAN, assert_read_fault, assert_write_fault};
use calspan_run::Status;
use std::alloc::Global;
use std::process::Abort;
use std::test::Fail;

/// A line of an input with its LF, and its answer.
#[derive(Clone, Copy)]
struct Line {
    bytes: &'static [u8],
    answer: &'static [u8],
}

const LEAP_DAY: Line = Line {
    bytes: b"span iso gregorian days reject none from year=2020 month=M02 day=29 to year=2021 month=M02 day=28\n",
    answer: b"ok 2020/default.2020/M02/29@737484 2020/ce.2020/M02/29@737484 2021/default.2021/M02/28@737849 2021/ce.2021/M02/28@737849 P365D\n",
};

const ROW: Line = Line {
    bytes: b"row hijri 1445 738720 sllslslslsll\n",
    answer: b"",
};

const AFTER_ROW: Line = Line {
    bytes: b"span islamic-umalqura iso days reject none from year=1445 month=M02 day=1 to year=1446 month=M01 day=1\n",
    answer: b"ok 1445/ah.1445/M02/01@738749 2023/default.2023/M08/17@738749 1446/ah.1446/M01/01@739075 2024/default.2024/M07/08@739075 P326D\n",
};

/// The bytes of some lines.
fn input_of(alloc: Global, lines: &[Line]) -> Result<Vec<u8>, Fail> {
    let mut input = Vec::new(alloc);
    for line in lines {
        input.extend_from_slice(line.bytes)?;
    }
    Ok(input)
}

/// The answers to the lines whose LF is among the first so many bytes.
fn answers_within(alloc: Global, lines: &[Line], taken: usize) -> Result<Vec<u8>, Fail> {
    let mut text = Vec::new(alloc);
    let mut end = 0usize;
    for line in lines {
        end = end.saturating_add(line.bytes.len());
        if end <= taken {
            text.extend_from_slice(line.answer)?;
        }
    }
    Ok(text)
}

/// That a read which fails, the one of this number, keeps the answers to the whole lines that came before it.
fn assert_read(
    rt: &impl Abort,
    alloc: Global,
    lines: &[Line],
    most: usize,
    call: u64,
) -> Result<(), Fail> {
    let input = input_of(alloc, lines)?;
    let taken = most.saturating_mul(call.saturating_sub(1) as usize);
    let text = answers_within(alloc, lines, taken)?;
    // The source gives its bytes in reads of at most so many, and a last one gives none.
    let status = if taken < input.len().saturating_add(most) {
        Status::ReadFault
    } else {
        Status::Done
    };
    let case = Case {
        words: SPAN,
        input: &input,
        text: &text,
        status,
    };
    assert_read_fault(rt, alloc, case, most, call)
}

/// That a write which fails, the one of this number, keeps what was written before it.
fn assert_write(
    rt: &impl Abort,
    alloc: Global,
    lines: &[Line],
    most: usize,
    call: u64,
) -> Result<(), Fail> {
    let input = input_of(alloc, lines)?;
    let all = answers_within(alloc, lines, usize::MAX)?;
    let taken = most.saturating_mul(call.saturating_sub(1) as usize);
    let status = if taken < all.len() {
        Status::WriteFault
    } else {
        Status::Done
    };
    let case = Case {
        words: SPAN,
        input: &input,
        text: &all[..taken.min(all.len())],
        status,
    };
    assert_write_fault(rt, alloc, case, most, call)
}

/// That each read and each write of some lines fails in its turn, up to a call that isn't reached.
fn assert_faults(
    rt: &impl Abort,
    alloc: Global,
    lines: &[Line],
    most: usize,
    calls: u64,
) -> Result<(), Fail> {
    for call in 1..calls {
        assert_read(rt, alloc, lines, most, call)?;
        assert_write(rt, alloc, lines, most, call)?;
    }
    Ok(())
}

/// That each read and each write of some lines fails in its turn, in calls of three sizes.
fn assert_all_faults(rt: &impl Abort, alloc: Global, lines: &[Line]) -> Result<(), Fail> {
    assert_faults(rt, alloc, lines, 1, 260)?;
    assert_faults(rt, alloc, lines, 7, 40)?;
    assert_faults(rt, alloc, lines, 4096, 5)
}

#[test]
fn each_read_and_each_write_fails_in_turn(rt: HostRuntime) -> Result<(), Fail> {
    assert_all_faults(&rt, rt.alloc(), &[LEAP_DAY, LEAP_DAY])?;
    assert_all_faults(&rt, rt.alloc(), &[ROW, AFTER_ROW])
}
