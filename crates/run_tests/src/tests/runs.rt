//! Runs over memory, and what they are to come to. What is asserted of a run is proved once, here.

use byte_io::{MemorySink, MemorySource, PlainSink, PlainSource, Source};
use calspan_run::{Status, run};
use std::alloc::Global;
use std::fmt::Debug;
use std::process::Abort;
use std::test::Fail;

/// The most bytes that a call gives or takes, and which calls fail, counted from 1.
#[derive(Clone, Copy)]
pub(super) struct Calls<'a> {
    pub(super) most: usize,
    pub(super) failing: &'a [u64],
}

/// Calls of at most so many bytes, none of which fails.
pub(super) fn calls_of(most: usize) -> Calls<'static> {
    Calls { most, failing: &[] }
}

/// Words and an input, and what a run over them comes to.
#[derive(Clone, Copy)]
pub(super) struct Case<'a> {
    pub(super) words: &'a [&'static str],
    pub(super) input: &'a [u8],
    pub(super) text: &'a [u8],
    pub(super) status: Status,
}

/// The words of a run that answers requests.
pub(super) const SPAN: &[&str] = &["span"];

/// A call that fails, counted from 1, where the calls are of at most so many bytes, and the status and the text that a
/// run then comes to.
pub(super) type Fault<'a> = (usize, u64, Status, &'a [u8]);

/// The bytes of some parts.
pub(super) fn joined(alloc: Global, parts: &[&[u8]]) -> Result<Vec<u8>, Fail> {
    let mut bytes = Vec::new(alloc);
    for part in parts {
        bytes.extend_from_slice(part)?;
    }
    Ok(bytes)
}

pub(super) fn words_of(alloc: Global, texts: &[&str]) -> Result<Vec<String>, Fail> {
    let mut words = Vec::new(alloc);
    for text in texts {
        words.push(String::from_str(alloc, text)?)?;
    }
    Ok(words)
}

/// That what was found is as expected.
fn assert_same<T: PartialEq + Debug + Copy>(rt: &impl Abort, found: T, expected: T) {
    assert_eq!(rt; found, expected);
}

/// That a run comes to what is expected. It answers how many bytes the source gives then, where 16 are asked for.
pub(super) fn assert_run(
    rt: &impl Abort,
    alloc: Global,
    case: Case<'_>,
    reads: Calls<'_>,
    writes: Calls<'_>,
) -> Result<usize, Fail> {
    assert!(rt; reads.most > 0 && writes.most > 0);
    let words = words_of(alloc, case.words)?;
    let mut room = [0u8; 512];
    let mut source = MemorySource::new(case.input, reads.most, reads.failing);
    let mut sink = MemorySink::new(&mut room, writes.most, writes.failing);
    let found = run(alloc, &words, &mut source, &mut sink);
    assert_same(rt, found, case.status);
    assert_same(rt, sink.taken(), case.text);
    let mut buf = [0u8; 16];
    Ok(source.read(&mut buf).unwrap_or(0))
}

/// That a run comes to what is expected, in calls of at most each of some numbers of bytes.
pub(super) fn assert_pieces(
    rt: &impl Abort,
    alloc: Global,
    sizes: &[usize],
    case: Case<'_>,
) -> Result<(), Fail> {
    for &most in sizes {
        let _left = assert_run(rt, alloc, case, calls_of(most), calls_of(most))?;
    }
    Ok(())
}

/// That runs come to what is expected, in calls of at most each of some numbers of bytes.
pub(super) fn assert_cases(
    rt: &impl Abort,
    alloc: Global,
    sizes: &[usize],
    cases: &[Case<'_>],
) -> Result<(), Fail> {
    for &case in cases {
        assert_pieces(rt, alloc, sizes, case)?;
    }
    Ok(())
}

/// That words are no command: nothing is written, and the source still gives so many bytes.
pub(super) fn assert_no_commands(
    rt: &impl Abort,
    alloc: Global,
    others: &[&[&'static str]],
    input: &[u8],
    left: usize,
) -> Result<(), Fail> {
    for &words in others {
        let case = Case {
            words,
            input,
            text: b"",
            status: Status::Words,
        };
        let found = assert_run(rt, alloc, case, calls_of(4096), calls_of(4096))?;
        assert!(rt; found == left);
    }
    Ok(())
}

/// That a run with a read that fails, in reads of at most so many bytes, comes to what is expected.
pub(super) fn assert_read_fault(
    rt: &impl Abort,
    alloc: Global,
    case: Case<'_>,
    most: usize,
    call: u64,
) -> Result<(), Fail> {
    let failing = [call];
    let reads = Calls {
        most,
        failing: &failing,
    };
    let _left = assert_run(rt, alloc, case, reads, calls_of(4096))?;
    Ok(())
}

/// That a run with a write that fails, in writes of at most so many bytes, comes to what is expected.
pub(super) fn assert_write_fault(
    rt: &impl Abort,
    alloc: Global,
    case: Case<'_>,
    most: usize,
    call: u64,
) -> Result<(), Fail> {
    let failing = [call];
    let writes = Calls {
        most,
        failing: &failing,
    };
    let _left = assert_run(rt, alloc, case, calls_of(4096), writes)?;
    Ok(())
}

/// That runs over words and an input, each with another read that fails, come to these.
pub(super) fn assert_read_faults(
    rt: &impl Abort,
    alloc: Global,
    words: &[&'static str],
    input: &[u8],
    faults: &[Fault<'_>],
) -> Result<(), Fail> {
    for &(most, call, status, text) in faults {
        let case = Case {
            words,
            input,
            text,
            status,
        };
        assert_read_fault(rt, alloc, case, most, call)?;
    }
    Ok(())
}

/// That runs over words and an input, each with another write that fails, come to these.
pub(super) fn assert_write_faults(
    rt: &impl Abort,
    alloc: Global,
    words: &[&'static str],
    input: &[u8],
    faults: &[Fault<'_>],
) -> Result<(), Fail> {
    for &(most, call, status, text) in faults {
        let case = Case {
            words,
            input,
            text,
            status,
        };
        assert_write_fault(rt, alloc, case, most, call)?;
    }
    Ok(())
}

/// That the lines of an input are answered by so many bytes, and the run ends with a status.
pub(super) fn assert_count(
    rt: &impl Abort,
    alloc: Global,
    input: &[u8],
    status: Status,
    count: u64,
) -> Result<(), Fail> {
    let words = words_of(alloc, SPAN)?;
    let mut source = PlainSource::new(input);
    let mut sink = PlainSink::new();
    let found = run(alloc, &words, &mut source, &mut sink);
    assert_same(rt, found, status);
    assert_same(rt, sink.count(), count);
    Ok(())
}
