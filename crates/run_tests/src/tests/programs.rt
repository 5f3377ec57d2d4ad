//! The program over words, a source and a sink: its exit code for each status, and for words that can't be had.

use crate::tests::runs::{Calls, calls_of, words_of};
use byte_io::{MemorySink, MemorySource, PlainSink, PlainSource};
use calspan_run::run_program;
use std::alloc::Global;
use std::io;
use std::io::ErrorKind;
use std::process::Abort;
use std::test::Fail;
use std::vec::IntoIter;

/// Words, an input, and the code and the text that the program ends with.
#[derive(Clone, Copy)]
struct Program<'a> {
    words: &'a [&'static str],
    input: &'a [u8],
    code: u8,
    text: &'a [u8],
}

/// Asserts that the program ends with a code and a text.
fn assert_program(
    rt: &impl Abort,
    alloc: Global,
    program: &Program<'_>,
    reads: Calls<'_>,
    writes: Calls<'_>,
) -> Result<(), Fail> {
    assert!(rt; reads.most > 0 && writes.most > 0);
    let words = words_of(alloc, program.words)?;
    let mut room = [0u8; 512];
    let mut source = MemorySource::new(program.input, reads.most, reads.failing);
    let mut sink = MemorySink::new(&mut room, writes.most, writes.failing);
    let code = run_program(alloc, Ok(words.into_iter()), &mut source, &mut sink);
    assert!(rt; code == program.code);
    assert!(rt; sink.taken() == program.text);
    Ok(())
}

const NAMED: &[&str] = &["calspan", "span"];

/// Programs without a fault, by their codes.
const PROGRAMS: [Program<'static>; 6] = [
    Program {
        words: NAMED,
        input: b"# nothing\n",
        code: 0,
        text: b"",
    },
    Program {
        words: NAMED,
        input: b"what\n",
        code: 1,
        text: b"err line 1 syntax\n",
    },
    Program {
        words: &[],
        input: b"what\n",
        code: 2,
        text: b"",
    },
    // The first word is the program's name, whatever it is.
    Program {
        words: &["span"],
        input: b"what\n",
        code: 2,
        text: b"",
    },
    Program {
        words: &["span", "span"],
        input: b"what\n",
        code: 1,
        text: b"err line 1 syntax\n",
    },
    Program {
        words: NAMED,
        input: b"row hijri\n",
        code: 6,
        text: b"table line 1 syntax\n",
    },
];

#[test]
fn codes_are_those_of_the_runs(rt: HostRuntime) -> Result<(), Fail> {
    for program in &PROGRAMS {
        assert_program(&rt, rt.alloc(), program, calls_of(4096), calls_of(4096))?;
    }
    Ok(())
}

#[test]
fn faults_have_codes_of_their_own(rt: HostRuntime) -> Result<(), Fail> {
    let failing = Calls {
        most: 4096,
        failing: &[1],
    };
    let unread = Program {
        words: NAMED,
        input: b"what\n",
        code: 3,
        text: b"",
    };
    assert_program(&rt, rt.alloc(), &unread, failing, calls_of(4096))?;
    let unwritten = Program { code: 4, ..unread };
    assert_program(&rt, rt.alloc(), &unwritten, calls_of(4096), failing)
}

/// Returns the code of a run of `span` over an input.
fn code_over(alloc: Global, input: &[u8]) -> Result<u8, Fail> {
    let words = words_of(alloc, NAMED)?;
    let mut source = PlainSource::new(input);
    let mut sink = PlainSink::new();
    Ok(run_program(alloc, Ok(words.into_iter()), &mut source, &mut sink))
}

#[test]
fn a_long_input_has_a_code_of_its_own(rt: HostRuntime) -> Result<(), Fail> {
    let input = vec![in rt.alloc(); b'#'; 16777217]?;
    assert!(rt; code_over(rt.alloc(), &input)? == 7);
    Ok(())
}

/// Asserts the code for words that can't be had. Nothing is read or written.
fn assert_lost(rt: &impl Abort, alloc: Global, kind: ErrorKind, want: u8) {
    let lost: io::Result<IntoIter<String>> = Err(io::Error::from(kind));
    let mut source = PlainSource::new(b"what\n");
    let mut sink = PlainSink::new();
    let code = run_program(alloc, lost, &mut source, &mut sink);
    assert!(rt; code == want);
    assert!(rt; sink.count() == 0);
}

#[test]
fn lost_words_have_codes(rt: HostRuntime) {
    assert_lost(&rt, rt.alloc(), ErrorKind::OutOfMemory, 5);
    assert_lost(&rt, rt.alloc(), ErrorKind::InvalidData, 2);
}
