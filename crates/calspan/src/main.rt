//! The program `calspan`: dates, differences and lists of days in any calendar. [`run_program`] says what it does.
//!
//! Standard output has what the run writes, and nothing else. On standard error stands why a run ended with an exit code
//! above 1. `--help` and `--version` are answered there, too.
#![tactic(auto)]

mod faults;
mod usage;

use byte_io::{StdSink, StdSource};
use calspan_run::run_program;
use faults::refuse_words;
use line_counts::CountedSource;
use std::env::Env;
use std::process::ExitCode;
use std::{env, io};
use usage::{answers_lines, told, why, written};

/// Returns the first word of the command line. It is empty if there is none, or if it has more than 16 bytes.
fn first_word<'b>(rt: &HostRuntime, buffer: &'b mut [u8; 16]) -> &'b [u8] {
    match rt.arg(1, buffer) {
        Ok(length) => &buffer[..length],
        Err(_) => &[],
    }
}

/// Returns whether there is one word alone, and it is a command that reads its input line by line.
fn is_of_lines(rt: &HostRuntime, first: &[u8]) -> bool {
    let mut second = [0; 16];
    match rt.arg(2, &mut second) {
        Ok(_) => false,
        Err(_) => answers_lines(first),
    }
}

/// Says on standard error why a run ended with an exit code above 1. `lines` is the number of lines that were answered if
/// the input was too long for a command that answers lines.
fn explain(rt: &HostRuntime, code: u8, first: &[u8], lines: u64) -> io::Result<()> {
    if code == 2 {
        return refuse_words(rt);
    }
    match why(code) {
        None => Ok(()),
        Some(why) if code == 7 && is_of_lines(rt, first) => {
            eprintln!(rt; "calspan: {why}; the first {lines} lines were answered; see the manual")
        }
        Some(why) if code == 3 || code == 7 => {
            let has_answers = first == b"convert".as_slice() || is_of_lines(rt, first);
            eprintln!(rt; "calspan: {why}; {}; see the manual", written(has_answers))
        }
        Some(why) => eprintln!(rt; "calspan: {why}; see the manual"),
    }
}

fn main(rt: HostRuntime) -> ExitCode {
    let mut buffer = [0; 16];
    let first = first_word(&rt, &mut buffer);
    if let Some(text) = told(first) {
        return match eprint!(rt; "{text}") {
            Ok(()) => ExitCode::SUCCESS,
            Err(_) => ExitCode::FAILURE,
        };
    }
    let mut source = CountedSource::new(StdSource::new(rt.stdin()));
    let mut sink = StdSink::new(rt.stdout());
    let code = run_program(rt.alloc(), env::args(&rt), &mut source, &mut sink);
    match explain(&rt, code, first, source.lines()) {
        Ok(()) => ExitCode::from(code),
        Err(_) => ExitCode::from(code), // standard error can't be written
    }
}
