//! The program `calspan` again: its stored run has rows that make no table, and ends with another status.
#![tactic(auto)]

use byte_io::{StdSink, StdSource};
use calspan_run::run_program;
use std::env;
use std::process::ExitCode;

fn main(rt: HostRuntime) -> ExitCode {
    let mut source = StdSource::new(rt.stdin());
    let mut sink = StdSink::new(rt.stdout());
    ExitCode::from(run_program(rt.alloc(), env::args(&rt), &mut source, &mut sink))
}
