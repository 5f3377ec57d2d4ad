//! The program: a run over the words of its command line, with its exit code.
ghost use Rattle.std.specs.Prelude.{◌≡◌, ◌≢◌, ℕ, List, drop, string_bytes, Ok, IfErr, IfOk};
ghost use Rattle.std.specs.IoError.{error_kind};
ghost use Rattle.std.specs.Iterator.{AlwaysYields, IsFinite};
ghost use Rattle.calspan_run.specs.CommandRuns.{EndsProgram};
ghost use Rattle.calspan_run.specs.Run.{outside};

use crate::command_run::run;
use crate::status::{Status, code};
use byte_io::{Sink, Source};
use std::alloc::Global;
use std::io;
use std::io::ErrorKind;

/// Returns the status if the system can't provide the words: one isn't UTF-8, or there is no memory for them.
fn words_failed(error: &io::Error) -> Status
    ensures memory { error_kind error.now ≡ ErrorKind.OutOfMemory → result ≡ Status.NoMemory }
    ensures others { error_kind error.now ≢ ErrorKind.OutOfMemory → result ≡ Status.Words }
{
    match error.kind() {
        ErrorKind::OutOfMemory => Status::NoMemory,
        _ => Status::Words,
    }
}

/// Returns the words after the first, which is the program's name.
fn behind_name(words: &[String]) -> &[String]
    ensures { result.now ≡ drop 1 words.now }
{
    match words.split_first() {
        Some((_, words)) => words,
        None => words,
    }
}

/// Runs the program and returns its exit code, the [`code`] of the run's status. `words` is the program's name, then
/// the words of its command line.
///
/// If the system can't provide the words, nothing is read or written. The code is 5 if there was no memory for them,
/// otherwise 2.
pub fn run_program<W: Iterator<Item = String> + Drop, S: Source, K: Sink>(
    alloc: Global,
    words: io::Result<W>,
    source: &mut S,
    sink: &mut K,
) -> u8
    requires can { IfOk words W.can_next }
    requires finite { IfOk words (λ w. IsFinite (W.remaining w)) }
    ensures lost { IfErr words (λ e. (source.new ≡ source.old) × (sink.new ≡ sink.old)) }
    ensures lost_memory { IfErr words (λ e. error_kind e ≡ ErrorKind.OutOfMemory → result ≡ 5) }
    ensures lost_others { IfErr words (λ e. error_kind e ≢ ErrorKind.OutOfMemory → result ≡ 2) }
    ensures ends { (w : W) (all : List (List ℕ)) → words ≡ Ok w → AlwaysYields W.next_gives string_bytes w all →
        let old = outside (S.left source.old) (K.taken sink.old) (S.faults source.old) (K.faults sink.old) in
        let new = outside (S.left source.new) (K.taken sink.new) (S.faults source.new) (K.faults sink.new) in
        EndsProgram (drop 1 all) result old new }
{
    let words = match words {
        Ok(words) => words.collect::<Vec<String>>(alloc),
        Err(error) => return code(words_failed(&error)),
    };
    match words {
        Ok(words) => code(run(alloc, behind_name(&words), source, sink)),
        Err(_) => code(Status::NoMemory),
    }
}
