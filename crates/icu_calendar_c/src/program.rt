//! The program as a call.

ghost use Rattle.std.specs.Prelude.{◌≡◌, ◌≢◌, ◌≤◌, None};
ghost use Rattle.std.specs.Str.{IsUtf8};
ghost use Rattle.command_line.specs.Command.{command_of};
ghost use Rattle.command_line.specs.SpacedWords.{words_in};
ghost use Rattle.icu_calendar_c.specs.Program.{IsAnswered, IsHandedOver};

use crate::kept::Kept;
use byte_io::PlainSource;
use calspan_run::{Status, code, run_text};
use date_calls::{NO_ROOM, put};
use std::alloc::Global;
use std::str;

/// Copies the output of a run to the start of `output`, and returns the code.
fn hand_over(status: Status, answers: &[u8], output: &mut [u8], written: &mut usize) -> u8
    ensures { IsHandedOver status answers.now output.old output.new result written.new }
{
    if put(answers, output, written) {
        code(status)
    } else {
        NO_ROOM
    }
}

/// Runs the command that the words of a text name, over an input in memory.
fn answer(alloc: Global, words: &str, input: &[u8], output: &mut [u8], written: &mut usize) -> u8
    requires { written.old ≡ 0 }
    ensures { IsAnswered (command_of (words_in words.now)) input.now result output.old output.new written.new }
{
    let mut source = PlainSource::new(input);
    let mut kept = Kept::new(alloc);
    let status = run_text(alloc, words, &mut source, &mut kept);
    if kept.has_failed() {
        return code(Status::WriteFault);
    }
    hand_over(status, kept.bytes(), output, written)
}

/// Runs the program. `words` is its command line as one text in UTF-8, with a single space between two words, and
/// `input` is its standard input. The output is written to the start of `output`, and its number of bytes to
/// `written`.
///
/// # Errors
///
/// The code is the exit status of the program, or 8:
///
/// - 0 if the whole output is written, and no line of it is `err`.
/// - 1 if the whole output is written, and at least one of its lines is `err`.
/// - 2 if the words name no command. Nothing is written.
/// - 4 if there is no memory for the output. Nothing is written.
/// - 5 if there is no memory for a row of a year or for a book. Nothing is written. `gen`, and `span` without rows,
///   never return it.
/// - 6 if a row line or a table is invalid. The answers before it and the line about it are written.
/// - 7 if the input is longer than 16777216 bytes. With `span`, the answers to all lines whose LF is among the first
///   16777216 bytes are written; otherwise nothing.
/// - 8 if `output` is too short. It is unchanged, and `written` is the number of bytes needed.
#[unsafe(no_mangle)]
pub extern "C" fn calspan(
    alloc: Global,
    words: &[u8],
    input: &[u8],
    output: &mut [u8],
    written: &mut usize,
) -> u8
    ensures answered { IsUtf8 words.now
        → IsAnswered (command_of (words_in words.now)) input.now result output.old output.new written.new }
    ensures no_text { (IsUtf8 words.now → ⊥) → IsAnswered None input.now result output.old output.new written.new }

    // The codes are those of the header.
    ensures closed { (result ≤ 8) × (result ≢ 3) }
{
    *written = 0;
    match str::from_utf8(words) {
        Ok(text) => answer(alloc, text, input, output, written),
        Err(_) => code(Status::Words),
    }
}
