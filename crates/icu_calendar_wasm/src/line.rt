//! The answer to a single request line.

ghost use Rattle.std.specs.Prelude.{◌≡◌, MatchOption};
ghost use Rattle.cal_tables.specs.Kinds.{table_contents};
ghost use Rattle.date_calls.specs.Codes.{contents_of_code};
ghost use Rattle.icu_calendar_wasm.specs.Line.{IsLineAnswered};

use byte_io::LineBuffer;
use cal_tables::Tables;
use calspan_run::{Progress, answer, code};
use date_calls::{NO_ROOM, UNKNOWN_YEARS, put, tables_of};
use reply_texts::Pending;

/// Writes the answer to a line over tables to the start of `output`.
fn answer_over(
    tables: &Tables<'_>,
    line: &[u8],
    number: u64,
    output: &mut [u8],
    written: &mut usize,
) -> u8
    ensures { IsLineAnswered (table_contents tables.now) line.now number result output.old output.new written.new }
{
    let mut buffer = LineBuffer::new();
    buffer.extend(line);
    let mut pending = Pending::new();
    let answered = answer(&mut pending, Progress::new(), number, &buffer, tables);
    if put(&pending, output, written) {
        code(answered.status())
    } else {
        NO_ROOM
    }
}

/// Writes the answer to a request line to the start of `output`, and its number of bytes to `written`.
///
/// The answer is what `calspan span` writes for the line after other request lines, if it is line `number` of the
/// input, counted from 1. The line has no LF. No answer is longer than 512 bytes. `years` is 0 for computed and 1 for
/// published years.
///
/// # Errors
///
/// The code is:
///
/// - 0 if the answer is written. An ignored line has an empty answer.
/// - 1 if the answer is written and begins with `err`.
/// - 2 if `years` is neither 0 nor 1. `output` is unchanged, and `written` is 0.
/// - 6 if the line is a row line. The line that rejects it is written.
/// - 8 if `output` is too short. It is unchanged, and `written` is the number of bytes needed.
#[unsafe(no_mangle)]
pub extern "C" fn calspan_answer(
    years: u8,
    line: &[u8],
    number: u64,
    output: &mut [u8],
    written: &mut usize,
) -> u8
    ensures { MatchOption (contents_of_code years)
        ((result ≡ 2) × (output.new ≡ output.old) × (written.new ≡ 0))
        (λ tables. IsLineAnswered tables line.now number result output.old output.new written.new) }
{
    *written = 0;
    match tables_of(years) {
        Some(tables) => answer_over(&tables, line, number, output, written),
        None => UNKNOWN_YEARS,
    }
}
