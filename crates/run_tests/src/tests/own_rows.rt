//! Rows of a caller's own, by the calls of the library: what is refused, and as what it prints, which is what the program
//! writes.

use std::alloc::Global;
use std::process::Abort;
use std::test::Fail;
use table_rows::{RowError, RowFault, RowsError, TableRows};

/// A row that is malformed, and one that is out of range, each by the number of its line; a line that is no row, and a
/// long one; and a table whose last row doesn't meet the year behind it.
const REFUSED: [(&[u8], &str); 5] = [
    (
        b"# hijri\r\nrow hijri 1445 738720 sll\n",
        "table line 2 syntax",
    ),
    (b"row hijri 1445 738730 sllslslslsll", "table line 1 range"),
    (b"row persian 1502\n\nspan iso", "err line 3 syntax"),
    (&[b'x'; 513], "err line 1 long"),
    (b"row hijri 1445 738720 sllslslslsls\n", "table hijri 1 end"),
];

/// Why a text has no tables, as it prints.
fn printed(alloc: Global, text: &[u8]) -> Result<String, Fail> {
    let rows = match TableRows::try_read(alloc, text) {
        Ok(rows) => rows,
        Err(fault) => return Ok(format!(in alloc; "{fault}")?),
    };
    match rows.tables() {
        Ok(_) => Ok(String::new(alloc)),
        Err(refusal) => Ok(format!(in alloc; "{refusal}")?),
    }
}

/// That a text has no tables, for the reason that prints so.
fn assert_printed(rt: &impl Abort, alloc: Global, text: &[u8], want: &str) -> Result<(), Fail> {
    let said = printed(alloc, text)?;
    assert!(rt; said.as_str() == want);
    Ok(())
}

#[test]
fn refusals_print_what_the_program_writes(rt: HostRuntime) -> Result<(), Fail> {
    for &(text, want) in &REFUSED {
        assert_printed(&rt, rt.alloc(), text, want)?;
    }
    Ok(())
}

/// A line is taken or refused by itself.
fn assert_taken(rt: &impl Abort, rows: &mut TableRows, line: &[u8], want: Result<bool, RowError>) {
    assert!(rt; rows.take_line(line) == want);
}

#[test]
fn lines_are_taken_one_by_one(rt: HostRuntime) {
    let mut rows = TableRows::new(rt.alloc());
    assert_taken(&rt, &mut rows, b"row persian 1502\r", Ok(true));
    assert_taken(&rt, &mut rows, b"\r", Ok(false));
    let era = b"row era 2086 11 1 fuzu 8";
    assert_taken(&rt, &mut rows, era, Ok(true));
    assert_taken(&rt, &mut rows, era, Err(RowError::Row(RowFault::Syntax)));
    assert_taken(&rt, &mut rows, b"rows", Err(RowError::NoRow));
    assert_taken(&rt, &mut rows, &[b'r'; 513], Err(RowError::LongLine));
    // What was refused changed nothing.
    assert!(rt; rows.tables().is_ok());
}

/// The limit of a text: one line of comment up to it, and a byte more.
#[test]
fn a_text_past_the_limit_is_refused(rt: HostRuntime) -> Result<(), Fail> {
    let whole = vec![in rt.alloc(); b'#'; 16777216]?;
    assert!(rt; TableRows::try_read(rt.alloc(), &whole).is_ok());
    let text = vec![in rt.alloc(); b'#'; 16777217]?;
    match TableRows::try_read(rt.alloc(), &text) {
        Ok(_) => assert!(rt; false),
        Err(fault) => assert!(rt; fault == RowsError::TooLong),
    }
    Ok(())
}
