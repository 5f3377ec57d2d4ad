//! A reader of lines.
ghost use Rattle.std.specs.Prelude.{◌≡◌, ◌≤◌, ◌<◌, ◌+◌, ◌-◌, ◌==◌, length, position, IfSome};
ghost use Rattle.byte_io.specs.Looks.{Looks};

use crate::Source;
use crate::buffer::LineBuffer;
use memchr::memchr;

/// The most bytes of a source that are read: 16777216, or 16 MiB.
pub const LIMIT: usize = 16777216;

/// The result of [`Reader::next_line`].
#[derive(Clone, Copy, Debug, PartialEq, Eq)]
pub enum Next {
    /// The rest of a line and its LF were found.
    Line,
    /// The chunk has no further LF. Read the next chunk by [`Reader::fill`].
    Spent,
    /// The chunk has no further LF, and the source has more bytes than [`LIMIT`].
    TooLong,
}

/// The result of [`Reader::fill`].
#[derive(Clone, Copy, Debug, PartialEq, Eq)]
pub enum Filled {
    /// At least one byte was read.
    Some,
    /// The source is at its end.
    End,
    /// The source counted a fault.
    Fault,
}

/// A reader of lines: one chunk of a source's bytes, and how far the reader has looked at it.
///
/// At most [`LIMIT`] bytes of a source are looked at. If more come, the chunk ends at that limit and `beyond` is true.
#[derive(Drop)]
pub struct Reader {
    chunk: [u8; 4096],
    at: usize,
    end: usize,
    total: usize,
    beyond: bool,
    lines: u64,
    ghost within: { at ≤ end },
    ghost in_chunk: { end ≤ 4096 },
    ghost in_limit: { total ≤ 16777216 },
    ghost few: { lines + (end - at) ≤ total },
}

/// Returns the place of the first LF. Tests for an empty line first, so that empty lines don't pay for setting up the
/// search.
fn first_line_feed(bytes: &[u8]) -> Option<usize>
    ensures value { result ≡ position (λ b. b == 10) bytes.now }
    ensures within { IfSome result (λ i. i < length bytes.now) }
{
    if bytes.first() == Some(&b'\n') {
        return Some(0);
    }
    memchr(b'\n', bytes)
}

/// Appends the bytes before the first LF to the line, and returns their number with the LF. Without an LF, appends
/// all bytes and returns `None`.
fn look(bytes: &[u8], line: &mut LineBuffer) -> Option<usize>
    ensures looks { Looks result bytes.now line.old line.new }
    ensures some { IfSome result (λ n. (0 < n) × (n ≤ length bytes.now)) }
{
    match first_line_feed(bytes) {
        Some(count) => {
            line.extend(&bytes[..count]);
            Some(count + 1)
        }
        None => {
            line.extend(bytes);
            None
        }
    }
}

impl Reader {
    ghost use Rattle.std.specs.Prelude.{ℕ, List, [], ◌++◌};
    ghost use Rattle.std.specs.Io.KnownBytes.{Consumes, IsAtEnd, Keeps};
    ghost use Rattle.byte_io.specs.Faults.{Rose};
    ghost use Rattle.byte_io.specs.Buffer.{Holds};
    ghost use Rattle.byte_io.specs.Reader.{IsAt, IsSpent, Gives, lines_given, turns_left};

    /// Creates a reader that has read nothing.
    pub fn new() -> Self
        ensures at { IsAt result [] [] [] }
        ensures lines { lines_given result ≡ 0 }
    {
        Reader {
            chunk: [0; 4096],
            at: 0,
            end: 0,
            total: 0,
            beyond: false,
            lines: 0,
        }
    }

    /// Returns the number of lines so far, which is the number of the last line, counted from 1.
    pub fn lines(&self) -> u64
        ensures value { result ≡ lines_given self.now }
        ensures within { result ≤ 16777216 }
    {
        self.lines
    }

    /// Looks for the next LF in the chunk, and appends the bytes before it to `line`.
    ///
    /// After `Line` the line is whole; clear it before the next call. After `Spent` it is the start of a line, which
    /// the call after [`Reader::fill`] continues. After `TooLong` the bytes up to the limit have no further LF.
    pub fn next_line(&mut self, line: &mut LineBuffer) -> Next
        ensures gives { (bytes : List ℕ) (lines : List (List ℕ)) (rest : List ℕ)
            → IsAt self.old bytes lines rest → Holds line.old rest
            → Gives result self.new line.new bytes lines }
        ensures spent { result ≡ Next.Spent → IsSpent self.new }

        // Each line is counted, and there are finitely many lines and chunks.
        ensures counts { result ≡ Next.Line → lines_given self.new ≡ lines_given self.old + 1 }
        ensures else_same { (result ≡ Next.Line → ⊥) → lines_given self.new ≡ lines_given self.old }
        ensures fewer { result ≡ Next.Line → turns_left self.new < turns_left self.old }
        ensures no_more { turns_left self.new ≤ turns_left self.old }
    {
        if let Some(count) = look(&self.chunk[self.at..self.end], line) {
            self.at += count;
            self.lines += 1;
            return Next::Line;
        }
        self.at = self.end;
        if self.beyond {
            Next::TooLong
        } else {
            Next::Spent
        }
    }

    /// Reads the next chunk, in one read of at most 4096 bytes. Call it after `Spent`.
    ///
    /// After `End` or `Fault`, the reader hasn't moved.
    pub fn fill<S: Source>(&mut self, source: &mut S) -> Filled
        requires { IsSpent self.old }
        ensures some { result ≡ Filled.Some → (more : List ℕ) × Consumes (S.left source.old) (S.left source.new) more
            × ((bytes : List ℕ) (lines : List (List ℕ)) (rest : List ℕ)
            → IsAt self.old bytes lines rest → IsAt self.new (bytes ++ more) lines rest) }
        ensures end { result ≡ Filled.End
            → Consumes (S.left source.old) (S.left source.new) [] × IsAtEnd (S.left source.new) }
        ensures fault { result ≡ Filled.Fault
            → Keeps (S.left source.old) (S.left source.new) × Rose (S.faults source.old) (S.faults source.new) }
        ensures stays { (result ≡ Filled.Some → ⊥)
            → (bytes : List ℕ) (lines : List (List ℕ)) (rest : List ℕ)
            → IsAt self.old bytes lines rest → IsAt self.new bytes lines rest }
        ensures later { S.faults source.old ≤ S.faults source.new }
        ensures same_lines { lines_given self.new ≡ lines_given self.old }
        ensures fewer { result ≡ Filled.Some → turns_left self.new < turns_left self.old }
    {
        let Ok(count) = source.read(&mut self.chunk) else {
            return Filled::Fault;
        };
        if count == 0 {
            return Filled::End;
        }
        let within = count.min(LIMIT - self.total);
        self.at = 0;
        self.end = within;
        self.total += within;
        self.beyond = within < count;
        Filled::Some
    }
}
