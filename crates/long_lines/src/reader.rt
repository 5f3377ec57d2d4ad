//! A reader of long lines.
ghost use Rattle.std.specs.Prelude.{◌≡◌, ◌≤◌, ◌<◌, ◌==◌, length, position, IfSome};
ghost use Rattle.long_lines.specs.Looks.{Looks};

use crate::buffer::LongLine;
use byte_io::{Filled, Source};
use memchr::memchr;

/// A reader of lines: one chunk of a source's bytes, and how far the reader has looked at it.
#[derive(Drop)]
pub struct LineReader {
    chunk: [u8; 8192],
    at: usize,
    end: usize,
    ghost within: { at ≤ end },
    ghost in_chunk: { end ≤ 8192 },
}

/// Returns the place of the first LF.
fn first_line_feed(bytes: &[u8]) -> Option<usize>
    ensures value { result ≡ position (λ b. b == 10) bytes.now }
    ensures within { IfSome result (λ i. i < length bytes.now) }
{
    memchr(b'\n', bytes)
}

/// Appends the bytes before the first LF to the line, and returns their number with the LF. Without an LF, appends
/// all bytes and returns `None`.
fn look(bytes: &[u8], line: &mut LongLine) -> Option<usize>
    ensures looks { Looks result bytes.now line.old line.new }
    ensures some { IfSome result (λ n. (0 < n) × (n ≤ length bytes.now)) }
{
    match first_line_feed(bytes) {
        Some(count) => {
            line.extend(&bytes[..count]);
            Some(count + 1)
        }
        None => {
            line.extend(bytes);
            None
        }
    }
}

impl LineReader {
    ghost use Rattle.std.specs.Prelude.{ℕ, List, [], ◌++◌, ◌+◌, true, false};
    ghost use Rattle.std.specs.Io.KnownBytes.{Consumes, IsAtEnd, Keeps};
    ghost use Rattle.byte_io.specs.Faults.{Rose};
    ghost use Rattle.long_lines.specs.Buffer.{Holds};
    ghost use Rattle.long_lines.specs.Reader.{IsAt, IsSpent, Gives, bytes_left};

    /// Creates a reader that has read nothing.
    pub fn new() -> Self
        ensures { IsAt result [] [] [] }
    {
        LineReader {
            chunk: [0; 8192],
            at: 0,
            end: 0,
        }
    }

    /// Looks for the next LF in the chunk, and appends the bytes before it to `line`. Returns whether there was one.
    ///
    /// If so, the line is whole; clear it before the next call. Otherwise it is the start of a line, which the call after
    /// [`LineReader::fill`] continues.
    pub fn next_line(&mut self, line: &mut LongLine) -> bool
        ensures gives { (bytes : List ℕ) (lines : List (List ℕ)) (rest : List ℕ)
            → IsAt self.old bytes lines rest → Holds line.old rest → Gives result self.new line.new bytes lines }
        ensures spent { result ≡ false → IsSpent self.new }
        ensures fewer { result ≡ true → bytes_left self.new < bytes_left self.old }
    {
        if let Some(count) = look(&self.chunk[self.at..self.end], line) {
            self.at += count;
            return true;
        }
        self.at = self.end;
        false
    }

    /// Reads the next chunk, in one read of at most 8192 bytes. Call it after `next_line` returned false.
    ///
    /// After `End` or `Fault`, the reader hasn't moved.
    pub fn fill<S: Source>(&mut self, source: &mut S) -> Filled
        requires { IsSpent self.old }
        ensures some { result ≡ Filled.Some → (more : List ℕ) × Consumes (S.left source.old) (S.left source.new) more
            × (0 < length more) × ((bytes : List ℕ) (lines : List (List ℕ)) (rest : List ℕ)
            → IsAt self.old bytes lines rest → IsAt self.new (bytes ++ more) lines rest) }
        ensures end { result ≡ Filled.End
            → Consumes (S.left source.old) (S.left source.new) [] × IsAtEnd (S.left source.new) }
        ensures fault { result ≡ Filled.Fault
            → Keeps (S.left source.old) (S.left source.new) × Rose (S.faults source.old) (S.faults source.new) }
        ensures later { S.faults source.old ≤ S.faults source.new }
    {
        let Ok(count) = source.read(&mut self.chunk) else {
            return Filled::Fault;
        };
        if count == 0 {
            return Filled::End;
        }
        self.at = 0;
        self.end = count;
        Filled::Some
    }
}
