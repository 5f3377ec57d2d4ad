//! A count of line feeds among the first bytes.
ghost use Rattle.std.specs.Prelude.{◌≤◌, ◌+◌};

use crate::counting::line_feeds;

/// A count of the line feeds among the first 16777216 bytes.
#[derive(Drop)]
pub struct LineCount {
    lines: u64,
    left: usize,
    ghost few: { lines + left ≤ 16777216 },
}

impl LineCount {
    ghost use Rattle.std.specs.Prelude.{◌≡◌, ◌-◌, take, length};
    ghost use Rattle.line_counts.specs.LineFeeds.{line_feeds as line_feeds_of};
    ghost use Rattle.line_counts.specs.LineCounts.{bytes_left, lines_seen};

    /// Creates a count that has seen no byte.
    pub fn new() -> LineCount
        ensures lines { lines_seen result ≡ 0 }
        ensures left { bytes_left result ≡ 16777216 }
    {
        LineCount {
            lines: 0,
            left: 16777216,
        }
    }

    /// Returns the number of line feeds so far.
    pub fn lines(&self) -> u64
        ensures { result ≡ lines_seen self.now }
    {
        self.lines
    }

    /// Counts the line feeds of the next bytes, as far as they are among the first 16777216.
    pub fn see(&mut self, bytes: &[u8])
        ensures lines { let seen = take (bytes_left self.old) bytes.now in
            lines_seen self.new ≡ lines_seen self.old + line_feeds_of seen }
        ensures left { bytes_left self.new ≡ bytes_left self.old - length bytes.now }
    {
        let seen = bytes.len().min(self.left);
        let lines = self.lines + line_feeds(&bytes[..seen]) as u64;
        *self = LineCount {
            lines,
            left: self.left - seen,
        };
    }
}
