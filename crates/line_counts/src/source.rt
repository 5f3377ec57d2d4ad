//! A source that counts line feeds.

use crate::count::LineCount;
use byte_io::{Failed, Source};

/// A source over another one. It counts the line feeds among the first 16777216 bytes that are read through it.
#[derive(Drop)]
pub struct CountedSource<S> {
    inner: S,
    count: LineCount,
}

impl<S: Source> CountedSource<S> {
    ghost use Rattle.std.specs.Prelude.{◌≡◌};
    ghost use Rattle.line_counts.specs.LineCounts.{bytes_left, lines_seen};
    ghost use Rattle.line_counts.specs.Counted.{counted_count, counted_inner};

    /// Creates a source that has read nothing of `inner`.
    pub fn new(inner: S) -> Self
        ensures inner { counted_inner result ≡ inner }
        ensures lines { lines_seen (counted_count result) ≡ 0 }
        ensures left { bytes_left (counted_count result) ≡ 16777216 }
    {
        CountedSource {
            inner,
            count: LineCount::new(),
        }
    }

    /// Returns the number of line feeds among the first 16777216 bytes, of those that were read.
    pub fn lines(&self) -> u64
        ensures { result ≡ lines_seen (counted_count self.now) }
    {
        self.count.lines()
    }
}

impl<S: Source> Source for CountedSource<S> {
    ghost use Rattle.std.specs.Prelude.{◌≡◌, ◌+◌, ◌-◌, IfErr, IfOk, take};
    ghost use Rattle.std.specs.Io.{ReadsAtMost};
    ghost use Rattle.std.specs.Io.KnownBytes.{ReadConsumes};
    ghost use Rattle.byte_io.specs.Faults.{HasCause};
    ghost use Rattle.line_counts.specs.LineFeeds.{line_feeds};
    ghost use Rattle.line_counts.specs.LineCounts.{bytes_left, lines_seen};
    ghost use Rattle.line_counts.specs.Counted.{counted_count, counted_inner};

    ghost left = { λ s. S.left (counted_inner s) };

    ghost faults = { λ s. S.faults (counted_inner s) };

    fn read(&mut self, buf: &mut [u8]) -> Result<usize, Failed>
        ensures bound { ReadsAtMost result buf.new }
        ensures bytes { ReadConsumes (S.left (counted_inner self.old)) (S.left (counted_inner self.new)) result
            buf.new }
        ensures cause { HasCause (S.faults (counted_inner self.old)) (S.faults (counted_inner self.new)) result }

        // The line feeds among the first bytes are counted.
        ensures lines { IfOk result (λ n. lines_seen (counted_count self.new)
            ≡ lines_seen (counted_count self.old)
            + line_feeds (take (bytes_left (counted_count self.old)) (take n buf.new))) }
        ensures left { IfOk result (λ n. bytes_left (counted_count self.new)
            ≡ bytes_left (counted_count self.old) - n) }
        ensures else_same { IfErr result (λ _. counted_count self.new ≡ counted_count self.old) }
    {
        match self.inner.read(buf) {
            Ok(read) => {
                self.count.see(&buf[..read]);
                Ok(read)
            }
            Err(Failed) => Err(Failed),
        }
    }
}
