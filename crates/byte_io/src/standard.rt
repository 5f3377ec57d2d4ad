//! Readers and writers of std, with a count of their errors.
ghost use Rattle.std.specs.Prelude.{◌≡◌, None};

use crate::{Failed, Sink, Source};
use std::io::{Read, Write};

/// A source over a reader of std, such as standard input. It shows no content, and counts a fault at each error of the
/// reader.
#[derive(Drop)]
pub struct StdSource<R> {
    inner: R,
    faults: u64,
}

impl<R: Read> StdSource<R> {
    ghost use Rattle.byte_io.specs.Standard.{std_source_faults, std_source_inner};

    /// Creates a source over `inner` that has counted no fault.
    pub fn new(inner: R) -> Self
        ensures inner { std_source_inner result ≡ inner }
        ensures faults { std_source_faults result ≡ 0 }
    {
        StdSource { inner, faults: 0 }
    }
}

impl<R: Read> Source for StdSource<R> {
    ghost use Rattle.std.specs.Io.{ReadsAtMost};
    ghost use Rattle.std.specs.Io.KnownBytes.{ReadConsumes};
    ghost use Rattle.byte_io.specs.Faults.{HasCause, CountsFault};
    ghost use Rattle.byte_io.specs.Standard.{std_source_faults, std_source_inner};

    ghost left = { λ _. None };

    ghost faults = { λ s. std_source_faults s };

    fn read(&mut self, buf: &mut [u8]) -> Result<usize, Failed>
        ensures bound { ReadsAtMost result buf.new }
        ensures bytes { ReadConsumes None None result buf.new }
        ensures cause { HasCause (std_source_faults self.old) (std_source_faults self.new) result }
        ensures counts { CountsFault (std_source_faults self.old) (std_source_faults self.new) result }

        // The bytes are the reader's.
        ensures inner { ReadConsumes (R.remaining (std_source_inner self.old))
            (R.remaining (std_source_inner self.new)) result buf.new }
    {
        match self.inner.read(buf) {
            Ok(count) => Ok(count),
            Err(_) => {
                self.faults = self.faults.saturating_add(1);
                Err(Failed)
            }
        }
    }
}

/// A sink over a writer of std, such as standard output. It shows no content. It counts a fault at each error of the
/// writer, and if the writer takes nothing of a piece that isn't empty.
#[derive(Drop)]
pub struct StdSink<W> {
    inner: W,
    faults: u64,
}

impl<W: Write> StdSink<W> {
    ghost use Rattle.byte_io.specs.Standard.{std_sink_faults, std_sink_inner};

    /// Creates a sink over `inner` that has counted no fault.
    pub fn new(inner: W) -> Self
        ensures inner { std_sink_inner result ≡ inner }
        ensures faults { std_sink_faults result ≡ 0 }
    {
        StdSink { inner, faults: 0 }
    }
}

impl<W: Write> Sink for StdSink<W> {
    ghost use Rattle.std.specs.Io.{WritesAtMost};
    ghost use Rattle.std.specs.Io.KnownBytes.{WriteAppends};
    ghost use Rattle.byte_io.specs.Bytes.{WritesSome};
    ghost use Rattle.byte_io.specs.Faults.{HasCause, CountsFault};
    ghost use Rattle.byte_io.specs.Standard.{std_sink_faults, std_sink_inner};

    ghost taken = { λ _. None };

    ghost faults = { λ s. std_sink_faults s };

    fn write(&mut self, piece: &[u8]) -> Result<usize, Failed>
        ensures bound { WritesAtMost result piece.now }
        ensures bytes { WriteAppends None None result piece.now }
        ensures some { WritesSome result piece.now }
        ensures cause { HasCause (std_sink_faults self.old) (std_sink_faults self.new) result }
        ensures counts { CountsFault (std_sink_faults self.old) (std_sink_faults self.new) result }

        // The bytes go to the writer.
        ensures inner { WriteAppends (W.contents (std_sink_inner self.old))
            (W.contents (std_sink_inner self.new)) result piece.now }
    {
        match self.inner.write(piece) {
            Ok(count) if count > 0 || piece.is_empty() => Ok(count),
            _ => {
                self.faults = self.faults.saturating_add(1);
                Err(Failed)
            }
        }
    }
}
