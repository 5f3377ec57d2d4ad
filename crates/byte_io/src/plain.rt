//! A source and a sink that never fail.
ghost use Rattle.std.specs.Prelude.{◌≡◌, Some, None};

use crate::{Failed, Sink, Source};

/// A source over bytes in memory that never fails and fills each buffer as far as it can.
#[derive(Drop)]
pub struct PlainSource<'a> {
    rest: &'a [u8],
}

impl<'a> PlainSource<'a> {
    ghost use Rattle.byte_io.specs.Plain.{plain_rest};

    /// Creates a source over `bytes`.
    pub fn new(bytes: &'a [u8]) -> Self
        ensures { plain_rest result ≡ bytes.now }
    {
        PlainSource { rest: bytes }
    }
}

impl<'a> Source for PlainSource<'a> {
    ghost use Rattle.std.specs.Prelude.{min, length, IsOkAnd};
    ghost use Rattle.std.specs.Io.{ReadsAtMost};
    ghost use Rattle.std.specs.Io.KnownBytes.{ReadConsumes};
    ghost use Rattle.byte_io.specs.Faults.{HasCause};
    ghost use Rattle.byte_io.specs.Plain.{plain_rest};

    ghost left = { λ s. Some (plain_rest s) };

    ghost faults = { λ _. 0 };

    fn read(&mut self, buf: &mut [u8]) -> Result<usize, Failed>
        ensures bound { ReadsAtMost result buf.new }
        ensures bytes { ReadConsumes (Some (plain_rest self.old)) (Some (plain_rest self.new)) result buf.new }
        ensures cause { HasCause 0 0 result }

        // A call never fails, and reads as many bytes as there is room for.
        ensures count { IsOkAnd result (λ n. n ≡ min (length (plain_rest self.old)) (length buf.new)) }
    {
        let count = self.rest.len().min(buf.len());
        let (prefix, rest) = self.rest.split_at(count);
        buf[..count].copy_from_slice(prefix);
        self.rest = rest;
        Ok(count)
    }
}

/// A sink that counts bytes and keeps none. It takes each piece whole and never fails.
#[derive(Drop)]
pub struct PlainSink {
    count: u64,
}

impl PlainSink {
    ghost use Rattle.byte_io.specs.Plain.{plain_count};

    /// Creates a sink that has taken nothing.
    pub fn new() -> Self
        ensures { plain_count result ≡ 0 }
    {
        PlainSink { count: 0 }
    }

    /// Returns the number of bytes taken, at most the greatest `u64`.
    pub fn count(&self) -> u64
        ensures { result ≡ plain_count self.now }
    {
        self.count
    }
}

impl Sink for PlainSink {
    ghost use Rattle.std.specs.Prelude.{◌+◌, ◌-◌, ◌^◌, min, length, Ok};
    ghost use Rattle.std.specs.Io.{WritesAtMost};
    ghost use Rattle.std.specs.Io.KnownBytes.{WriteAppends};
    ghost use Rattle.byte_io.specs.Bytes.{WritesSome};
    ghost use Rattle.byte_io.specs.Faults.{HasCause};
    ghost use Rattle.byte_io.specs.Plain.{plain_count};

    ghost taken = { λ _. None };

    ghost faults = { λ _. 0 };

    fn write(&mut self, piece: &[u8]) -> Result<usize, Failed>
        ensures bound { WritesAtMost result piece.now }
        ensures bytes { WriteAppends None None result piece.now }
        ensures some { WritesSome result piece.now }
        ensures cause { HasCause 0 0 result }

        // A call never fails, takes the whole piece, and counts its bytes.
        ensures whole { result ≡ Ok (length piece.now) }
        ensures count { plain_count self.new ≡ min (plain_count self.old + length piece.now) (2 ^ 64 - 1) }
    {
        self.count = self.count.saturating_add(piece.len() as u64);
        Ok(piece.len())
    }
}
