//! Sources and sinks of bytes, and a reader of lines.
//!
//! Start with [`Source`] and [`Sink`]. A source is read and a sink is written one piece at a time. Each counts its
//! own faults. A call fails only if the count rose, or is already the greatest `u64`. A source or a sink in memory
//! shows its bytes to contracts, so that a contract can state exactly what a program reads and writes. Standard input
//! and output have the same contracts, but show no content.
//!
//! A [`Reader`] reads the lines of any source in chunks, without allocating. It holds one chunk of bytes and looks
//! for the next LF in it; a [`LineBuffer`] holds the first bytes of the current line. [`Reader::next_line`] looks at
//! the chunk only, and [`Reader::fill`] reads the next chunk, so that a caller can do other work between the two.
//! [`read_all`] reads a whole source into memory.
#![tactic(auto)]

mod buffer;
mod memory;
mod plain;
mod reader;
mod standard;
mod whole;

ghost use Rattle.std.specs.Prelude.{ℕ, List, Option};
ghost use Rattle.std.specs.Io.{ReadsAtMost, WritesAtMost};
ghost use Rattle.std.specs.Io.KnownBytes.{ReadConsumes, WriteAppends};
ghost use Rattle.byte_io.specs.Faults.{HasCause};
ghost use Rattle.byte_io.specs.Bytes.{WritesSome};

pub use buffer::LineBuffer;
pub use memory::{MemorySink, MemorySource};
pub use plain::{PlainSink, PlainSource};
pub use reader::{Filled, LIMIT, Next, Reader};
pub use standard::{StdSink, StdSource};
pub use whole::{ReadAllError, read_all};

/// The error of a source or a sink that counted a fault in this call.
#[derive(Clone, Copy, Debug, PartialEq, Eq)]
pub struct Failed;

/// A source of bytes.
pub trait Source {
    /// The bytes that are still to come, or `None` if the source doesn't show them.
    ghost left: { Self → Option (List ℕ) };

    /// The number of faults so far. It is a `u64`, starts at 0 and never falls.
    ghost faults: { Self → ℕ };

    /// Reads bytes into a prefix of `buf` and returns their number.
    ///
    /// `Ok(0)` for a buffer that isn't empty means the end of the bytes: if the source shows its bytes, none is left.
    ///
    /// # Errors
    ///
    /// - [`Failed`] if the count of faults rose, or is already the greatest `u64`. Nothing is read, and a later call
    ///   may succeed.
    fn read(&mut self, buf: &mut [u8]) -> Result<usize, Failed>
        ensures bound { ReadsAtMost result buf.new }
        ensures bytes { ReadConsumes (left self.old) (left self.new) result buf.new }
        ensures cause { HasCause (faults self.old) (faults self.new) result };
}

/// A sink for bytes.
pub trait Sink {
    /// The bytes that were taken so far, or `None` if the sink doesn't show them.
    ghost taken: { Self → Option (List ℕ) };

    /// The number of faults so far. It is a `u64`, starts at 0 and never falls.
    ghost faults: { Self → ℕ };

    /// Takes the bytes of a prefix of `piece` and returns their number, at least 1 unless `piece` is empty.
    ///
    /// # Errors
    ///
    /// - [`Failed`] if the count of faults rose, or is already the greatest `u64`. Nothing is taken, and a later call
    ///   may succeed.
    fn write(&mut self, piece: &[u8]) -> Result<usize, Failed>
        ensures bound { WritesAtMost result piece.now }
        ensures bytes { WriteAppends (taken self.old) (taken self.new) result piece.now }
        ensures some { WritesSome result piece.now }
        ensures cause { HasCause (faults self.old) (faults self.new) result };
}
