//! A source and a sink in memory for tests. The caller chooses how many bytes a call moves and which calls fail.
ghost use Rattle.std.specs.Prelude.{◌≡◌, ◌<◌, ◌≤◌, [], Some, length};

use crate::{Failed, Sink, Source};

/// A source over bytes in memory that hands out at most `cut` bytes a call.
///
/// Calls of `read` are numbered from 1, and the calls whose numbers are in `failing` fail. The number stays at the
/// greatest `u64` once it is reached.
#[derive(Drop)]
pub struct MemorySource<'a> {
    rest: &'a [u8],
    cut: usize,
    failing: &'a [u64],
    calls: u64,
    faults: u64,
    ghost some: { 0 < cut },
}

impl<'a> MemorySource<'a> {
    ghost use Rattle.byte_io.specs.Memory.{source_rest, source_cut, source_failing, source_calls, source_faults};

    /// Creates a source over `bytes`. It hands out at most `cut` bytes a call, and fails at the calls whose numbers
    /// are in `failing`.
    pub fn new(bytes: &'a [u8], cut: usize, failing: &'a [u64]) -> Self
        requires { 0 < cut }
        ensures rest { source_rest result ≡ bytes.now }
        ensures cut { source_cut result ≡ cut }
        ensures failing { source_failing result ≡ failing.now }
        ensures calls { source_calls result ≡ 0 }
        ensures faults { source_faults result ≡ 0 }
    {
        MemorySource {
            rest: bytes,
            cut,
            failing,
            calls: 0,
            faults: 0,
        }
    }
}

impl<'a> Source for MemorySource<'a> {
    ghost use Rattle.std.specs.Prelude.{◌↔◌, min, IsErr, IfOk};
    ghost use Rattle.std.specs.Io.{ReadsAtMost};
    ghost use Rattle.std.specs.Io.KnownBytes.{ReadConsumes};
    ghost use Rattle.byte_io.specs.Faults.{HasCause, CountsFault};
    ghost use Rattle.byte_io.specs.Memory.{source_rest, source_cut, source_faults, SourceFails, SourceGoesOn};

    ghost left = { λ s. Some (source_rest s) };

    ghost faults = { λ s. source_faults s };

    fn read(&mut self, buf: &mut [u8]) -> Result<usize, Failed>
        ensures bound { ReadsAtMost result buf.new }
        ensures bytes { ReadConsumes (Some (source_rest self.old)) (Some (source_rest self.new)) result buf.new }
        ensures cause { HasCause (source_faults self.old) (source_faults self.new) result }

        // A call fails exactly if its number is in the list, and otherwise reads as many bytes as it may.
        ensures fails { IsErr result ↔ SourceFails self.old }
        ensures count { IfOk result (λ n. n
            ≡ min (min (length (source_rest self.old)) (length buf.new)) (source_cut self.old)) }
        ensures counts { CountsFault (source_faults self.old) (source_faults self.new) result }
        ensures goes_on { SourceGoesOn self.old self.new }
    {
        self.calls = self.calls.saturating_add(1);
        if self.failing.contains(&self.calls) {
            self.faults = self.faults.saturating_add(1);
            return Err(Failed);
        }
        let count = self.rest.len().min(buf.len()).min(self.cut);
        let (prefix, rest) = self.rest.split_at(count);
        buf[..count].copy_from_slice(prefix);
        self.rest = rest;
        Ok(count)
    }
}

/// A sink into room in memory that takes at most `cut` bytes a call.
///
/// Calls of `write` are numbered from 1, and the calls whose numbers are in `failing` fail. A write also fails if the
/// room is full and the piece isn't empty. The number stays at the greatest `u64` once it is reached.
#[derive(Drop)]
pub struct MemorySink<'a> {
    room: &'a mut [u8],
    len: usize,
    cut: usize,
    failing: &'a [u64],
    calls: u64,
    faults: u64,
    ghost some: { 0 < cut },
    ghost within: { len ≤ length room.now },
}

impl<'a> MemorySink<'a> {
    ghost use Rattle.byte_io.specs.Memory.{sink_taken, sink_room, sink_cut, sink_failing, sink_calls, sink_faults, RefusesCall};
    ghost use Rattle.std.specs.Prelude.{◌↔◌, IsTrue};

    /// Creates a sink into `room`. It takes at most `cut` bytes a call, and fails at the calls whose numbers are in
    /// `failing`.
    pub fn new(room: &'a mut [u8], cut: usize, failing: &'a [u64]) -> Self
        requires { 0 < cut }
        ensures taken { sink_taken result ≡ [] }
        ensures room { sink_room result ≡ length room.entry.now }
        ensures cut { sink_cut result ≡ cut }
        ensures failing { sink_failing result ≡ failing.now }
        ensures calls { sink_calls result ≡ 0 }
        ensures faults { sink_faults result ≡ 0 }
    {
        MemorySink {
            room,
            len: 0,
            cut,
            failing,
            calls: 0,
            faults: 0,
        }
    }

    /// Returns the bytes that were taken so far.
    pub fn taken(&self) -> &[u8]
        ensures { result.now ≡ sink_taken self.now }
    {
        &self.room[..self.len]
    }

    /// Returns whether the call that was just counted has to fail.
    fn refuses(&self, piece: &[u8]) -> bool
        ensures { IsTrue result ↔ RefusesCall self.now (sink_calls self.now) piece.now }
    {
        if self.failing.contains(&self.calls) {
            return true;
        }
        !piece.is_empty() && self.len == self.room.len()
    }
}

impl<'a> Sink for MemorySink<'a> {
    ghost use Rattle.std.specs.Prelude.{◌↔◌, ◌-◌, min, IsErr, IfOk};
    ghost use Rattle.std.specs.Io.{WritesAtMost};
    ghost use Rattle.std.specs.Io.KnownBytes.{WriteAppends};
    ghost use Rattle.byte_io.specs.Bytes.{WritesSome};
    ghost use Rattle.byte_io.specs.Faults.{HasCause, CountsFault};
    ghost use Rattle.byte_io.specs.Memory.{sink_taken, sink_faults, sink_cut, sink_left, SinkFails, SinkGoesOn};

    ghost taken = { λ s. Some (sink_taken s) };

    ghost faults = { λ s. sink_faults s };

    fn write(&mut self, piece: &[u8]) -> Result<usize, Failed>
        ensures bound { WritesAtMost result piece.now }
        ensures bytes { WriteAppends (Some (sink_taken self.old)) (Some (sink_taken self.new)) result piece.now }
        ensures some { WritesSome result piece.now }
        ensures cause { HasCause (sink_faults self.old) (sink_faults self.new) result }

        // A call fails exactly if its number is in the list, or the room is full and the piece isn't empty. Otherwise
        // it takes as many bytes as it may.
        ensures fails { IsErr result ↔ SinkFails self.old piece.now }
        ensures count { IfOk result (λ n. n ≡ min (min (length piece.now) (sink_cut self.old)) (sink_left self.old)) }
        ensures counts { CountsFault (sink_faults self.old) (sink_faults self.new) result }
        ensures goes_on { SinkGoesOn self.old self.new }
    {
        self.calls = self.calls.saturating_add(1);
        if self.refuses(piece) {
            self.faults = self.faults.saturating_add(1);
            return Err(Failed);
        }
        let count = piece.len().min(self.cut).min(self.room.len() - self.len);
        let end = self.len + count;
        self.room[self.len..end].copy_from_slice(&piece[..count]);
        self.len = end;
        Ok(count)
    }
}
