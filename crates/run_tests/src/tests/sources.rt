//! Sources and sinks: in memory, cut and failing as asked, plain ones, and those over std's readers and writers.

ghost use Rattle.std.specs.Prelude.{◌≤◌, IfOk};

use byte_io::{
    Failed, MemorySink, MemorySource, PlainSink, PlainSource, Sink, Source, StdSink, StdSource,
};
use std::io;
use std::io::{Read, Write};
use std::process::Abort;

/// That each of five calls took or gave so many bytes.
fn assert_counts(rt: &impl Abort, counts: [usize; 5], expected: [usize; 5]) {
    assert_eq!(rt; counts, expected);
}

/// The counts of the first five reads into four bytes, where a failure counts as 9.
fn five_reads<S: Source>(source: &mut S) -> [usize; 5] {
    let mut counts = [0; 5];
    let mut buf = [0u8; 4];
    for i in 0..5 {
        counts[i] = source.read(&mut buf).unwrap_or(9);
    }
    counts
}

/// The counts of five writes of four bytes, where a failure counts as 9.
fn five_writes<K: Sink>(sink: &mut K) -> [usize; 5] {
    let mut counts = [0; 5];
    for i in 0..5 {
        counts[i] = sink.write(b"abcd").unwrap_or(9);
    }
    counts
}

/// A reader and a writer that fail at every second call, and else pass on one byte.
#[derive(Drop)]
struct Uneven {
    calls: u64,
}

impl Uneven {
    fn turn(&mut self, room: usize) -> io::Result<usize>
        ensures { IfOk result (λ n. n ≤ room) }
    {
        self.calls = self.calls.wrapping_add(1);
        if self.calls % 2 == 0 {
            return Err(io::Error::from(io::ErrorKind::Other));
        }
        Ok(room.min(1))
    }
}

impl Read for Uneven {
    fn read(&mut self, buf: &mut [u8]) -> io::Result<usize> {
        self.turn(buf.len())
    }
}

impl Write for Uneven {
    fn write(&mut self, buf: &[u8]) -> io::Result<usize> {
        self.turn(buf.len())
    }

    fn flush(&mut self) -> io::Result<()> {
        Ok(())
    }
}

#[test]
fn memory_sources_cut_and_fail_as_asked(rt: HostRuntime) {
    let mut whole = MemorySource::new(b"abcdefg", 100, &[]);
    assert_counts(&rt, five_reads(&mut whole), [4, 3, 0, 0, 0]);
    let mut cut = MemorySource::new(b"abcdefg", 3, &[2, 4]);
    assert_counts(&rt, five_reads(&mut cut), [3, 9, 3, 9, 1]);
}

#[test]
fn memory_sinks_cut_fill_and_fail_as_asked(rt: HostRuntime) {
    let mut room = [0u8; 9];
    let mut whole = MemorySink::new(&mut room, 100, &[]);
    assert_counts(&rt, five_writes(&mut whole), [4, 4, 1, 9, 9]);
    assert!(rt; whole.taken() == b"abcdabcda".as_slice());
    let mut room = [0u8; 9];
    let mut cut = MemorySink::new(&mut room, 3, &[1, 3]);
    assert_counts(&rt, five_writes(&mut cut), [9, 3, 9, 3, 3]);
    assert!(rt; cut.taken() == b"abcabcabc".as_slice());
}

#[test]
fn plain_ones_never_fail(rt: HostRuntime) {
    let mut source = PlainSource::new(b"abcdefg");
    assert_counts(&rt, five_reads(&mut source), [4, 3, 0, 0, 0]);
    let mut sink = PlainSink::new();
    assert_counts(&rt, five_writes(&mut sink), [4, 4, 4, 4, 4]);
    assert!(rt; sink.count() == 20);
}

#[test]
fn standard_ones_pass_on_counts_and_errors(rt: HostRuntime) {
    let mut source = StdSource::new(b"abcdefg".as_slice());
    assert_counts(&rt, five_reads(&mut source), [4, 3, 0, 0, 0]);
    let mut uneven = StdSource::new(Uneven { calls: 0 });
    assert_counts(&rt, five_reads(&mut uneven), [1, 9, 1, 9, 1]);
    let mut uneven = StdSink::new(Uneven { calls: 0 });
    assert_counts(&rt, five_writes(&mut uneven), [1, 9, 1, 9, 1]);
    assert!(rt; StdSink::new(Uneven { calls: 0 }).write(b"") == Ok(0));
    assert!(rt; StdSource::new(Uneven { calls: 1 }).read(&mut []) == Err(Failed));
}
