//! Lines of sources in memory, read in pieces of any size.

use byte_io::{Filled, LineBuffer, MemorySource, Next, Reader, Source};
use std::process::Abort;

/// Reads the source to its end, and says how many lines it has, how many bytes the longest prefix
/// has, and how many bytes follow the last LF.
fn lines_of<S: Source>(source: &mut S) -> (u64, usize, usize) {
    let mut reader = Reader::new();
    let mut line = LineBuffer::new();
    let mut longest = 0;
    for _ in 0..10000u64 {
        match reader.next_line(&mut line) {
            Next::Line => {
                longest = line.prefix.len().max(longest);
                line.clear();
                continue;
            }
            Next::TooLong => break,
            Next::Spent => {}
        }
        if reader.fill(source) != Filled::Some {
            break;
        }
    }
    (reader.lines(), longest, line.prefix.len())
}

/// That the source has these lines, this longest prefix and these bytes behind the last LF.
fn assert_lines(rt: &impl Abort, mut source: MemorySource<'_>, expected: (u64, usize, usize)) {
    assert_eq!(rt; lines_of(&mut source), expected);
}

#[test]
fn lines_in_any_pieces(rt: HostRuntime) {
    for &cut in &[1, 2, 5, 4096] {
        let open = MemorySource::new(b"one\n\nthree\r\nlast", cut, &[]);
        assert_lines(&rt, open, (3, 6, 4));
        assert_lines(&rt, MemorySource::new(b"\n\n\n", cut, &[]), (3, 0, 0));
    }
}

#[test]
fn long_lines_keep_their_prefix(rt: HostRuntime) {
    let mut bytes = [b'x'; 1200];
    bytes[512] = b'\n';
    bytes[1026] = b'\n';
    assert_lines(&rt, MemorySource::new(&bytes, 100, &[]), (2, 512, 173));
}

#[test]
fn fault_ends_the_reading(rt: HostRuntime) {
    assert_lines(&rt, MemorySource::new(b"one\ntwo\n", 4, &[2]), (1, 3, 0));
}
