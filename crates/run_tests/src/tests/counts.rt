//! How many line feeds are read through a source.

use byte_io::{PlainSource, Source};
use line_counts::CountedSource;
use std::process::Abort;

/// That so many line feeds are counted after reads into 700 bytes.
fn assert_lines(rt: &impl Abort, bytes: &[u8], reads: usize, expected: u64) {
    let mut source = CountedSource::new(PlainSource::new(bytes));
    let mut buf = [0u8; 700];
    for _ in 0..reads {
        assert!(rt; source.read(&mut buf).is_ok());
    }
    assert_eq!(rt; source.lines(), expected);
}

#[test]
fn lines_of_what_was_read(rt: HostRuntime) {
    assert_lines(&rt, b"", 1, 0);
    assert_lines(&rt, b"a\nb\r\n\nc", 0, 0);
    assert_lines(&rt, b"a\nb\r\n\nc", 2, 3);
    assert_lines(&rt, &[b'\n'; 1500], 1, 700);
    assert_lines(&rt, &[b'\n'; 1500], 3, 1500);
}
