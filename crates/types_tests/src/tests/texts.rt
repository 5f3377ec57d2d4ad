//! Small texts.

use crate::tests::expected::{assert_holds, assert_same};
use cal_types::{TinyAsciiStr, TinyStrError};

#[test]
fn texts_are_held(rt: HostRuntime) {
    for &text in &["", "a", "ce", "M05L", "\u{1}\u{7f}"] {
        let tiny = TinyAsciiStr::<4>::try_from_utf8(text.as_bytes());
        if let Ok(tiny) = tiny {
            assert_same(&rt, tiny.as_str(), text);
            assert_same(&rt, tiny.as_bytes(), text.as_bytes());
            assert_same(&rt, tiny.len(), text.len());
            assert_same(&rt, tiny.resize::<16>().as_str(), text);
        } else {
            assert_holds(&rt, text, false);
        }
    }
}

#[test]
fn texts_are_filled_with_zeros(rt: HostRuntime) {
    let tiny = TinyAsciiStr::<8>::try_from_utf8(b"reiwa");
    assert_same(&rt, tiny.map(|t| *t.all_bytes()), Ok(*b"reiwa\0\0\0"));
}

#[test]
fn a_long_text_is_refused_before_its_bytes_are_looked_at(rt: HostRuntime) {
    assert_same(
        &rt,
        TinyAsciiStr::<4>::try_from_utf8(b"abcde"),
        Err(TinyStrError::TooLong),
    );
    assert_same(
        &rt,
        TinyAsciiStr::<4>::try_from_utf8(b"abcd\xff"),
        Err(TinyStrError::TooLong),
    );
    assert_same(
        &rt,
        TinyAsciiStr::<4>::try_from_utf8(b"abc\x80"),
        Err(TinyStrError::NonAscii),
    );
    assert_same(
        &rt,
        TinyAsciiStr::<4>::try_from_utf8(b"a\0"),
        Err(TinyStrError::NonAscii),
    );
}

#[test]
fn texts_are_compared_as_texts(rt: HostRuntime) {
    let texts = [b"", b"a" as &[u8], b"ab", b"b"];
    for i in 1..4 {
        let low = TinyAsciiStr::<4>::try_from_utf8(texts[i - 1]);
        let high = TinyAsciiStr::<4>::try_from_utf8(texts[i]);
        if let (Ok(low), Ok(high)) = (low, high) {
            assert_holds(&rt, i, low < high);
            assert_holds(&rt, i, low != high);
            assert_same(&rt, low, low);
        } else {
            assert_holds(&rt, i, false);
        }
    }
}
