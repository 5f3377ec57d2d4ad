//! Words between spaces, and the numbers and months that words spell.

use cal_types::Month;
use request_lines::Words;
use std::fmt::Debug;
use std::process::Abort;
use word_values::{read_byte, read_int, read_month_code, read_number};

/// That what was read is as expected.
fn assert_read<T: PartialEq + Debug + Copy>(rt: &impl Abort, read: T, expected: T) {
    assert_eq!(rt; read, expected);
}

#[test]
fn words_stand_between_spaces(rt: HostRuntime) {
    let mut words = Words::new(b"-007  255 ");
    assert_read(&rt, words.next(), Some(b"-007".as_slice()));
    assert_read(&rt, words.next(), Some(b"".as_slice()));
    assert_read(&rt, words.next(), Some(b"255".as_slice()));
    assert_read(&rt, words.next(), Some(b"".as_slice()));
    assert_read(&rt, words.next(), None);
}

#[test]
fn numbers_have_one_to_nine_digits(rt: HostRuntime) {
    assert_read(&rt, read_int(b"-007"), Some(-7));
    assert_read(&rt, read_int(b"999999999"), Some(999999999));
    assert_read(&rt, read_int(b"-"), None);
    assert_read(&rt, read_int(b"1234567890"), None);
    assert_read(&rt, read_int(b"+1"), None);
}

#[test]
fn bytes_have_one_to_three_digits(rt: HostRuntime) {
    assert_read(&rt, read_byte(b"255"), Some(255));
    assert_read(&rt, read_byte(b"007"), Some(7));
    assert_read(&rt, read_byte(b"256"), None);
    assert_read(&rt, read_byte(b"0255"), None);
}

#[test]
fn numbers_have_as_many_digits_as_are_asked_for(rt: HostRuntime) {
    assert_read(&rt, read_number(b"100000", 6), Some(100000));
    assert_read(&rt, read_number(b"1000000", 6), None);
    assert_read(&rt, read_number(b"", 6), None);
}

#[test]
fn month_codes_are_whole_words(rt: HostRuntime) {
    assert_read(&rt, read_month_code(b"M05L"), Some(Month::leap(5)));
    assert_read(&rt, read_month_code(b"M13"), Some(Month::new(13)));
    assert_read(&rt, read_month_code(b"M5"), None);
    assert_read(&rt, read_month_code(b"M05L "), None);
}
