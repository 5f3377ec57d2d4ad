//! Numbers and lines, appended to the pending text.
ghost use Rattle.std.specs.Prelude.{◌≡◌, ◌+◌, ◌≤◌, ◌<◌, ◌++◌, length};
ghost use Rattle.std.specs.Fmt.{decimal, signed_decimal};
ghost use Rattle.arrayvec.specs.ArrayVec.{array_vec_len};
ghost use Rattle.reply_texts.specs.Texts.{two_digits, about_line};

use arrayvec::ArrayVec;
use itoa::Buffer;

/// The text that isn't written yet, at most 8192 bytes.
pub type Pending = ArrayVec<u8, 8192>;

/// The numbers below 100, in two digits each.
static PAIRS: [u8; 200] =
    *b"00010203040506070809101112131415161718192021222324252627282930313233343536373839404142434445464748495051525354555657585960616263646566676869707172737475767778798081828384858687888990919293949596979899";

/// Appends bytes.
pub fn push_all(text: &mut Pending, bytes: &[u8])
    requires { array_vec_len text.old + length bytes.now ≤ 8192 }
    ensures { text.new.items ≡ text.old.items ++ bytes.now }
{
    let _fits = text.try_extend_from_slice(bytes);
}

/// Appends a number below 100 in decimal.
fn push_below_100(text: &mut Pending, number: u64)
    requires room { array_vec_len text.old + 2 ≤ 8192 }
    requires small { number < 100 }
    ensures items { text.new.items ≡ text.old.items ++ decimal number }
    ensures len { array_vec_len text.new ≤ array_vec_len text.old + 2 }
{
    if number < 10 {
        text.push(b'0' + number as u8);
    } else {
        push_two_digits(text, number as u8);
    }
}

/// Appends a number below 10000 in decimal.
fn push_below_10000(text: &mut Pending, number: u64)
    requires room { array_vec_len text.old + 4 ≤ 8192 }
    requires small { number < 10000 }
    ensures items { text.new.items ≡ text.old.items ++ decimal number }
    ensures len { array_vec_len text.new ≤ array_vec_len text.old + 4 }
{
    if number < 100 {
        push_below_100(text, number);
    } else {
        push_below_100(text, number / 100);
        push_two_digits(text, (number % 100) as u8);
    }
}

/// Appends a number in decimal, at most 20 bytes.
pub fn push_number(text: &mut Pending, number: u64)
    requires { array_vec_len text.old + 20 ≤ 8192 }
    ensures items { text.new.items ≡ text.old.items ++ decimal number }
    ensures len { array_vec_len text.new ≤ array_vec_len text.old + 20 }
{
    if number < 10_000 {
        push_below_10000(text, number);
    } else if number < 1_000_000 {
        push_below_10000(text, number / 100);
        push_two_digits(text, (number % 100) as u8);
    } else {
        push_all(text, Buffer::new().format(number).as_bytes());
    }
}

/// Appends a signed number in decimal, at most 21 bytes.
pub fn push_signed(text: &mut Pending, number: i64)
    requires { array_vec_len text.old + 21 ≤ 8192 }
    ensures items { text.new.items ≡ text.old.items ++ signed_decimal number }
    ensures len { array_vec_len text.new ≤ array_vec_len text.old + 21 }
{
    let size = number.unsigned_abs();
    if number >= 0 {
        push_number(text, size);
    } else {
        text.push(b'-');
        push_number(text, size);
    }
}

/// Appends a number of four digits in decimal.
fn push_four_digits(text: &mut Pending, number: u32)
    requires room { array_vec_len text.old + 4 ≤ 8192 }
    requires least { 1000 ≤ number }
    requires small { number < 10000 }
    ensures items { text.new.items ≡ text.old.items ++ decimal number }
    ensures len { array_vec_len text.new ≤ array_vec_len text.old + 4 }
{
    push_two_digits(text, (number / 100) as u8);
    push_two_digits(text, (number % 100) as u8);
}

/// Appends a number of six digits in decimal.
fn push_six_digits(text: &mut Pending, number: u32)
    requires room { array_vec_len text.old + 6 ≤ 8192 }
    requires least { 100000 ≤ number }
    requires small { number < 1000000 }
    ensures items { text.new.items ≡ text.old.items ++ decimal number }
    ensures len { array_vec_len text.new ≤ array_vec_len text.old + 6 }
{
    push_four_digits(text, number / 100);
    push_two_digits(text, (number % 100) as u8);
}

/// Appends a year in decimal, at most 21 bytes. Whether it has four digits is tested first.
pub(crate) fn push_year_number(text: &mut Pending, year: i32)
    requires { array_vec_len text.old + 21 ≤ 8192 }
    ensures items { text.new.items ≡ text.old.items ++ signed_decimal year }
    ensures len { array_vec_len text.new ≤ array_vec_len text.old + 21 }
{
    if year >= 1000 && year < 10_000 {
        push_four_digits(text, year as u32);
    } else {
        push_signed(text, i64::from(year));
    }
}

/// Appends a day number in decimal, at most 21 bytes. Whether it has six digits is tested first.
pub(crate) fn push_day_number(text: &mut Pending, number: i64)
    requires { array_vec_len text.old + 21 ≤ 8192 }
    ensures items { text.new.items ≡ text.old.items ++ signed_decimal number }
    ensures len { array_vec_len text.new ≤ array_vec_len text.old + 21 }
{
    if number >= 100_000 && number < 1_000_000 {
        push_six_digits(text, number as u32);
    } else {
        push_signed(text, number);
    }
}

/// Appends a number below 100 in two digits.
pub fn push_two_digits(text: &mut Pending, number: u8)
    requires room { array_vec_len text.old + 2 ≤ 8192 }
    requires small { number < 100 }
    ensures { text.new.items ≡ text.old.items ++ two_digits number }
{
    let at = usize::from(number) * 2;
    let (tens, ones) = (PAIRS[at], PAIRS[at + 1]);
    text.push(tens);
    text.push(ones);
}

/// Appends a line about an input line and its number, such as `err line 3 long`.
pub fn push_about(text: &mut Pending, kind: &[u8], number: u64, what: &[u8])
    requires { array_vec_len text.old + length kind.now + length what.now + 22 ≤ 8192 }
    ensures { text.new.items ≡ text.old.items ++ about_line kind.now number what.now }
{
    push_all(text, kind);
    push_number(text, number);
    text.push(b' ');
    push_all(text, what);
    text.push(b'\n');
}
