//! Months in lists.

ghost use Rattle.std.specs.Prelude.{◌≡◌, ◌<◌, IfOk};
ghost use Rattle.std.specs.Result.{result_map_both};
ghost use Rattle.cal_types.specs.MonthParts.{month_parts};
ghost use Rattle.cal_rule.specs.Months.{is_leap_item, month_known, month_numbered, month_of, month_read};

use crate::kind_ranges::knows_month;
use crate::numbers::read_two_digits;
use crate::value_fault::ValueFault;
use cal_kinds::AnyCalendarKind;
use cal_types::Month;

/// Returns whether the last byte is an `L`.
fn is_leap_item(item: &[u8]) -> bool
    ensures { result ≡ is_leap_item item.now }
{
    match item.split_last() {
        None => false,
        Some((last, _)) => last.eq_ignore_ascii_case(&b'L'),
    }
}

/// Reads the digits of a month.
fn numbered(digits: &[u8], is_leap: bool) -> Result<Month, ValueFault>
    ensures { result_map_both month_parts (λ fault. fault) result ≡ month_numbered is_leap digits.now }
{
    let number = read_two_digits(digits).ok_or(ValueFault::Bad)?;
    if is_leap {
        Ok(Month::leap(number))
    } else {
        Ok(Month::new(number))
    }
}

/// Reads a month, regular or leap.
fn month_of(item: &[u8]) -> Result<Month, ValueFault>
    ensures { result_map_both month_parts (λ fault. fault) result ≡ month_of item.now }
{
    if is_leap_item(item) {
        numbered(&item[..item.len() - 1], true)
    } else {
        numbered(item, false)
    }
}

/// Reads a month of a kind of calendar.
pub(crate) fn read_month(item: &[u8], kind: AnyCalendarKind) -> Result<Month, ValueFault>
    ensures value { result_map_both month_parts (λ fault. fault) result ≡ month_read kind item.now }
    ensures small { IfOk result (λ m. (month_parts m).number < 64) }
{
    let month = month_of(item)?;
    if knows_month(kind, month) {
        Ok(month)
    } else {
        Err(ValueFault::OutOfRange)
    }
}
