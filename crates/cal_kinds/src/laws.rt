//! Laws of the kinds, each proved as the contract of a function.

ghost use Rattle.std.specs.Prelude.{◌≡◌};
ghost use Rattle.std.specs.Ordering.{nat_cmp};
ghost use Rattle.cal_kinds.specs.KindOrder.{kind_place};

use crate::any_calendar_kind::AnyCalendarKind;
use std::cmp::Ordering;

/// Kinds are ordered as follows: Buddhist, Chinese, Coptic, Dangi, Ethiopian, EthiopianAmeteAlem, Gregorian, Hebrew,
/// Indian, HijriTabularTypeIIFriday, HijriSimulatedMecca, HijriTabularTypeIIThursday, HijriUmmAlQura, Iso, Japanese,
/// JapaneseExtended, Julian, Persian, Roc, HijriTabularTypeIFriday, HijriTabularTypeIThursday.
pub fn order_of_kinds(first: AnyCalendarKind, second: AnyCalendarKind) -> Ordering
    ensures { result ≡ nat_cmp (kind_place first) (kind_place second) }
{
    first.cmp(&second)
}
