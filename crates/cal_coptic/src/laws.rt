//! Laws of the era styles, each proved as the contract of a function.

ghost use Rattle.std.specs.Prelude.{◌≡◌};
ghost use Rattle.std.specs.Ordering.{nat_cmp};
ghost use Rattle.cal_coptic.specs.StyleOrder.{style_place};

use crate::ethiopian::EthiopianEraStyle;
use std::cmp::Ordering;

/// Era styles are ordered: Amete Mihret is less than Amete Alem.
pub fn order_of_styles(first: EthiopianEraStyle, second: EthiopianEraStyle) -> Ordering
    ensures { result ≡ nat_cmp (style_place first) (style_place second) }
{
    first.cmp(&second)
}
