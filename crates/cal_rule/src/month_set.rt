//! Sets of months.

ghost use Rattle.std.specs.Prelude.{◌≡◌, ◌↔◌, IsTrue, ◌<◌, ◌||◌, false};
ghost use Rattle.cal_types.specs.Month.{MonthParts};
ghost use Rattle.cal_types.specs.MonthParts.{month_parts};
ghost use Rattle.cal_rule.specs.Sets.{has_month, is_month};

use crate::bits::{bit_of, has_no_bit, with_bit};
use cal_types::Month;

/// A set of months with numbers below 64, regular ones and leap months.
#[derive(Clone, Copy, Debug, PartialEq)]
pub struct MonthSet {
    /// A bit for the number of each regular month.
    regular: u64,
    /// A bit for the number of each leap month.
    leap: u64,
}

impl MonthSet {
    /// Creates the empty set.
    pub const fn new() -> Self
        ensures { (m : MonthParts) → has_month result m ≡ false }
    {
        MonthSet {
            regular: 0,
            leap: 0,
        }
    }

    /// Returns `true` if the month is in the set.
    pub fn contains(&self, month: Month) -> bool
        ensures { result ≡ has_month self.now (month_parts month) }
    {
        let number = u16::from(month.number());
        if month.is_leap() {
            bit_of(self.leap, number)
        } else {
            bit_of(self.regular, number)
        }
    }

    /// Returns `true` if the set has no month.
    pub const fn is_empty(&self) -> bool
        ensures { IsTrue result ↔ ((m : MonthParts) → has_month self.now m ≡ false) }
    {
        let regular = has_no_bit(self.regular);
        let leap = has_no_bit(self.leap);
        regular & leap
    }

    /// Adds a month.
    pub(crate) fn insert(&mut self, month: Month)
        requires { (month_parts month).number < 64 }
        ensures { (m : MonthParts) →
            has_month self.new m ≡ (is_month m (month_parts month) || has_month self.old m) }
    {
        let number = u16::from(month.number());
        if month.is_leap() {
            self.leap = with_bit(self.leap, number);
        } else {
            self.regular = with_bit(self.regular, number);
        }
    }
}
