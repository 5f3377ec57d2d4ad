//! A year of the Hebrew calendar.

ghost use Rattle.std.specs.Prelude.{◌≡◌};
ghost use Rattle.std.proofs.Common.{rules};
ghost use Rattle.std.specs.Cmp.Rules.{comparing, hashing};
ghost use Rattle.std.specs.Ordering.{int_cmp, int_eq, on, as_partial_cmp};
ghost use Rattle.std.specs.Hash as fed;
ghost use Rattle.date_bytes.specs.HebrewBytes.{class_of, length_of};

use cal_arith::PackWithMD;
use date_bytes::hebrew;
use std::cmp::Ordering;
use std::hash::{Hash, Hasher};

/// A year of the Hebrew calendar: its extended year, and its number of days, which determines the lengths of its
/// months.
///
/// Years are equal, ordered and hashed by the extended year.
#[derive(Clone, Copy, Debug)]
pub struct HebrewYear {
    pub(crate) extended_year: i32,
    pub(crate) length: u16,
    ghost known: { length_of (class_of length) ≡ length },
}

impl PartialEq for HebrewYear {
    ghost eq = { on (λ a. a.extended_year) int_eq };

    ghost laws = { Prim.search (comparing, rules) };

    fn eq(&self, other: &Self) -> bool {
        self.extended_year == other.extended_year
    }
}

impl Eq for HebrewYear {
    ghost laws = { Prim.search (comparing, rules) };
}

impl Ord for HebrewYear {
    ghost cmp = { on (λ a. a.extended_year) int_cmp };

    ghost total = { Prim.search (comparing, rules) };

    ghost matches_partial_cmp = { Prim.search (comparing, rules) };

    ghost matches_eq = { Prim.search (comparing, rules) };

    fn cmp(&self, other: &Self) -> Ordering {
        self.extended_year.cmp(&other.extended_year)
    }
}

impl PartialOrd for HebrewYear {
    ghost partial_cmp = { as_partial_cmp (on (λ a. a.extended_year) int_cmp) };

    ghost laws = { Prim.search (comparing, rules) };

    fn partial_cmp(&self, other: &Self) -> Option<Ordering> {
        Some(self.cmp(other))
    }
}

impl Hash for HebrewYear {
    ghost hash_input = { λ a. fed.i32 a.extended_year };

    ghost respects_eq = { Prim.search (hashing, rules) };

    fn hash<H: Hasher>(&self, state: &mut H) {
        self.extended_year.hash(state);
    }
}

impl PackWithMD for HebrewYear {
    ghost use Rattle.std.specs.Prelude.{◌≤◌};
    ghost use Rattle.cal_days.specs.Day.{IsFieldYear};
    ghost use Rattle.cal_arith.specs.Dates.{ymd};
    ghost use Rattle.date_bytes.specs.Bytes.{day_from, month_from};
    ghost use Rattle.date_bytes.specs.HebrewBytes.{hebrew_bytes};
    ghost use Rattle.cal_hebrew.specs.PackedYears.{packed_year};

    type Packed = [u8; 5];

    ghost stored = { λ y. y.extended_year };

    ghost unpacked = { λ p. ymd (packed_year p) (month_from 1 p) (day_from 1 p) };

    fn pack(self, month: u8, day: u8) -> [u8; 5]
        requires storable { IsFieldYear self.extended_year }
        requires month { (1 ≤ month) × (month ≤ 13) }
        requires day { (1 ≤ day) × (day ≤ 31) }
        ensures bytes { result ≡ hebrew_bytes self.extended_year self.length month day }
        ensures parts { ymd (packed_year result) (month_from 1 result) (day_from 1 result) ≡ ymd self month day }
    {
        hebrew::pack(self.extended_year, self.length, month, day)
    }

    fn unpack_year(packed: [u8; 5]) -> HebrewYear {
        HebrewYear {
            extended_year: hebrew::unpack_year(packed),
            length: hebrew::unpack_length(packed),
        }
    }

    fn unpack_month(packed: [u8; 5]) -> u8 {
        hebrew::unpack_month(packed)
    }

    fn unpack_day(packed: [u8; 5]) -> u8 {
        hebrew::unpack_day(packed)
    }
}
