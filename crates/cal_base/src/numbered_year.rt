//! Years that are determined by their number.

ghost use Rattle.std.specs.Prelude.{◌≡◌};
ghost use Rattle.cal_days.specs.Day.{is_field_year};

use cal_arith::{PackWithMD, can_be_named};
use date_bytes::solar;

/// A year of a solar calendar, which its number determines: the ISO year in the Gregorian calendars, the Coptic year
/// in the Coptic and the Ethiopian calendar, and the extended year in the Julian, the Indian and the Persian
/// calendar.
///
/// A date with a numbered year is packed into four bytes: 2024-03-01 into `[97, 208, 15, 0]`.
#[derive(Clone, Copy, Debug, PartialEq, Eq, PartialOrd, Ord, Hash)]
pub struct NumberedYear {
    /// The year's number: year 0 is the year before year 1.
    pub number: i32,
}

impl NumberedYear {
    /// Returns whether fields may name a year with this number: whether it is from -1040000 to 1040000.
    pub fn can_be_named(self) -> bool
        ensures { result ≡ is_field_year self.number }
    {
        can_be_named(self.number)
    }
}

impl PackWithMD for NumberedYear {
    ghost use Rattle.std.specs.Prelude.{◌≤◌};
    ghost use Rattle.cal_days.specs.Day.{IsFieldYear};
    ghost use Rattle.cal_arith.specs.Dates.{ymd};
    ghost use Rattle.date_bytes.specs.Bytes.{date_bytes, day_from, month_from};
    ghost use Rattle.cal_base.specs.PackedYears.{packed_year};

    type Packed = [u8; 4];

    ghost stored = { λ y. y.number };

    ghost unpacked = { λ p. ymd (packed_year p) (month_from 0 p) (day_from 0 p) };

    fn pack(self, month: u8, day: u8) -> [u8; 4]
        requires storable { IsFieldYear self.number }
        requires month { (1 ≤ month) × (month ≤ 13) }
        requires day { (1 ≤ day) × (day ≤ 31) }
        ensures bytes { result ≡ date_bytes self.number month day }
        ensures parts { ymd (packed_year result) (month_from 0 result) (day_from 0 result) ≡ ymd self month day }
    {
        solar::pack(self.number, month, day)
    }

    fn unpack_year(packed: [u8; 4]) -> NumberedYear {
        NumberedYear {
            number: solar::unpack_year(packed),
        }
    }

    fn unpack_month(packed: [u8; 4]) -> u8 {
        solar::unpack_month(packed)
    }

    fn unpack_day(packed: [u8; 4]) -> u8 {
        solar::unpack_day(packed)
    }
}
