//! The published Chinese and Korean years.

ghost use Rattle.std.specs.Prelude.{◌≡◌, map};
ghost use Rattle.cal_east_asian.specs.laws.ComputedLaws.{computed_year};
ghost use Rattle.cal_east_asian.specs.EastAsianRows.{years_of};
ghost use Rattle.cal_east_asian.specs.RowsAccepted.{IsAccepted};
ghost use Rattle.cal_east_asian.specs.TableYears.{number_of};
ghost use Rattle.cal_east_asian.specs.declared.sides.Side.TheVariants as side;
ghost use Rattle.published_years.specs.Published.{numbers_through};

use crate::east_asian_data::{
    CHINA, CHINESE_LEAP_YEARS, FIRST_CHINESE_YEAR, FIRST_KOREAN_YEAR, KOREA, KOREAN_LEAP_YEARS,
    LAST_CHINESE_YEAR, LAST_KOREAN_YEAR,
};
use cal_east_asian::{ChineseTraditional, EastAsianTable, KoreanTraditional, Side};

/// Returns the table of the Chinese years from [`FIRST_CHINESE_YEAR`] to [`LAST_CHINESE_YEAR`], 1912 to 2099 (the
/// rule of GB/T 33661-2017 at 8 hours from Greenwich throughout).
///
/// They were computed with GNU Emacs 28.2; PyMeeus 0.5.11 has the same years. Almanacs before 1929 used the local
/// time of Beijing, so that a few of their months begin on other days. For example, the new year of 1916 was kept on
/// 1916-02-03, and is 1916-02-04 here. The table ends with 2099, because the computed year 2101 doesn't join the real
/// year 2100.
///
/// ```
/// assert!(rt; published::china_table().rows().len() == 188); // 1912 to 2099
/// ```
pub fn china_table() -> EastAsianTable<'static>
    ensures side { result.side ≡ side.China }
    ensures rows { result.rows.now ≡ CHINA }
    ensures accepted { IsAccepted (computed_year side.China) CHINA }
    ensures years { map number_of (years_of CHINA) ≡ numbers_through FIRST_CHINESE_YEAR LAST_CHINESE_YEAR }
{
    EastAsianTable::with_leap_rows(Side::China, &CHINA, CHINESE_LEAP_YEARS)
}

/// Returns the table of the Korean years from [`FIRST_KOREAN_YEAR`] to [`LAST_KOREAN_YEAR`], 1912 to 2097 (the same
/// rule as for China, at 9 hours from Greenwich).
///
/// They were computed with GNU Emacs 28.2; PyMeeus 0.5.11 has the same years.
///
/// ```
/// assert!(rt; published::korea_table().side() == Side::Korea);
/// ```
pub fn korea_table() -> EastAsianTable<'static>
    ensures side { result.side ≡ side.Korea }
    ensures rows { result.rows.now ≡ KOREA }
    ensures accepted { IsAccepted (computed_year side.Korea) KOREA }
    ensures years { map number_of (years_of KOREA) ≡ numbers_through FIRST_KOREAN_YEAR LAST_KOREAN_YEAR }
{
    EastAsianTable::with_leap_rows(Side::Korea, &KOREA, KOREAN_LEAP_YEARS)
}

/// Returns the Chinese calendar with the years of [`china_table`].
///
/// A year from 1900 to 1911 is the year of the Qing calendar. Any other year, before 1900 or after
/// [`LAST_CHINESE_YEAR`], is computed from mean new moons and mean solar terms: its new year may be a day or a month
/// before or after the real one.
///
/// ```
/// let chinese = published_years::chinese();
/// let new_year = Date::try_new(2023.into(), Month::new(1), 1, chinese)?;
/// assert!(rt; new_year.to_rata_die().to_i64_date() == 738542); // 2023-01-22
/// ```
pub fn chinese() -> ChineseTraditional<'static>
    ensures side { result.0.table.side ≡ side.China }
    ensures rows { result.0.table.rows.now ≡ CHINA }
{
    ChineseTraditional::new(china_table())
}

/// Returns the Korean calendar with the years of [`korea_table`].
///
/// A year from 1900 to 1911 is the year of the Qing calendar. Any other year, before 1900 or after
/// [`LAST_KOREAN_YEAR`], is computed from mean new moons and mean solar terms: its new year may be a day or a month
/// before or after the real one.
///
/// ```
/// let korean = published_years::korean();
/// let new_year = Date::try_new(2027.into(), Month::new(1), 1, korean)?;
/// assert!(rt; new_year.to_rata_die().to_i64_date() == 740019); // 2027-02-07, a day after China's
/// ```
pub fn korean() -> KoreanTraditional<'static>
    ensures side { result.0.table.side ≡ side.Korea }
    ensures rows { result.0.table.rows.now ≡ KOREA }
{
    KoreanTraditional::new(korea_table())
}
