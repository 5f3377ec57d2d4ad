//! The published years of Umm al-Qura.

ghost use Rattle.std.specs.Prelude.{◌≡◌, map};
ghost use Rattle.cal_hijri.specs.HijriRows.{years_of};
ghost use Rattle.cal_hijri.specs.RowsAccepted.{IsAccepted};
ghost use Rattle.cal_hijri.specs.TableFriday.{friday_year};
ghost use Rattle.cal_hijri.specs.TableYears.{number_of};
ghost use Rattle.published_years.specs.Published.{numbers_through};

use crate::hijri_data::{FIRST_UMM_AL_QURA_YEAR, LAST_UMM_AL_QURA_YEAR, UMM_AL_QURA};
use cal_hijri::{Hijri, HijriTable, UmmAlQura};

/// Returns the table of the Umm al-Qura years from [`FIRST_UMM_AL_QURA_YEAR`] to [`LAST_UMM_AL_QURA_YEAR`], 1300 to
/// 1600 (Java 17, `HijrahDate`; ICU 72 and 78 have the same years).
///
/// ```
/// let rows = published::umm_al_qura_table().rows();
/// let table = HijriTable::try_new(rows)?;
/// assert!(rt; table.rows().len() == 301); // 1300 to 1600
/// ```
pub fn umm_al_qura_table() -> HijriTable<'static>
    ensures rows { result.rows.now ≡ UMM_AL_QURA }
    ensures accepted { IsAccepted friday_year UMM_AL_QURA }
    ensures years { map number_of (years_of UMM_AL_QURA)
        ≡ numbers_through FIRST_UMM_AL_QURA_YEAR LAST_UMM_AL_QURA_YEAR }
{
    HijriTable::new(&UMM_AL_QURA)
}

/// Returns the Umm al-Qura calendar with the years of [`umm_al_qura_table`].
///
/// Any other year is the tabular year of type II with the epoch Friday.
///
/// ```
/// let umm_al_qura = published_years::umm_al_qura();
/// let ramadan = Date::try_new(1446.into(), Month::new(9), 1, umm_al_qura)?;
/// assert!(rt; ramadan.to_rata_die().to_i64_date() == 739311); // 2025-03-01
/// ```
pub fn umm_al_qura() -> Hijri<UmmAlQura<'static>>
    ensures { result.0.table.rows.now ≡ UMM_AL_QURA }
{
    Hijri::new_umm_al_qura(umm_al_qura_table())
}
