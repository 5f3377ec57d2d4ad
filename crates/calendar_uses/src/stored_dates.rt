//! Stored dates, after the rows of a further year were published.

ghost use Rattle.std.specs.Prelude.{◌≡◌, ◌↔◌, false, IsOk, IfOk};
ghost use Rattle.icu_calendar.specs.HijriLengthening.{IsNotAdded, Lengthens, list_with};
ghost use Rattle.icu_calendar.specs.HijriSystem.{kept_date};
ghost use Rattle.icu_calendar.specs.Rebasing.{IsRebased};

use icu_calendar::laws::hijri_date_kept;
use icu_calendar::rows::TableRows;
use icu_calendar::{Date, Hijri, HijriTable, LengthenFault, Rebased, UmmAlQura};

/// Converts a stored date of Umm al-Qura to a longer table, once rows of further years have arrived. If its year isn't
/// among the added rows, its fields don't change.
///
/// # Errors
///
/// - `LengthenFault` if the rows don't begin with the table's, or aren't accepted.
pub fn updated_date<'u>(
    stored: &Date<Hijri<UmmAlQura<'_>>>,
    table: &HijriTable<'_>,
    rows: &'u TableRows,
) -> Result<Rebased<Hijri<UmmAlQura<'u>>>, LengthenFault>
    ensures exact { IsOk result ↔ Lengthens table.now.rows.now rows.now.hijri.items }
    ensures rebased { let old = stored.now.calendar.0.table.rows.now in let longer = rows.now.hijri.items in
        let t = kept_date stored.now.inner.0.parts in
        IfOk result (λ r. IsRebased (list_with old) (list_with longer) t (kept_date r.date.inner.0.parts) r.moved) }
    ensures stays { let old = table.now.rows.now in let longer = rows.now.hijri.items in
        let year = (kept_date stored.now.inner.0.parts).year in
        stored.now.calendar.0.table.rows.now ≡ old → IsNotAdded old longer year
        → IfOk result (λ r. r.moved ≡ false) }
    ensures longer { IfOk result (λ r. r.date.calendar.0.table.rows.now ≡ rows.now.hijri.items) }
{
    match table.lengthened(rows.umm_al_qura()) {
        Ok(longer) => Ok(hijri_date_kept(stored, Hijri::new_umm_al_qura(longer))),
        Err(fault) => Err(fault),
    }
}
