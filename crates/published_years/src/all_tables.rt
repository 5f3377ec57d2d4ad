//! All published tables together.

ghost use Rattle.std.specs.Prelude.{◌≡◌};
ghost use Rattle.cal_tables.specs.Kinds.{table_contents};
ghost use Rattle.published_years.specs.Published.{published_contents};

use crate::east_asian_years::{china_table, korea_table};
use crate::hijri_years::umm_al_qura_table;
use crate::persian_years::persian_corrections;
use cal_gregory::JapaneseEras;
use cal_tables::Tables;

/// Returns all published tables, with the eras of Japan up to Reiwa. A calendar of any kind can be created over them.
///
/// ```
/// let calendar = AnyCalendar::new(AnyCalendarKind::Chinese, published_years::tables());
/// assert!(rt; calendar.kind() == AnyCalendarKind::Chinese);
/// ```
pub fn tables() -> Tables<'static>
    ensures { table_contents result ≡ published_contents }
{
    let eras = JapaneseEras::up_to_reiwa();
    let corrections = persian_corrections();
    match Tables::try_new(
        china_table(),
        korea_table(),
        umm_al_qura_table(),
        corrections,
        eras,
    ) {
        Some(tables) => tables,
        None => unreachable!(),
    }
}
