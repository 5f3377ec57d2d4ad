//! Sources of tables, and the calendars that use tables, over a source.

ghost use Rattle.std.specs.Prelude.{◌≡◌};
ghost use Rattle.cal_east_asian.specs.EastAsianReferences.{side_reference};
ghost use Rattle.cal_east_asian.specs.EastAsianSystem.{east_asian_system};
ghost use Rattle.cal_east_asian.specs.TableRules.{table_year};
ghost use Rattle.cal_east_asian.specs.declared.sides.Side.TheVariants as side;
ghost use Rattle.cal_gregory.specs.JapaneseSystem.{japanese_system};
ghost use Rattle.cal_hijri.specs.HijriRows.{years_of};
ghost use Rattle.cal_hijri.specs.TableRules.{umm_al_qura_system};
ghost use Rattle.cal_julian.specs.PersianSystem.{persian_system};
ghost use Rattle.cal_kinds.specs.declared.any_calendar_kind.AnyCalendarKind.TheVariants as kind;
ghost use Rattle.cal_tables.specs.Kinds.{TableContents, kind_system, table_contents};

use cal_east_asian::{ChineseTraditional, KoreanTraditional};
use cal_gregory::Japanese;
use cal_hijri::{Hijri, UmmAlQura};
use cal_julian::Persian;
use cal_tables::Tables;

/// A source of tables, such as the tables themselves.
///
/// [`run_in_kind`](crate::run_in_kind) asks it for the tables in the calendars that use them only, so a source may make
/// its tables when it is asked.
pub trait TableSource {
    /// The contents of the tables.
    ghost contents: { Self → TableContents };

    /// Returns the tables.
    fn tables(&self) -> Tables<'_>
        ensures { table_contents result ≡ contents self.now };
}

impl<'t> TableSource for Tables<'t> {
    ghost contents = { λ tables. table_contents tables };

    fn tables(&self) -> Tables<'_> {
        *self
    }
}

/// Returns the Chinese calendar over a source.
pub(crate) fn chinese_from<S: TableSource>(source: &S) -> ChineseTraditional<'_>
    ensures system { east_asian_system (table_year result.0.table) (side_reference side.China)
        ≡ kind_system (S.contents source.now) kind.Chinese }
{
    source.tables().chinese()
}

/// Returns the Korean calendar over a source.
pub(crate) fn korean_from<S: TableSource>(source: &S) -> KoreanTraditional<'_>
    ensures system { east_asian_system (table_year result.0.table) (side_reference side.Korea)
        ≡ kind_system (S.contents source.now) kind.Dangi }
{
    source.tables().korean()
}

/// Returns the Hijri calendar of Umm al-Qura over a source.
pub(crate) fn umm_al_qura_from<S: TableSource>(source: &S) -> Hijri<UmmAlQura<'_>>
    ensures system { umm_al_qura_system (years_of result.0.table.rows.now)
        ≡ kind_system (S.contents source.now) kind.HijriUmmAlQura }
{
    source.tables().umm_al_qura()
}

/// Returns the Persian calendar over a source.
pub(crate) fn persian_from<S: TableSource>(source: &S) -> Persian<'_>
    ensures system { persian_system result ≡ kind_system (S.contents source.now) kind.Persian }
{
    source.tables().persian()
}

/// Returns the Japanese calendar over a source.
pub(crate) fn japanese_from<S: TableSource>(source: &S) -> Japanese
    ensures system { japanese_system result ≡ kind_system (S.contents source.now) kind.Japanese }
{
    source.tables().japanese()
}
