//! The branch over all kinds of calendars.

ghost use Rattle.cal_coptic.specs.EthiopianSystem.{ethiopian_system};
ghost use Rattle.cal_east_asian.specs.EastAsianSystem.{east_asian_system};
ghost use Rattle.cal_hijri.specs.HijriSystem.{hijri_system};
ghost use Rattle.cal_hijri.specs.TabularRules.{tabular_system};
ghost use Rattle.cal_tables.specs.Kinds.{kind_system, listed_system};

use crate::sources::{
    TableSource, chinese_from, japanese_from, korean_from, persian_from, umm_al_qura_from,
};
use crate::tabular::{
    Fixed, TabularRules, TypeIFriday, TypeIIFriday, TypeIIThursday, TypeIThursday,
};
use crate::tasks::CalendarTask;
use cal_base::Iso;
use cal_coptic::EthiopianEraStyle::{AmeteAlem, AmeteMihret};
use cal_coptic::{Coptic, Ethiopian, EthiopianEraStyle};
use cal_east_asian::{EastAsianTraditional, Rules as EastAsianRules};
use cal_gregory::{Buddhist, Gregorian, Roc};
use cal_hebrew::Hebrew;
use cal_hijri::{Hijri, Rules as HijriRules};
use cal_julian::{Indian, Julian};
use cal_kinds::AnyCalendarKind;
use cal_tables::Tables;

/// Runs a task in a Hijri calendar.
fn run_in_hijri<P, R: HijriRules, T: CalendarTask<P>>(
    task: &T,
    parts: &mut P,
    calendar: Hijri<R>,
) -> T::Answer
    requires { let system = hijri_system (R.year_of calendar.0) (R.reference calendar.0) in
        T.asks task.now system parts.old }
    ensures { let system = hijri_system (R.year_of calendar.0) (R.reference calendar.0) in
        T.done task.now system parts.old parts.new result }
{
    task.run(parts, calendar)
}

/// Runs a task in a tabular Hijri calendar.
fn run_in_tabular<P, K: TabularRules, T: CalendarTask<P>>(
    task: &T,
    parts: &mut P,
    kind: K,
) -> T::Answer
    requires { T.asks task.now (tabular_system (K.rules kind)) parts.old }
    ensures { T.done task.now (tabular_system (K.rules kind)) parts.old parts.new result }
{
    run_in_hijri(task, parts, Hijri(Fixed { kind }))
}

/// Runs a task in the Chinese or the Korean calendar.
fn run_in_east_asian<P, R: EastAsianRules, T: CalendarTask<P>>(
    task: &T,
    parts: &mut P,
    calendar: EastAsianTraditional<R>,
) -> T::Answer
    requires { let system = east_asian_system (R.year_of calendar.0) (R.reference calendar.0) in
        T.asks task.now system parts.old }
    ensures { let system = east_asian_system (R.year_of calendar.0) (R.reference calendar.0) in
        T.done task.now system parts.old parts.new result }
{
    task.run(parts, calendar)
}

/// Runs a task in the Ethiopian calendar with an era style.
fn run_in_ethiopian<P, T: CalendarTask<P>>(
    task: &T,
    parts: &mut P,
    style: EthiopianEraStyle,
) -> T::Answer
    requires { T.asks task.now (ethiopian_system style) parts.old }
    ensures { T.done task.now (ethiopian_system style) parts.old parts.new result }
{
    task.run(parts, Ethiopian::new_with_era_style(style))
}

/// Runs a task in the Japanese calendar.
fn run_in_japanese<P, S: TableSource, T: CalendarTask<P>>(
    task: &T,
    parts: &mut P,
    source: &S,
) -> T::Answer
    requires { T.asks task.now (listed_system (S.contents source.now).eras) parts.old }
    ensures { T.done task.now (listed_system (S.contents source.now).eras) parts.old parts.new result }
{
    task.run(parts, japanese_from(source))
}

/// Runs a task in the calendar of a kind over a source of tables, in the calendar's own type.
///
/// `Chinese` uses the rows of China, `Dangi` those of Korea, and only `HijriUmmAlQura` those of Umm al-Qura. `Persian`
/// uses the corrected years, and `Japanese` and `JapaneseExtended` use the eras. The source is asked for its tables in
/// these calendars alone.
///
/// The call takes no memory. Callers use it in place of a match of their own, since each match over all kinds is costly
/// to prove.
///
/// ```text
/// let mut parts = DateParts::default();
/// run_in_kind(&ShowDay { day }, &mut parts, AnyCalendarKind::Coptic, &Tables::none());
/// ```
pub fn run_in_kind<P, S: TableSource, T: CalendarTask<P>>(
    task: &T,
    parts: &mut P,
    kind: AnyCalendarKind,
    source: &S,
) -> T::Answer
    requires { T.asks task.now (kind_system (S.contents source.now) kind) parts.old }
    ensures { T.done task.now (kind_system (S.contents source.now) kind) parts.old parts.new result }
{
    match kind {
        AnyCalendarKind::Buddhist => task.run(parts, Buddhist),
        AnyCalendarKind::Chinese => run_in_east_asian(task, parts, chinese_from(source)),
        AnyCalendarKind::Coptic => task.run(parts, Coptic),
        AnyCalendarKind::Dangi => run_in_east_asian(task, parts, korean_from(source)),
        AnyCalendarKind::Ethiopian => run_in_ethiopian(task, parts, AmeteMihret),
        AnyCalendarKind::EthiopianAmeteAlem => run_in_ethiopian(task, parts, AmeteAlem),
        AnyCalendarKind::Gregorian => task.run(parts, Gregorian),
        AnyCalendarKind::Hebrew => task.run(parts, Hebrew),
        AnyCalendarKind::Indian => task.run(parts, Indian),
        AnyCalendarKind::HijriTabularTypeIIFriday => run_in_tabular(task, parts, TypeIIFriday),
        AnyCalendarKind::HijriSimulatedMecca => {
            run_in_hijri(task, parts, Tables::none().simulated_mecca())
        }
        AnyCalendarKind::HijriTabularTypeIIThursday => run_in_tabular(task, parts, TypeIIThursday),
        AnyCalendarKind::HijriUmmAlQura => run_in_hijri(task, parts, umm_al_qura_from(source)),
        AnyCalendarKind::Iso => task.run(parts, Iso),
        AnyCalendarKind::Japanese => run_in_japanese(task, parts, source),
        AnyCalendarKind::JapaneseExtended => run_in_japanese(task, parts, source),
        AnyCalendarKind::Julian => task.run(parts, Julian),
        AnyCalendarKind::Persian => task.run(parts, persian_from(source)),
        AnyCalendarKind::Roc => task.run(parts, Roc),
        AnyCalendarKind::HijriTabularTypeIFriday => run_in_tabular(task, parts, TypeIFriday),
        AnyCalendarKind::HijriTabularTypeIThursday => run_in_tabular(task, parts, TypeIThursday),
    }
}
