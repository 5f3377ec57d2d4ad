//! Laws of dates, each proved as the contract of a function.

ghost use Rattle.std.specs.Prelude.{◌≡◌, ◌↔◌, IsTrue, IsOk, IfOk, false};
ghost use Rattle.cal_types.specs.Bag.{bag_of, year_month_day};
ghost use Rattle.cal_types.specs.CalendarList.{month_at};
ghost use Rattle.cal_types.specs.SameYear.{HaveSameYear};
ghost use Rattle.cal_hijri.specs.HijriList.{hijri_list};
ghost use Rattle.cal_hijri.specs.HijriSystem.{kept_date as kept_hijri};
ghost use Rattle.cal_hijri.specs.LengthenedTables as hijri;
ghost use Rattle.cal_east_asian.specs.EastAsianList.{east_asian_list};
ghost use Rattle.cal_east_asian.specs.EastAsianSystem.{kept_date as kept_east_asian};
ghost use Rattle.cal_east_asian.specs.LengthenedTables as east_asian;
ghost use Rattle.icu_calendar.specs.Rebasing.{IsRebased};

use crate::date::Date;
use crate::date::rebasing::Rebased;
use cal_base::{AsCalendar, Calendar, Ref};
use cal_east_asian::{
    EastAsianTraditional, Rules as EastAsianRules, TableRules as EastAsianTableRules, TableSide,
};
use cal_hijri::{Hijri, Rules as HijriRules, TablePurpose, TableRules as HijriTableRules};
use cal_types::{
    DateAddOptions, DateDifferenceOptions, DateFields, DateFromFieldsOptions,
    MissingFieldsStrategy, Overflow,
};

/// Adding the difference between two dates to the first date, with [`Overflow::Constrain`], returns the second date.
/// The addition never fails.
///
/// # Errors
///
/// - The calendar's `DateCompatibilityError` exactly if the two calendars aren't compatible.
///
/// # Examples
///
/// ```
/// let first = Date::try_new_iso(2024, 3, 1)?;
/// let second = Date::try_new_iso(2024, 3, 8)?;
/// let Ok(sum) = laws::sum_with_difference(first, &second, DateDifferenceOptions::default());
/// assert!(rt; sum.same_date(&second));
/// ```
pub fn sum_with_difference<A: AsCalendar + Copy, B: AsCalendar<Calendar = A::Calendar>>(
    first: Date<A>,
    second: &Date<B>,
    options: DateDifferenceOptions,
) -> Result<Date<A>, <A::Calendar as Calendar>::DateCompatibilityError>
where
    A::Calendar: Calendar,
    ensures compatible { let c = A.cal_of first.calendar in
        IsOk result ↔ IsTrue (A.Calendar.compatible c (B.cal_of second.now.calendar)) }
    ensures same_date { let c = A.cal_of first.calendar in
        IfOk result (λ sum. A.Calendar.date_of c sum.inner ≡ A.Calendar.date_of c second.now.inner) }
    ensures equal { IfOk result (λ sum. IsTrue (A.Calendar.DateInner.eq sum.inner second.now.inner)) }
    ensures calendar { IfOk result (λ sum. sum.calendar ≡ first.calendar) }
{
    let constrain = DateAddOptions {
        overflow: Some(Overflow::Constrain),
    };
    let between = first.try_until_with_options(second, options)?;
    match first.try_added_with_options(between, constrain) {
        Ok(sum) => Ok(sum),
        Err(_) => unreachable!(),
    }
}

/// Converting a date to its day number and back returns the same date.
///
/// # Examples
///
/// ```
/// let date = Date::from_rata_die(RataDie::new(738946), Iso);
/// assert!(rt; laws::date_of_its_day(&date).same_date(&date));
/// ```
pub fn date_of_its_day<A: AsCalendar>(date: &Date<A>) -> Date<Ref<'_, A>>
where
    A::Calendar: Calendar,
    ensures same_date { let c = A.cal_of date.now.calendar in
        A.Calendar.date_of c result.inner ≡ A.Calendar.date_of c date.now.inner }
    ensures equal { IsTrue (A.Calendar.DateInner.eq result.inner date.now.inner) }
    ensures calendar { result.calendar.0.now ≡ date.now.calendar }
{
    Date::from_rata_die(date.to_rata_die(), Ref(date.calendar_wrapper()))
}

/// Converting a date to another calendar and back returns the same date.
///
/// # Examples
///
/// ```
/// let date = Date::from_rata_die(RataDie::new(738946), Iso);
/// assert!(rt; laws::back_from_another_calendar(&date, Hebrew).same_date(&date));
/// ```
pub fn back_from_another_calendar<A: AsCalendar, B: AsCalendar>(
    date: &Date<A>,
    other: B,
) -> Date<Ref<'_, A>>
where
    A::Calendar: Calendar,
    B::Calendar: Calendar,
    ensures same_date { let c = A.cal_of date.now.calendar in
        A.Calendar.date_of c result.inner ≡ A.Calendar.date_of c date.now.inner }
    ensures equal { IsTrue (A.Calendar.DateInner.eq result.inner date.now.inner) }
    ensures calendar { result.calendar.0.now ≡ date.now.calendar }
{
    let there = date.to_calendar(other);
    there.to_calendar(Ref(date.calendar_wrapper()))
}

/// Creating a date from another date's extended year, month and day, with [`Overflow::Reject`], never fails and
/// returns the same date.
///
/// # Examples
///
/// ```
/// let date = Date::from_rata_die(RataDie::new(738946), Iso);
/// assert!(rt; laws::date_of_its_fields(&date).same_date(&date));
/// ```
pub fn date_of_its_fields<A: AsCalendar>(date: &Date<A>) -> Date<Ref<'_, A>>
where
    A::Calendar: Calendar,
    ensures same_date { let c = A.cal_of date.now.calendar in
        A.Calendar.date_of c result.inner ≡ A.Calendar.date_of c date.now.inner }
    ensures equal { IsTrue (A.Calendar.DateInner.eq result.inner date.now.inner) }
    ensures calendar { result.calendar.0.now ≡ date.now.calendar }
{
    let reject = DateFromFieldsOptions {
        overflow: Some(Overflow::Reject),
        missing_fields_strategy: Some(MissingFieldsStrategy::Reject),
    };
    match Date::try_from_fields(fields_of(date), reject, Ref(date.calendar_wrapper())) {
        Ok(named) => named,
        Err(_) => unreachable!(),
    }
}

/// Returns the extended year, month and day of a date as fields.
fn fields_of<A: AsCalendar>(date: &Date<A>) -> DateFields<'static>
where
    A::Calendar: Calendar,
    ensures { let c = A.cal_of date.now.calendar in
        let t = A.Calendar.date_of c date.now.inner in
        bag_of result ≡ year_month_day t.year (month_at (A.Calendar.system c).list t.year t.month) t.day }
{
    let year = date.year().extended_year();
    DateFields::from_year_month_day(year, date.month().to_input(), date.day_of_month().0)
}

/// Converting a date to another calendar doesn't change its fields if its year has the same first day and the same
/// months there.
///
/// # Examples
///
/// ```
/// let date = Date::try_new_gregorian(2024, 3, 1)?;
/// assert!(rt; !laws::rebased_in_a_shared_year(&date, Iso).moved);
/// ```
pub fn rebased_in_a_shared_year<A: AsCalendar, B: AsCalendar>(
    date: &Date<A>,
    calendar: B,
) -> Rebased<B>
where
    A::Calendar: Calendar,
    B::Calendar: Calendar,
    ensures rebased { let c = A.cal_of date.now.calendar in let d = B.cal_of calendar in
        let t = A.Calendar.date_of c date.now.inner in let u = B.Calendar.date_of d result.date.inner in
        IsRebased (A.Calendar.system c).list (B.Calendar.system d).list t u result.moved }
    ensures stays { let c = A.cal_of date.now.calendar in let d = B.cal_of calendar in
        HaveSameYear (A.Calendar.system c).list (B.Calendar.system d).list (A.Calendar.date_of c date.now.inner).year
        → result.moved ≡ false }
    ensures calendar { result.date.calendar ≡ calendar }
{
    date.rebase(calendar)
}

/// The law `rebased_in_a_shared_year` for two Hijri calendars over any rules.
fn rebased_in_hijri<R: HijriRules, S: HijriRules>(
    date: &Date<Hijri<R>>,
    calendar: Hijri<S>,
) -> Rebased<Hijri<S>>
    ensures rebased { let c = hijri_list (R.year_of date.now.calendar.0) in let d = hijri_list (S.year_of calendar.0) in
        let t = kept_hijri date.now.inner.0.parts in let u = kept_hijri result.date.inner.0.parts in
        IsRebased c d t u result.moved }
    ensures stays { let c = hijri_list (R.year_of date.now.calendar.0) in let d = hijri_list (S.year_of calendar.0) in
        HaveSameYear c d (kept_hijri date.now.inner.0.parts).year → result.moved ≡ false }
    ensures calendar { result.date.calendar ≡ calendar }
{
    rebased_in_a_shared_year(date, calendar)
}

/// The law `rebased_in_a_shared_year` for two Chinese or Korean calendars over any rules.
fn rebased_in_east_asian<R: EastAsianRules, S: EastAsianRules>(
    date: &Date<EastAsianTraditional<R>>,
    calendar: EastAsianTraditional<S>,
) -> Rebased<EastAsianTraditional<S>>
    ensures rebased { let c = east_asian_list (R.year_of date.now.calendar.0) in
        let d = east_asian_list (S.year_of calendar.0) in
        let t = kept_east_asian date.now.inner.0.parts in let u = kept_east_asian result.date.inner.0.parts in
        IsRebased c d t u result.moved }
    ensures stays { let c = east_asian_list (R.year_of date.now.calendar.0) in
        let d = east_asian_list (S.year_of calendar.0) in
        HaveSameYear c d (kept_east_asian date.now.inner.0.parts).year → result.moved ≡ false }
    ensures calendar { result.date.calendar ≡ calendar }
{
    rebased_in_a_shared_year(date, calendar)
}

/// Converting a date of the Umm al-Qura calendar, or of its astronomical simulation, to the calendar of a lengthened
/// table doesn't change its fields if its year isn't among the added rows.
///
/// No table has a row of 1445 here, and one has the single row of 1446:
///
/// # Examples
///
/// ```
/// let computed = HijriTable::none();
/// let before = Hijri::new_umm_al_qura(computed);
/// let stored = Date::try_new(1445.into(), Month::new(9), 1, before)?;
/// let rows = [YEAR_1446];
/// let longer = Hijri::new_umm_al_qura(computed.lengthened(&rows)?);
/// assert!(rt; !laws::hijri_date_kept(&stored, longer).moved);
/// ```
pub fn hijri_date_kept<'u, P: TablePurpose>(
    date: &Date<Hijri<HijriTableRules<'_, P>>>,
    calendar: Hijri<HijriTableRules<'u, P>>,
) -> Rebased<Hijri<HijriTableRules<'u, P>>>
    ensures rebased { let old = date.now.calendar.0.table.rows.now in let longer = calendar.entry.0.table.rows.now in
        let c = hijri.list_with old in let d = hijri.list_with longer in
        let t = kept_hijri date.now.inner.0.parts in let u = kept_hijri result.date.inner.0.parts in
        IsRebased c d t u result.moved }
    ensures stays { let old = date.now.calendar.0.table.rows.now in let longer = calendar.entry.0.table.rows.now in
        hijri.Lengthens old longer → hijri.IsNotAdded old longer (kept_hijri date.now.inner.0.parts).year
        → result.moved ≡ false }
    ensures calendar { result.date.calendar ≡ calendar.entry }
{
    rebased_in_hijri(date, calendar)
}

/// Converting a date of the Chinese or Korean calendar to the calendar of a lengthened table doesn't change its
/// fields if its year isn't among the added rows.
///
/// # Examples
///
/// ```
/// let none = EastAsianTable::none(Side::China);
/// let before = ChineseTraditional::new(none);
/// let stored = Date::try_new(1911.into(), Month::new(9), 1, before)?;
/// let longer = ChineseTraditional::new(none.lengthened(published::china_table().rows())?);
/// assert!(rt; !laws::east_asian_date_kept(&stored, longer).moved);
/// ```
pub fn east_asian_date_kept<'u, S: TableSide>(
    date: &Date<EastAsianTraditional<EastAsianTableRules<'_, S>>>,
    calendar: EastAsianTraditional<EastAsianTableRules<'u, S>>,
) -> Rebased<EastAsianTraditional<EastAsianTableRules<'u, S>>>
    ensures rebased { let old = date.now.calendar.0.table.rows.now in let longer = calendar.entry.0.table.rows.now in
        let c = east_asian.list_with S.side old in let d = east_asian.list_with S.side longer in
        let t = kept_east_asian date.now.inner.0.parts in let u = kept_east_asian result.date.inner.0.parts in
        IsRebased c d t u result.moved }
    ensures stays { let old = date.now.calendar.0.table.rows.now in let longer = calendar.entry.0.table.rows.now in
        east_asian.Lengthens S.side old longer
        → east_asian.IsNotAdded old longer (kept_east_asian date.now.inner.0.parts).year → result.moved ≡ false }
    ensures calendar { result.date.calendar ≡ calendar.entry }
{
    rebased_in_east_asian(date, calendar)
}
