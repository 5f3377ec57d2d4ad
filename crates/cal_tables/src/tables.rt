//! The tables of the calendars.

ghost use Rattle.std.specs.Prelude.{◌≡◌};
ghost use Rattle.cal_east_asian.specs.declared.sides.Side.TheVariants as side;

use cal_east_asian::{ChineseTraditional, EastAsianTable, KoreanTraditional, Side};
use cal_gregory::{Japanese, JapaneseEras};
use cal_hijri::{AstronomicalSimulation, Hijri, HijriTable, UmmAlQura};
use cal_julian::{Persian, PersianCorrections};

/// The tables that calendars use.
///
/// These are the years of China, Korea and Umm al-Qura that replace the computed ones, the corrected Persian years, and
/// the eras of Japan.
#[derive(Clone, Copy, Debug)]
pub struct Tables<'t> {
    china: EastAsianTable<'t>,
    korea: EastAsianTable<'t>,
    umm_al_qura: HijriTable<'t>,
    persian: PersianCorrections<'t>,
    eras: JapaneseEras,
    ghost of_china: { china.side ≡ side.China },
    ghost of_korea: { korea.side ≡ side.Korea },
}

impl<'t> Tables<'t> {
    ghost use Rattle.std.specs.Prelude.{[], IsSome, IfSome, ◌↔◌};
    ghost use Rattle.cal_tables.specs.Kinds.{table_contents, no_contents, contents_of, kind_system};
    ghost use Rattle.cal_east_asian.specs.EastAsianReferences.{side_reference};
    ghost use Rattle.cal_east_asian.specs.EastAsianSystem.{east_asian_system};
    ghost use Rattle.cal_east_asian.specs.TableRules.{table_year};
    ghost use Rattle.cal_gregory.specs.JapaneseSystem.{japanese_system};
    ghost use Rattle.cal_hijri.specs.HijriRows.{years_of};
    ghost use Rattle.cal_hijri.specs.TableRules.{umm_al_qura_system, simulated_mecca_system};
    ghost use Rattle.cal_julian.specs.PersianSystem.{persian_system};
    ghost use Rattle.cal_kinds.specs.declared.any_calendar_kind.AnyCalendarKind.TheVariants as kind;

    /// Creates tables without rows or corrected Persian years, and with the eras up to Reiwa.
    ///
    /// # Examples
    ///
    /// ```
    /// let computed = AnyCalendar::new(AnyCalendarKind::Chinese, Tables::none());
    /// let published = AnyCalendar::new(AnyCalendarKind::Chinese, published::tables());
    /// ```
    pub fn none() -> Tables<'t>
        ensures { table_contents result ≡ no_contents }
    {
        Tables {
            china: EastAsianTable::none(Side::China),
            korea: EastAsianTable::none(Side::Korea),
            umm_al_qura: HijriTable::none(),
            persian: PersianCorrections::none(),
            eras: JapaneseEras::up_to_reiwa(),
        }
    }

    /// Creates the collection of five tables. Returns `None` exactly if the first isn't China's or the second isn't
    /// Korea's.
    ///
    /// # Examples
    ///
    /// ```
    /// let tables = Tables::try_new(
    ///     EastAsianTable::none(Side::China),
    ///     EastAsianTable::none(Side::Korea),
    ///     HijriTable::none(),
    ///     PersianCorrections::none(),
    ///     JapaneseEras::up_to_reiwa(),
    /// )?;
    /// let japanese = tables.japanese();
    /// let date = Date::from_rata_die(RataDie::new(738946), japanese);
    /// assert!(rt; date.era_year().year == 6); // of Reiwa
    /// ```
    pub fn try_new(
        china: EastAsianTable<'t>,
        korea: EastAsianTable<'t>,
        umm_al_qura: HijriTable<'t>,
        persian: PersianCorrections<'t>,
        eras: JapaneseEras,
    ) -> Option<Tables<'t>>
        ensures some { IsSome result ↔ (china.entry.side ≡ side.China) × (korea.entry.side ≡ side.Korea) }
        ensures contents { IfSome result (λ tables. table_contents tables ≡
            contents_of china.entry korea.entry umm_al_qura.entry persian.entry eras) }
    {
        match (china.side(), korea.side()) {
            (Side::China, Side::Korea) => Some(Tables {
                china,
                korea,
                umm_al_qura,
                persian,
                eras,
            }),
            _ => None,
        }
    }

    /// Returns the Chinese calendar, with the rows of China.
    ///
    /// # Examples
    ///
    /// ```
    /// let chinese = published::tables().chinese();
    /// let date = Date::from_rata_die(RataDie::new(738542), chinese);
    /// assert!(rt; date.day_of_year().0 == 1); // 2023-01-22
    /// ```
    pub fn chinese(&self) -> ChineseTraditional<'t>
        ensures system { east_asian_system (table_year result.0.table) (side_reference side.China)
            ≡ kind_system (table_contents self.now) kind.Chinese }
        ensures table { result.0.table ≡ self.now.china }
    {
        ChineseTraditional::new(self.china)
    }

    /// Returns the Korean calendar, with the rows of Korea.
    ///
    /// # Examples
    ///
    /// ```
    /// let korean = published::tables().korean();
    /// let date = Date::from_rata_die(RataDie::new(740019), korean);
    /// assert!(rt; date.day_of_year().0 == 1); // 2027-02-07
    /// ```
    pub fn korean(&self) -> KoreanTraditional<'t>
        ensures system { east_asian_system (table_year result.0.table) (side_reference side.Korea)
            ≡ kind_system (table_contents self.now) kind.Dangi }
        ensures table { result.0.table ≡ self.now.korea }
    {
        KoreanTraditional::new(self.korea)
    }

    /// Returns the Hijri calendar of Umm al-Qura, with its rows.
    ///
    /// # Examples
    ///
    /// ```
    /// let umm_al_qura = published::tables().umm_al_qura();
    /// let date = Date::from_rata_die(RataDie::new(739311), umm_al_qura);
    /// assert!(rt; date.month().number() == 9); // 2025-03-01, the first day of Ramadan
    /// ```
    pub fn umm_al_qura(&self) -> Hijri<UmmAlQura<'t>>
        ensures system { umm_al_qura_system (years_of result.0.table.rows.now)
            ≡ kind_system (table_contents self.now) kind.HijriUmmAlQura }
        ensures table { result.0.table ≡ self.now.umm_al_qura }
    {
        Hijri::new_umm_al_qura(self.umm_al_qura)
    }

    /// Returns the simulated Hijri calendar of Mecca, which has no rows.
    ///
    /// # Examples
    ///
    /// ```
    /// let computed = Tables::none().simulated_mecca();
    /// let date = Date::from_rata_die(RataDie::new(738946), computed);
    /// assert!(rt; date.year().extended_year() == 1445);
    /// ```
    pub fn simulated_mecca(&self) -> Hijri<AstronomicalSimulation<'t>>
        ensures system { simulated_mecca_system (years_of result.0.table.rows.now)
            ≡ kind_system (table_contents self.now) kind.HijriSimulatedMecca }
        ensures rows { result.0.table.rows.now ≡ [] }
    {
        Hijri::new_simulated_mecca(HijriTable::none())
    }

    /// Returns the Persian calendar, with the corrected years.
    ///
    /// # Examples
    ///
    /// ```
    /// let persian = published::tables().persian();
    /// let date = Date::from_rata_die(RataDie::new(739331), persian);
    /// assert!(rt; date.day_of_year().0 == 1); // 2025-03-21
    /// ```
    pub fn persian(&self) -> Persian<'t>
        ensures system { persian_system result ≡ kind_system (table_contents self.now) kind.Persian }
        ensures corrections { result.corrections ≡ self.now.persian }
    {
        Persian::new(self.persian)
    }

    /// Returns the Japanese calendar, with the listed eras.
    ///
    /// # Examples
    ///
    /// ```
    /// let japanese = tables.japanese();
    /// let date = Date::from_rata_die(RataDie::new(738946), japanese);
    /// assert!(rt; date.era_year().year == 6); // of Reiwa
    /// ```
    pub fn japanese(&self) -> Japanese
        ensures system { japanese_system result ≡ kind_system (table_contents self.now) kind.Japanese }
        ensures eras { result.eras ≡ self.now.eras }
    {
        Japanese::with_eras(self.eras)
    }
}
