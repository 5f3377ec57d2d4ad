//! The eras of the Japanese calendar.

ghost use Rattle.std.specs.Prelude.{◌≡◌, ◌<◌, ◌≤◌, length, IfSome, Some, slice_get};
ghost use Rattle.cal_types.specs.CalendarList.{date};
ghost use Rattle.cal_types.specs.YearNames.{is_code};
ghost use Rattle.cal_types.specs.Text.{IsText};
ghost use Rattle.cal_gregory.specs.JapaneseEraList.{IsStartYear, last_era, has_started, listed_era};

use crate::era_start_date::EraStartDate;
use crate::japanese_eras_iter::JapaneseErasIter;
use crate::later_era::LaterEra;
use cal_types::TinyAsciiStr;

/// The eras that a Japanese calendar lists: Meiji, Taisho, Showa, Heisei and Reiwa, and optionally a later era.
///
/// The default ends with Reiwa. The starts and the codes are from CLDR (UTS 35).
#[derive(Clone, Copy, Debug, Default, PartialEq)]
pub struct JapaneseEras {
    later: Option<LaterEra>,
}

/// A listed era: the date on which it starts, its code, and its index among the calendar's eras.
pub(crate) type ListedEra = (EraStartDate, TinyAsciiStr<8>, u8);

impl JapaneseEras {
    ghost use Rattle.std.specs.Prelude.{[]};
    ghost use Rattle.std.specs.Option.{option_map};
    ghost use Rattle.cal_gregory.specs.JapaneseEraList.{eras_up_to_reiwa};
    ghost use Rattle.cal_gregory.specs.JapaneseEras.{listed_eras, no_later_era};
    ghost use Rattle.cal_gregory.specs.JapaneseErasLeft.{eras_left};
    ghost use Rattle.cal_gregory.specs.LastEra.{eras_with_last};

    /// Returns the eras up to Reiwa, without a later one.
    ///
    /// ```
    /// assert!(rt; JapaneseEras::up_to_reiwa().eras().count() == 5);
    /// ```
    pub const fn up_to_reiwa() -> JapaneseEras
        ensures value { result ≡ no_later_era }
        ensures eras { listed_eras result ≡ eras_up_to_reiwa [] }
    {
        JapaneseEras { later: None }
    }

    /// Returns the eras up to Reiwa, followed by an era with this start, code and index.
    ///
    /// If the start is before 2026, returns the eras up to Reiwa only, whatever the code and the index are. Otherwise
    /// returns `None` if the year is above 2089, the month isn't from 1 to 15, the day isn't from 1 to 31, the code
    /// is empty or has a byte other than the letters `a` to `z`, or the index is neither 7 nor 8.
    ///
    /// ```
    /// let start = EraStartDate {
    ///     year: 2040,
    ///     month: 1,
    ///     day: 1,
    /// };
    /// let eras = JapaneseEras::with_last_era(start, TinyAsciiStr::of_text(b"later"), 7)?;
    /// assert!(rt; eras.eras().count() == 6);
    /// ```
    pub fn with_last_era(
        start: EraStartDate,
        code: TinyAsciiStr<8>,
        index: u8,
    ) -> Option<JapaneseEras>
        ensures { option_map listed_eras result ≡ eras_with_last start code index }
    {
        if start.year < 2026 {
            return Some(JapaneseEras::up_to_reiwa());
        }
        match LaterEra::try_new(start, code, index) {
            Some(era) => Some(JapaneseEras { later: Some(era) }),
            None => None,
        }
    }

    /// Returns an iterator over the listed eras, in order and from both ends: the start, the code and the index of
    /// each.
    ///
    /// ```
    /// assert!(rt; JapaneseEras::up_to_reiwa().eras().count() == 5);
    /// ```
    pub fn eras(self) -> JapaneseErasIter
        ensures { eras_left result ≡ listed_eras self }
    {
        JapaneseErasIter::new(self)
    }

    /// Returns the number of listed eras.
    pub(crate) fn count(&self) -> usize
        ensures { result ≡ length (listed_eras self.now) }
    {
        match self.later {
            None => 5,
            Some(_) => 6,
        }
    }

    /// Returns the listed era at an index, counted from 0.
    pub(crate) fn listed(&self, place: usize) -> ListedEra
        requires { place < length (listed_eras self.now) }
        ensures { slice_get (listed_eras self.now) place ≡ Some result }
    {
        match place {
            0 => listed_era(1868, 10, 23, b"meiji", 2),
            1 => listed_era(1912, 7, 30, b"taisho", 3),
            2 => listed_era(1926, 12, 25, b"showa", 4),
            3 => listed_era(1989, 1, 8, b"heisei", 5),
            4 => listed_era(2019, 5, 1, b"reiwa", 6),
            _ => match &self.later {
                Some(era) => era.listed(),
                None => unreachable!(),
            },
        }
    }

    /// Returns the last listed era that starts on or before a date.
    pub(crate) fn started_by(&self, on: EraStartDate) -> Option<ListedEra>
        ensures last { result ≡ last_era (has_started (date on.year on.month on.day)) (listed_eras self.now) }
        ensures start { IfSome result (λ e. IsStartYear e.0.year) }
    {
        let mut eras = self.eras();
        while let Some(era) = eras.next_back() {
            if era.0 <= on {
                return Some(era);
            }
        }
        None
    }

    /// Returns the last listed era with a code.
    pub(crate) fn with_code(&self, code: &[u8]) -> Option<ListedEra>
        ensures last { result ≡ last_era (λ e. is_code code.now e.1) (listed_eras self.now) }
        ensures start { IfSome result (λ e. IsStartYear e.0.year) }
    {
        let mut eras = self.eras();
        while let Some(era) = eras.next_back() {
            if code == era.1.as_bytes() {
                return Some(era);
            }
        }
        None
    }
}

/// Returns a listed era.
fn listed_era(year: i32, month: u8, day: u8, code: &[u8], index: u8) -> ListedEra
    requires fits { length code.now ≤ 8 }
    requires text { IsText code.now }
    ensures { result ≡ listed_era year month day code.now index }
{
    (
        EraStartDate { year, month, day },
        TinyAsciiStr::of_text(code),
        index,
    )
}
