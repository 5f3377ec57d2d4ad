//! An iterator over the listed eras.

ghost use Rattle.std.specs.Prelude.{◌≡◌, ◌≤◌, length};
ghost use Rattle.std.specs.Iterator.{YieldsFirst, YieldsLast, item_count};
ghost use Rattle.cal_gregory.specs.JapaneseEras.{listed_eras};

use crate::era_start_date::EraStartDate;
use crate::japanese_eras::JapaneseEras;
use cal_types::TinyAsciiStr;

/// An iterator over the listed eras of a Japanese calendar, in order and from both ends: the start, the code and the
/// index of each.
#[derive(Clone, Copy, Debug)]
pub struct JapaneseErasIter {
    eras: JapaneseEras,
    front: usize,
    back: usize,
    ghost ordered: { front ≤ back },
    ghost fits: { back ≤ length (listed_eras eras) },
}

impl JapaneseErasIter {
    ghost use Rattle.cal_gregory.specs.JapaneseErasLeft.{eras_left};

    /// Creates an iterator over all listed eras.
    pub(crate) fn new(eras: JapaneseEras) -> JapaneseErasIter
        ensures { eras_left result ≡ listed_eras eras }
    {
        let back = eras.count();
        JapaneseErasIter {
            eras,
            front: 0,
            back,
        }
    }
}

impl Iterator for JapaneseErasIter {
    ghost use Rattle.cal_gregory.specs.JapaneseErasLeft.{eras_left};

    type Item = (EraStartDate, TinyAsciiStr<8>, u8);

    ghost next_gives = { YieldsFirst eras_left };

    ghost remaining = { item_count eras_left };

    fn next(&mut self) -> Option<(EraStartDate, TinyAsciiStr<8>, u8)> {
        if self.front == self.back {
            return None;
        }
        let era = self.eras.listed(self.front);
        self.front += 1;
        Some(era)
    }
}

impl DoubleEndedIterator for JapaneseErasIter {
    ghost use Rattle.cal_gregory.specs.JapaneseErasLeft.{eras_left};

    ghost next_back_gives = { YieldsLast eras_left };

    fn next_back(&mut self) -> Option<(EraStartDate, TinyAsciiStr<8>, u8)> {
        if self.front == self.back {
            return None;
        }
        self.back -= 1;
        Some(self.eras.listed(self.back))
    }
}
