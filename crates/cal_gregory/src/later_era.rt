//! An era after Reiwa.

ghost use Rattle.std.specs.Prelude.{◌≡◌, true, take};
ghost use Rattle.std.specs.List.{list_all};
ghost use Rattle.cal_types.specs.Text.{HoldsText};
ghost use Rattle.cal_gregory.specs.LastEra.{is_code_letter, is_last_code, is_last_era, is_last_index, is_last_start, last_listed};

use crate::era_start_date::EraStartDate;
use cal_types::TinyAsciiStr;

/// An era after Reiwa. Its code is stored as bytes, padded with 0.
#[derive(Clone, Copy, Debug, PartialEq)]
pub(crate) struct LaterEra {
    start: EraStartDate,
    code: [u8; 8],
    len: usize,
    index: u8,
    ghost text: { HoldsText 8 code len },
    ghost accepted: { is_last_era start (take len code) index ≡ true },
}

impl LaterEra {
    ghost use Rattle.std.specs.Option.{option_map};
    ghost use Rattle.cal_gregory.specs.JapaneseEras.{later_listed};

    /// Creates the era with this start, code and index, or returns `None` if it may not be listed after Reiwa.
    pub(crate) fn try_new(start: EraStartDate, code: TinyAsciiStr<8>, index: u8) -> Option<LaterEra>
        ensures { option_map later_listed result ≡ last_listed start code index }
    {
        if !is_last_era(start, code.as_bytes(), index) {
            return None;
        }
        Some(LaterEra {
            start,
            code: *code.all_bytes(),
            len: code.len(),
            index,
        })
    }

    /// Returns the start, the code and the index of the era.
    pub(crate) fn listed(&self) -> (EraStartDate, TinyAsciiStr<8>, u8)
        ensures { result ≡ later_listed self.now }
    {
        let code = TinyAsciiStr::of_text(&self.code[..self.len]);
        (self.start, code, self.index)
    }
}

/// Returns whether an era may be listed after Reiwa.
fn is_last_era(start: EraStartDate, code: &[u8], index: u8) -> bool
    ensures { result ≡ is_last_era start code.now index }
{
    is_last_start(start) && is_last_code(code) && is_last_index(index)
}

/// Returns whether an era after Reiwa may start on a date.
fn is_last_start(start: EraStartDate) -> bool
    ensures { result ≡ is_last_start start }
{
    let is_year = 2026 <= start.year && start.year <= 2089;
    let is_month = 1 <= start.month && start.month <= 15;
    let is_day = 1 <= start.day && start.day <= 31;
    is_year && is_month && is_day
}

/// Returns whether an era after Reiwa may have a code.
fn is_last_code(code: &[u8]) -> bool
    ensures { result ≡ is_last_code code.now }
{
    !code.is_empty() && are_letters(code)
}

/// Returns whether every byte is a letter from `a` to `z`.
fn are_letters(code: &[u8]) -> bool
    ensures { result ≡ list_all is_code_letter code.now }
{
    code.iter().all(|b| b'a' <= *b && *b <= b'z')
}

/// Returns whether an era after Reiwa may have an index.
fn is_last_index(index: u8) -> bool
    ensures { result ≡ is_last_index index }
{
    index == 7 || index == 8
}
