//! Months by their code.
ghost use Rattle.std.specs.Prelude.{◌≡◌};
ghost use Rattle.std.specs.Option.{option_map};
ghost use Rattle.cal_types.specs.Month.{month_read};
ghost use Rattle.cal_types.specs.MonthParts.{month_parts};

use cal_types::Month;

/// Returns the month of a month code: `M`, two digits, and `L` for a leap month. `None` exactly if the word doesn't
/// have this form.
pub fn read_month_code(word: &[u8]) -> Option<Month>
    ensures { option_map month_parts result ≡ month_read word.now }
{
    Month::try_from_utf8(word).ok()
}
