//! Where the years of a calendar come from.

ghost use Rattle.std.specs.Prelude.{◌≡◌};
ghost use Rattle.std.specs.Option.{option_map};
ghost use Rattle.date_calls.specs.Codes.{contents_of_code};
ghost use Rattle.date_calls.specs.Sources.{source_contents};

use cal_tables::Tables;
use kind_calls::TableSource;

/// Where the years of a calendar come from.
#[derive(Clone, Copy)]
pub(crate) enum YearSource {
    /// All years are computed.
    Computed,
    /// Published years replace computed ones.
    Published,
}

/// Tables without rows, or those of the published years.
impl TableSource for YearSource {
    ghost contents = { λ source. source_contents source };

    fn tables(&self) -> Tables<'_> {
        match *self {
            YearSource::Computed => Tables::none(),
            YearSource::Published => published_years::tables(),
        }
    }
}

/// Returns the source of years with a code, or `None` if no source has the code.
pub(crate) fn source_of(code: u8) -> Option<YearSource>
    ensures { option_map source_contents result ≡ contents_of_code code }
{
    match code {
        0 => Some(YearSource::Computed),
        1 => Some(YearSource::Published),
        _ => None,
    }
}
