//! Examples that name a calendar, in functions over any calendar. A parameter has the calendar's name, so that each line
//! stands as in the docs: a value, as `Iso`, or a type, as `Julian` in `Julian::new()`.

pub(super) mod hebrew;
pub(super) mod iso;
pub(super) mod solar;

use icu_calendar::{Ethiopian, EthiopianEraStyle, Hebrew, Indian, Japanese, Julian};

/// A calendar that is created of nothing.
pub(super) trait Created {
    /// Creates the calendar.
    fn new() -> Self;
}

impl Created for Hebrew {
    fn new() -> Hebrew {
        Hebrew::new()
    }
}

impl Created for Julian {
    fn new() -> Julian {
        Julian::new()
    }
}

impl Created for Indian {
    fn new() -> Indian {
        Indian::new()
    }
}

impl Created for Japanese {
    fn new() -> Japanese {
        Japanese::new()
    }
}

impl Created for Ethiopian {
    fn new() -> Ethiopian {
        Ethiopian::new()
    }
}

/// A calendar that is created of nothing, or of a style of its eras.
pub(super) trait Styled: Created {
    /// Creates the calendar with a style.
    fn new_with_era_style(style: EthiopianEraStyle) -> Self;
}

impl Styled for Ethiopian {
    fn new_with_era_style(style: EthiopianEraStyle) -> Ethiopian {
        Ethiopian::new_with_era_style(style)
    }
}
