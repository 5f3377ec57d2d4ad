//! The codes that callers pass: calendars, sources of years, and options.

ghost use Rattle.std.specs.Prelude.{◌≡◌, IfSome, Some};
ghost use Rattle.std.specs.Option.{option_map};
ghost use Rattle.cal_tables.specs.Kinds.{table_contents};
ghost use Rattle.date_calls.specs.Codes.{code_of_kind, contents_of_code, kind_of_code, overflow_of_code, strategy_of_code, unit_of_code};

use cal_kinds::AnyCalendarKind;
use cal_tables::Tables;
use cal_types::{DateDurationUnit, MissingFieldsStrategy, Overflow};

/// Returns the kind of calendar with a code, or `None` if no kind has the code.
pub(crate) fn kind_of(code: u8) -> Option<AnyCalendarKind>
    ensures { result ≡ kind_of_code code }
{
    match code {
        0 => Some(AnyCalendarKind::Buddhist),
        1 => Some(AnyCalendarKind::Chinese),
        2 => Some(AnyCalendarKind::Coptic),
        3 => Some(AnyCalendarKind::Dangi),
        4 => Some(AnyCalendarKind::Ethiopian),
        5 => Some(AnyCalendarKind::EthiopianAmeteAlem),
        6 => Some(AnyCalendarKind::Gregorian),
        7 => Some(AnyCalendarKind::Hebrew),
        8 => Some(AnyCalendarKind::Indian),
        9 => Some(AnyCalendarKind::HijriTabularTypeIIFriday),
        10 => Some(AnyCalendarKind::HijriSimulatedMecca),
        11 => Some(AnyCalendarKind::HijriTabularTypeIIThursday),
        12 => Some(AnyCalendarKind::HijriUmmAlQura),
        13 => Some(AnyCalendarKind::Iso),
        14 => Some(AnyCalendarKind::Japanese),
        15 => Some(AnyCalendarKind::Julian),
        16 => Some(AnyCalendarKind::Persian),
        17 => Some(AnyCalendarKind::Roc),
        18 => Some(AnyCalendarKind::HijriTabularTypeIFriday),
        19 => Some(AnyCalendarKind::HijriTabularTypeIThursday),
        _ => None,
    }
}

/// Returns the code of a kind of calendar, or `None` if it has none.
pub(crate) fn code_of(kind: AnyCalendarKind) -> Option<u8>
    ensures code { result ≡ code_of_kind kind }
    ensures kind { IfSome result (λ code. kind_of_code code ≡ Some kind) }
{
    match kind {
        AnyCalendarKind::Buddhist => Some(0),
        AnyCalendarKind::Chinese => Some(1),
        AnyCalendarKind::Coptic => Some(2),
        AnyCalendarKind::Dangi => Some(3),
        AnyCalendarKind::Ethiopian => Some(4),
        AnyCalendarKind::EthiopianAmeteAlem => Some(5),
        AnyCalendarKind::Gregorian => Some(6),
        AnyCalendarKind::Hebrew => Some(7),
        AnyCalendarKind::Indian => Some(8),
        AnyCalendarKind::HijriTabularTypeIIFriday => Some(9),
        AnyCalendarKind::HijriSimulatedMecca => Some(10),
        AnyCalendarKind::HijriTabularTypeIIThursday => Some(11),
        AnyCalendarKind::HijriUmmAlQura => Some(12),
        AnyCalendarKind::Iso => Some(13),
        AnyCalendarKind::Japanese => Some(14),
        AnyCalendarKind::JapaneseExtended => None,
        AnyCalendarKind::Julian => Some(15),
        AnyCalendarKind::Persian => Some(16),
        AnyCalendarKind::Roc => Some(17),
        AnyCalendarKind::HijriTabularTypeIFriday => Some(18),
        AnyCalendarKind::HijriTabularTypeIThursday => Some(19),
    }
}

/// Returns the tables for a code: 0 for computed years (no rows), 1 for published years, and `None` for any other code.
pub fn tables_of(code: u8) -> Option<Tables<'static>>
    ensures { option_map table_contents result ≡ contents_of_code code }
{
    match code {
        0 => Some(Tables::none()),
        1 => Some(published_years::tables()),
        _ => None,
    }
}

/// Returns the option `overflow` for a code, or `None` for an unknown code. 0 leaves the option unset.
pub(crate) fn overflow_of(code: u8) -> Option<Option<Overflow>>
    ensures { result ≡ overflow_of_code code }
{
    match code {
        0 => Some(None),
        1 => Some(Some(Overflow::Constrain)),
        2 => Some(Some(Overflow::Reject)),
        _ => None,
    }
}

/// Returns the option for missing fields for a code, or `None` for an unknown code. 0 leaves the option unset.
pub(crate) fn strategy_of(code: u8) -> Option<Option<MissingFieldsStrategy>>
    ensures { result ≡ strategy_of_code code }
{
    match code {
        0 => Some(None),
        1 => Some(Some(MissingFieldsStrategy::Reject)),
        2 => Some(Some(MissingFieldsStrategy::Ecma)),
        _ => None,
    }
}

/// Returns the largest unit for a code, or `None` for an unknown code. 0 leaves the unit unset.
pub(crate) fn unit_of(code: u8) -> Option<Option<DateDurationUnit>>
    ensures { result ≡ unit_of_code code }
{
    match code {
        0 => Some(None),
        1 => Some(Some(DateDurationUnit::Years)),
        2 => Some(Some(DateDurationUnit::Months)),
        3 => Some(Some(DateDurationUnit::Weeks)),
        4 => Some(Some(DateDurationUnit::Days)),
        _ => None,
    }
}
