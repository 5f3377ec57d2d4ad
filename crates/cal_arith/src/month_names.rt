//! How a bag of fields names its month.

ghost use Rattle.std.specs.Prelude.{◌≡◌, option_map};
ghost use Rattle.cal_types.specs.MonthParts.{month_parts};
ghost use Rattle.cal_types.specs.Resolving.{month_named};
ghost use Rattle.cal_arith.specs.FieldNames.{month_name, seen};

use cal_types::{DateFromFieldsError, Month};

/// The field by which a bag names its month.
#[derive(Clone, Copy, Debug)]
pub enum NamedMonth<'a> {
    /// A month.
    Month(Month),
    /// A month code, whose syntax isn't checked yet.
    Code(&'a [u8]),
    /// An ordinal month, without a month or a month code.
    Ordinal(u8),
}

/// A year, and how its month is named.
#[derive(Clone, Copy, Debug)]
pub struct MonthOfYear<'a, Y> {
    /// The year.
    pub year: Y,
    /// The month.
    pub month: NamedMonth<'a>,
}

/// Returns how a bag names its month. A month or a month code takes precedence over an ordinal month.
///
/// # Errors
///
/// - [`DateFromFieldsError::TooManyFields`] if the bag has both a month and a month code;
/// - [`DateFromFieldsError::NotEnoughFields`] if month, month code and ordinal month are all missing.
pub(crate) fn named_month<'a>(
    month: Option<Month>,
    month_code: Option<&'a [u8]>,
    ordinal_month: Option<u8>,
) -> Result<NamedMonth<'a>, DateFromFieldsError>
    ensures { let code = option_map (λ bytes. bytes.now) month_code.entry in
        seen month_name result ≡ month_named (option_map month_parts month) code ordinal_month }
{
    match (month, month_code, ordinal_month) {
        (Some(_), Some(_), _) => Err(DateFromFieldsError::TooManyFields),
        (Some(month), None, _) => Ok(NamedMonth::Month(month)),
        (None, Some(code), _) => Ok(NamedMonth::Code(code)),
        (None, None, Some(place)) => Ok(NamedMonth::Ordinal(place)),
        (None, None, None) => Err(DateFromFieldsError::NotEnoughFields),
    }
}
