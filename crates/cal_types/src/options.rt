//! The options of ECMAScript Temporal for fields, sums and differences of dates.

use crate::duration::DateDurationUnit;

/// How to handle a month or day that doesn't exist. (ECMAScript Temporal, `overflow`)
#[derive(Clone, Copy, Debug, PartialEq)]
pub enum Overflow {
    /// Use the nearest one that exists.
    Constrain,
    /// Fail.
    Reject,
}

/// The default is [`Overflow::Reject`].
impl Default for Overflow {
    ghost use Rattle.std.specs.Prelude.{◌≡◌};
    ghost use Rattle.cal_types.specs.declared.options.Overflow.TheVariants.{Reject};

    ghost is_default = { λ overflow. overflow ≡ Reject };

    fn default() -> Overflow {
        Overflow::Reject
    }
}

/// How to handle missing fields.
#[derive(Clone, Copy, Debug, PartialEq)]
pub enum MissingFieldsStrategy {
    /// Fail.
    Reject,
    /// Supply a reference year for a missing year, or day 1 for a missing day, as Temporal's `PlainMonthDay` and
    /// `PlainYearMonth` do.
    Ecma,
}

/// The default is [`MissingFieldsStrategy::Reject`].
impl Default for MissingFieldsStrategy {
    ghost use Rattle.std.specs.Prelude.{◌≡◌};
    ghost use Rattle.cal_types.specs.declared.options.MissingFieldsStrategy.TheVariants.{Reject};

    ghost is_default = { λ strategy. strategy ≡ Reject };

    fn default() -> MissingFieldsStrategy {
        MissingFieldsStrategy::Reject
    }
}

/// Options for creating a date from fields. `None` stands for the default.
#[derive(Clone, Copy, Debug, PartialEq)]
pub struct DateFromFieldsOptions {
    /// How to handle a month or day that doesn't exist. The default is [`Overflow::Reject`].
    pub overflow: Option<Overflow>,
    /// How to handle a missing year or day. The default is [`MissingFieldsStrategy::Reject`].
    pub missing_fields_strategy: Option<MissingFieldsStrategy>,
}

/// Leaves both options unset.
impl Default for DateFromFieldsOptions {
    ghost use Rattle.std.specs.Prelude.{◌≡◌, None};

    ghost is_default = { λ options. (options.overflow ≡ None) × (options.missing_fields_strategy ≡ None) };

    fn default() -> DateFromFieldsOptions {
        DateFromFieldsOptions {
            overflow: None,
            missing_fields_strategy: None,
        }
    }
}

/// Options for adding a duration. `None` stands for the default.
#[derive(Clone, Copy, Debug, PartialEq)]
pub struct DateAddOptions {
    /// How to handle a month or day that doesn't exist after years and months are added. The default is
    /// [`Overflow::Constrain`].
    pub overflow: Option<Overflow>,
}

/// Leaves the option unset.
impl Default for DateAddOptions {
    ghost use Rattle.std.specs.Prelude.{◌≡◌, None};

    ghost is_default = { λ options. options.overflow ≡ None };

    fn default() -> DateAddOptions {
        DateAddOptions { overflow: None }
    }
}

/// Options for a difference. `None` stands for the default.
#[derive(Clone, Copy, Debug, PartialEq)]
pub struct DateDifferenceOptions {
    /// The largest unit of the duration. The default is [`DateDurationUnit::Days`].
    pub largest_unit: Option<DateDurationUnit>,
}

/// Leaves the option unset.
impl Default for DateDifferenceOptions {
    ghost use Rattle.std.specs.Prelude.{◌≡◌, None};

    ghost is_default = { λ options. options.largest_unit ≡ None };

    fn default() -> DateDifferenceOptions {
        DateDifferenceOptions { largest_unit: None }
    }
}
