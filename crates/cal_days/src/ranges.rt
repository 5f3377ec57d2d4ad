//! The ranges of days, years and durations, and a test for each range.

ghost use Rattle.std.specs.Prelude.{◌≡◌};
ghost use Rattle.cal_days.specs.Day.{
  is_valid_day,
  is_field_year,
  is_rule_year,
  is_constructor_year,
  is_covered_year,
  are_addable_years,
  are_addable_months,
  are_addable_days,
};

/// The first valid day: -999999-01-01 in the proleptic Gregorian calendar.
pub const FIRST_VALID_DAY: i64 = -365242499;

/// The last valid day: 999999-12-31 in the proleptic Gregorian calendar.
pub const LAST_VALID_DAY: i64 = 365242134;

/// The greatest absolute value of a year that the fields of a date may name. In every calendar, the years of valid
/// days are within it.
pub const MAX_FIELD_YEAR: i32 = 1040000;

/// The greatest absolute value of a year for which the year rules are used: a field year plus the difference of any
/// two valid days, and more.
pub const MAX_RULE_YEAR: i32 = 8000000;

/// The greatest absolute value of a year that constructors accept.
pub const MAX_CONSTRUCTOR_YEAR: i32 = 9999;

/// The greatest absolute value of an extended year up to which every day of every calendar is valid, so that checking
/// the year is enough. The extended year of an era year that a constructor accepts is within it, too.
pub const MAX_COVERED_YEAR: i32 = 980000;

/// The greatest number of years that can be added: from one field year to any other, 2 * 1040000.
pub const MAX_ADDED_YEARS: u32 = 2080000;

/// The greatest number of months that can be added: 2080000 years of 13 months, 13 * 2080000.
pub const MAX_ADDED_MONTHS: u32 = 27040000;

/// The greatest number of days that can be added, counting a week as seven days: 31 * 27040000, for 27040000 months
/// of 31 days.
pub const MAX_ADDED_DAYS: u32 = 838240000;

/// Returns whether a day number is valid: whether it is from -365242499 to 365242134.
pub const fn is_valid_day(day: i64) -> bool
    ensures { result ≡ is_valid_day day }
{
    FIRST_VALID_DAY <= day && day <= LAST_VALID_DAY
}

/// Returns whether the fields of a date may name a year: whether it is from -1040000 to 1040000.
pub const fn is_field_year(year: i32) -> bool
    ensures { result ≡ is_field_year year }
{
    -MAX_FIELD_YEAR <= year && year <= MAX_FIELD_YEAR
}

/// Returns whether the year rules are used for a year: whether it is from -8000000 to 8000000.
pub const fn is_rule_year(year: i32) -> bool
    ensures { result ≡ is_rule_year year }
{
    -MAX_RULE_YEAR <= year && year <= MAX_RULE_YEAR
}

/// Returns whether constructors accept a year: whether it is from -9999 to 9999.
pub const fn is_constructor_year(year: i32) -> bool
    ensures { result ≡ is_constructor_year year }
{
    -MAX_CONSTRUCTOR_YEAR <= year && year <= MAX_CONSTRUCTOR_YEAR
}

/// Returns whether every day of an extended year is valid in every calendar: whether it is from -980000 to 980000.
pub const fn is_covered_year(year: i32) -> bool
    ensures { result ≡ is_covered_year year }
{
    -MAX_COVERED_YEAR <= year && year <= MAX_COVERED_YEAR
}

/// Returns whether this many years can be added: whether there are at most 2080000.
pub const fn are_addable_years(count: u32) -> bool
    ensures { result ≡ are_addable_years count }
{
    count <= MAX_ADDED_YEARS
}

/// Returns whether this many months can be added: whether there are at most 27040000.
pub const fn are_addable_months(count: u32) -> bool
    ensures { result ≡ are_addable_months count }
{
    count <= MAX_ADDED_MONTHS
}

/// Returns whether this many days can be added, counting a week as seven days: whether there are at most 838240000.
pub const fn are_addable_days(count: u64) -> bool
    ensures { result ≡ are_addable_days count }
{
    count <= MAX_ADDED_DAYS as u64
}
