//! Defaults of bags of fields and of options.

use crate::tests::expected::{assert_holds, assert_same};
use cal_types::{
    DateAddOptions, DateDifferenceOptions, DateFields, DateFromFieldsOptions,
    MissingFieldsStrategy, Overflow,
};

#[test]
fn the_default_has_no_fields(rt: HostRuntime) {
    let none = DateFields::default();
    let has_no_year = none.era.is_none() && none.era_year.is_none() && none.extended_year.is_none();
    assert_holds(&rt, "year", has_no_year);
    let has_no_month = none.month.is_none()
        && none.month_code.is_none()
        && none.ordinal_month.is_none();
    assert_holds(&rt, "month", has_no_month);
    assert_holds(&rt, "day", none.day.is_none());
}

#[test]
fn defaults_leave_options_out_and_reject(rt: HostRuntime) {
    assert_same(&rt, Overflow::default(), Overflow::Reject);
    assert_same(
        &rt,
        MissingFieldsStrategy::default(),
        MissingFieldsStrategy::Reject,
    );
    let fields = DateFromFieldsOptions::default();
    assert_same(&rt, fields.overflow, None);
    assert_same(&rt, fields.missing_fields_strategy, None);
    assert_same(&rt, DateAddOptions::default().overflow, None);
    assert_same(&rt, DateDifferenceOptions::default().largest_unit, None);
}
