//! The default of the Ethiopian calendar, of which no clause speaks.

use crate::tests::expected::{assert_holds, assert_same};
use cal_base::Calendar;
use cal_coptic::{Ethiopian, EthiopianEraStyle};

#[test]
fn the_default_is_amete_mihret(rt: HostRuntime) {
    assert_holds(&rt, "the default", Ethiopian::default() == Ethiopian::new());
    assert_same(
        &rt,
        Ethiopian::default().era_style(),
        EthiopianEraStyle::AmeteMihret,
    );
    assert_holds(
        &rt,
        "the order of styles",
        EthiopianEraStyle::AmeteMihret < EthiopianEraStyle::AmeteAlem,
    );
    assert_same(&rt, Ethiopian::default().debug_name(), "Ethiopian");
}
