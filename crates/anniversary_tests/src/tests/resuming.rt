//! A list that is continued after its first days.

use crate::callers::{all_days, first_days};
use crate::tests::expected::{Asked, listed};
use cal_anniversary::anniversaries;
use cal_days::RataDie;
use cal_hebrew::Hebrew;
use cal_types::{Leaping, Month};
use std::alloc::AllocError;

#[test]
fn the_rest_of_a_list_is_the_list_of_the_rest(rt: HostRuntime) -> Result<(), AllocError> {
    let month = Month::leap(5);
    let asked = Asked {
        month,
        day: 10,
        leaping: Leaping::Exact,
        first: 738000,
        last: 740029,
    };
    let Ok(mut list) = listed(Hebrew::new(), asked) else {
        assert!(rt; false);
        return Ok(());
    };
    let taken = first_days(rt.alloc(), &mut list, 1)?;
    assert!(rt; taken.len() == 1 && taken[0] == RataDie::new(738197));
    let Some(rest) = list.rest() else {
        assert!(rt; false);
        return Ok(());
    };
    let Ok(again) = anniversaries(Hebrew::new(), month, 10, Leaping::Exact, rest) else {
        assert!(rt; false);
        return Ok(());
    };
    let left = all_days(rt.alloc(), list)?;
    let resumed = all_days(rt.alloc(), again)?;
    assert!(rt; left.len() == 2 && resumed.len() == 2);
    for (a, b) in left.iter().zip(resumed.iter()) {
        assert!(rt; *a == *b);
    }
    Ok(())
}
