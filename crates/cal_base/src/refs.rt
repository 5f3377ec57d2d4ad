//! Pointers to calendars.

ghost use Rattle.std.specs.Prelude.{◌≡◌, ⊤};

use crate::calendar::AsCalendar;
use std::alloc::AllocError;
use std::ops::Deref;
use std::rc::Rc;

/// A borrowed calendar.
#[derive(PartialEq, Eq, Debug)]
pub struct Ref<'a, C>(pub &'a C);

impl<'a, C> Copy for Ref<'a, C> {}

impl<'a, C> Clone for Ref<'a, C> {
    ghost is_clone = { λ r s. s ≡ r };

    ghost is_infallible = { λ _. ⊤ };

    fn clone(&self) -> Result<Ref<'a, C>, AllocError> {
        Ok(*self)
    }
}

impl<'a, C> Deref for Ref<'a, C> {
    type Target = C;

    ghost deref_gives = { λ r x. x ≡ r.0.now };

    fn deref(&self) -> &C {
        self.0
    }
}

impl<'a, C: AsCalendar> AsCalendar for Ref<'a, C> {
    type Calendar = C::Calendar;

    ghost cal_of = { λ r. C.cal_of r.0.now };

    fn as_calendar(&self) -> &C::Calendar {
        self.0.as_calendar()
    }
}

impl<C: AsCalendar> AsCalendar for Rc<C> {
    type Calendar = C::Calendar;

    ghost cal_of = { λ r. C.cal_of r.value };

    fn as_calendar(&self) -> &C::Calendar {
        (**self).as_calendar()
    }
}
