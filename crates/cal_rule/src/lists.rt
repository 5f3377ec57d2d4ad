//! Lists of values, which commas join, as sets.

ghost use Rattle.std.specs.Prelude.{◌<◌, ◌≤◌, ◌*◌};
ghost use Rattle.cal_rule.specs.Lists.{IsSetRead, list_read};
ghost use Rattle.cal_rule.specs.Months.{month_read};
ghost use Rattle.cal_rule.specs.Places.{place_read};
ghost use Rattle.cal_rule.specs.Sets.{has_month, has_place, has_weekday, is_month, is_place, is_weekday_place};
ghost use Rattle.cal_rule.specs.WeekdayItems.{weekday_item_read};

use crate::month_set::MonthSet;
use crate::months::read_month;
use crate::pieces::cut;
use crate::place_set::PlaceSet;
use crate::places::{PlaceForm, read_place};
use crate::value_fault::ValueFault;
use crate::weekday_items::read_weekday_item;
use crate::weekday_places::WeekdayPlaces;
use cal_kinds::AnyCalendarKind;

/// Reads a list of places.
pub(crate) fn read_places<const WORDS: usize>(
    text: &[u8],
    form: PlaceForm,
) -> Result<PlaceSet<WORDS>, ValueFault>
    requires digits { form.digits ≤ 3 }
    requires most { form.most < 64 * WORDS }
    ensures { IsSetRead has_place is_place result (list_read (place_read form) text.now) }
{
    let mut set = PlaceSet::new();
    let mut rest = Some(text);
    'items: while let Some(left) = rest {
        let (item, others) = cut(left, b',');
        let place = read_place(item, form)?;
        set.insert(place);
        rest = others;
    }
    Ok(set)
}

/// Reads a list of months of a kind of calendar.
pub(crate) fn read_months(text: &[u8], kind: AnyCalendarKind) -> Result<MonthSet, ValueFault>
    ensures { IsSetRead has_month is_month result (list_read (month_read kind) text.now) }
{
    let mut set = MonthSet::new();
    let mut rest = Some(text);
    'items: while let Some(left) = rest {
        let (item, others) = cut(left, b',');
        let month = read_month(item, kind)?;
        set.insert(month);
        rest = others;
    }
    Ok(set)
}

/// Reads a list of weekdays, whose ordinals are at most `most`.
pub(crate) fn read_weekdays(text: &[u8], most: u16) -> Result<WeekdayPlaces, ValueFault>
    requires { most < 64 }
    ensures { IsSetRead has_weekday is_weekday_place result (list_read (weekday_item_read most) text.now) }
{
    let mut set = WeekdayPlaces::new();
    let mut rest = Some(text);
    'items: while let Some(left) = rest {
        let (item, others) = cut(left, b',');
        let weekday = read_weekday_item(item, most)?;
        set.insert(weekday);
        rest = others;
    }
    Ok(set)
}
