//! Weekdays in lists.

ghost use Rattle.std.specs.Prelude.{◌≡◌, ◌<◌, ◌≤◌, IfOk};
ghost use Rattle.std.specs.Option.{ForSome};
ghost use Rattle.cal_rule.specs.Sets.{number_of};
ghost use Rattle.cal_rule.specs.WeekdayItems.{before_letters, ordinal_read, weekday_item_read};

use crate::place_set::Place;
use crate::places::{PlaceForm, read_place};
use crate::value_fault::ValueFault;
use crate::weekday_places::WeekdayPlace;
use crate::weekdays::weekday_named;

/// Reads the ordinal before a weekday, if there is one.
fn read_ordinal(text: &[u8], most: u16) -> Result<Option<Place>, ValueFault>
    ensures value { result ≡ ordinal_read most text.now }
    ensures small { IfOk result (λ ordinal. ForSome ordinal (λ place. number_of place ≤ most)) }
{
    if text.is_empty() {
        return Ok(None);
    }
    let place = read_place(text, PlaceForm { digits: 2, most })?;
    Ok(Some(place))
}

/// Returns what stands before the last two bytes, and these.
fn before_letters(item: &[u8]) -> (&[u8], &[u8])
    ensures { (result.0.now, result.1.now) ≡ before_letters item.now }
{
    item.split_at(item.len().saturating_sub(2))
}

/// Reads a weekday with its ordinal, or without one.
pub(crate) fn read_weekday_item(item: &[u8], most: u16) -> Result<WeekdayPlace, ValueFault>
    ensures value { result ≡ weekday_item_read most item.now }
    ensures small { IfOk result (λ w. ForSome w.ordinal (λ place. number_of place ≤ most)) }
{
    let (ordinal, letters) = before_letters(item);
    let day = weekday_named(letters).ok_or(ValueFault::Bad)?;
    let ordinal = read_ordinal(ordinal, most)?;
    Ok(WeekdayPlace { day, ordinal })
}
