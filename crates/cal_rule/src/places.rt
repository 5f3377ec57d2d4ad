//! Places in lists of numbers, with signs.

ghost use Rattle.std.specs.Prelude.{◌≡◌, ◌≤◌, IfOk};
ghost use Rattle.cal_rule.specs.Places.{place_in_range, place_read, signed};
ghost use Rattle.cal_rule.specs.Sets.{number_of};

use crate::place_set::Place;
use crate::value_fault::ValueFault;
use word_values::read_number;

/// The form and the range of a place.
#[derive(Clone, Copy)]
pub(crate) struct PlaceForm {
    /// The greatest number of digits.
    pub digits: u8,
    /// The greatest number.
    pub most: u16,
}

/// Returns whether a number is counted from the back, and its digits: a minus counts from the back, a plus doesn't.
fn signed(item: &[u8]) -> (bool, &[u8])
    ensures { (result.0, result.1.now) ≡ signed item.now }
{
    match item {
        [b'-', digits @ ..] => (true, digits),
        [b'+', digits @ ..] => (false, digits),
        _ => (false, item),
    }
}

/// Returns a place if its number is from 1 to `most`.
fn in_range(from_back: bool, number: u32, most: u16) -> Result<Place, ValueFault>
    ensures value { result ≡ place_in_range most from_back number }
    ensures small { IfOk result (λ place. number_of place ≤ most) }
{
    if number < 1 || number > u32::from(most) {
        return Err(ValueFault::OutOfRange);
    }
    if from_back {
        Ok(Place::FromBack(number as u16))
    } else {
        Ok(Place::FromFront(number as u16))
    }
}

/// Reads a place.
pub(crate) fn read_place(item: &[u8], form: PlaceForm) -> Result<Place, ValueFault>
    requires { form.digits ≤ 3 }
    ensures value { result ≡ place_read form item.now }
    ensures small { IfOk result (λ place. number_of place ≤ form.most) }
{
    let (from_back, digits) = signed(item);
    let number = read_number(digits, usize::from(form.digits)).ok_or(ValueFault::Bad)?;
    in_range(from_back, number, form.most)
}
