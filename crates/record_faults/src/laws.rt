//! The laws of first invalid fields, proved as contracts of functions that do nothing.

ghost use Rattle.record_faults.specs.FieldTexts.{TextsThatMayStand};
ghost use Rattle.record_faults.specs.FirstFields.{FieldsAreFirst};

/// A record has no fault exactly if it is valid. Otherwise some valid record begins with the fields before the fault, and
/// none begins with these and the invalid field behind them. The number of the fault is 0 exactly if no valid record has
/// as many fields.
pub fn fields_are_first()
    ensures { FieldsAreFirst }
{}

/// A text is what may stand in the invalid field exactly if some valid record begins with the fields before it and has
/// the text there.
pub fn texts_that_may_stand()
    ensures { TextsThatMayStand }
{}
