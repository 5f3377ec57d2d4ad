//! Laws of request lines and row lines, each proved as the contract of a function that does nothing.
ghost use Rattle.request_lines.specs.Forms.{RequestsHaveOneForm};
ghost use Rattle.request_lines.specs.RowForms.{RowsHaveOneForm};

/// Words are read as a request exactly if they have the form
/// `span CAL SHOWN UNIT OVERFLOW MISSING from FIELDS to FIELDS`, and the request is the one that they spell. `FIELDS`
/// are words `KEY=VALUE` with known keys, no key twice, and valid values. A bag's field is the value of the word with
/// its key.
pub fn requests_have_one_form()
    ensures { RequestsHaveOneForm }
{}

/// The words of a row line are read as a row exactly if they have one of these forms, and the row is the one that
/// they spell: `row china YEAR START LENGTHS LEAP`, the same with `korea`, `row hijri YEAR START LENGTHS`,
/// `row persian YEAR` and `row era YEAR MONTH DAY CODE INDEX`.
pub fn rows_have_one_form()
    ensures { RowsHaveOneForm }
{}
