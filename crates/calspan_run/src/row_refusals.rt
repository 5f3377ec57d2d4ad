//! The lines for invalid rows and tables.
ghost use Rattle.std.specs.Prelude.{◌≡◌, ◌+◌, ◌≤◌, ◌++◌, length};
ghost use Rattle.arrayvec.specs.ArrayVec.{array_vec_len};
ghost use Rattle.calspan_run.specs.TableTexts.{part_text, row_fault_text, row_refusal, table_refusal, table_text};

use cal_types::TablePart;
use reply_texts::{Pending, push_about};
use table_rows::{RowFault, Table, TableRefusal};

/// Returns the word for a fault of a row line.
fn row_fault_word(why: RowFault) -> &'static [u8]
    ensures word { result.now ≡ row_fault_text why }
    ensures short { length result.now ≤ 10 }
{
    match why {
        RowFault::Syntax => b"syntax",
        RowFault::Range => b"range",
        RowFault::Late => b"late",
    }
}

/// Returns the words before a row's number in the line for an invalid table.
fn table_words(table: Table) -> &'static [u8]
    ensures words { result.now ≡ table_text table }
    ensures short { length result.now ≤ 20 }
{
    match table {
        Table::China => b"table china ",
        Table::Korea => b"table korea ",
        Table::Hijri => b"table hijri ",
        Table::Persian => b"table persian ",
    }
}

/// Returns the word for a part of a row.
fn part_word(part: TablePart) -> &'static [u8]
    ensures word { result.now ≡ part_text part }
    ensures short { length result.now ≤ 10 }
{
    match part {
        TablePart::Range => b"range",
        TablePart::Year => b"year",
        TablePart::Join => b"join",
        TablePart::End => b"end",
        TablePart::Leap => b"leap",
        TablePart::Rule => b"rule",
    }
}

/// Appends the line for an invalid row line, such as `table line 3 syntax`.
pub fn push_row_refusal(text: &mut Pending, number: u64, why: RowFault)
    requires { array_vec_len text.old + 50 ≤ 8192 }
    ensures { text.new.items ≡ text.old.items ++ row_refusal number why }
{
    push_about(text, b"table line ", number, row_fault_word(why));
}

/// Appends the line for an invalid table, such as `table hijri 1 end`.
pub fn push_table_refusal(text: &mut Pending, refusal: TableRefusal)
    requires { array_vec_len text.old + 60 ≤ 8192 }
    ensures { text.new.items ≡ text.old.items ++ table_refusal refusal.table refusal.fault }
{
    push_about(
        text,
        table_words(refusal.table),
        refusal.fault.row as u64,
        part_word(refusal.fault.part),
    );
}
