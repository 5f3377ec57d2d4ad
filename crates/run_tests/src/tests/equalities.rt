//! The derived equality of each public type: a value equals itself and no other value.

use byte_io::{Filled, Next, ReadAllError};
use cal_types::{TableFault, TablePart};
use calspan_run::{Answered, Progress, Status, Totals};
use std::process::Abort;
use table_rows::{Gathered, RowError, RowFault, RowsError, Stop, Table, TableRefusal, Taken};

/// Returns whether each value equals itself and no other of the values.
fn are_apart<T: PartialEq>(values: &[T]) -> bool {
    for (i, value) in values.iter().enumerate() {
        for (k, other) in values.iter().enumerate() {
            if (*value == *other) != (i == k) {
                return false;
            }
        }
    }
    true
}

/// Asserts that each value equals itself and no other of the values.
fn assert_apart<T: PartialEq>(rt: &impl Abort, values: &[T]) {
    assert!(rt; are_apart(values));
}

#[test]
fn values_of_reading_equal_themselves_alone(rt: HostRuntime) {
    assert_apart(&rt, &[Next::Line, Next::Spent, Next::TooLong]);
    assert_apart(&rt, &[Filled::Some, Filled::End, Filled::Fault]);
    assert_apart(
        &rt,
        &[
            ReadAllError::Fault,
            ReadAllError::TooLong,
            ReadAllError::NoMemory,
        ],
    );
}

#[test]
fn values_of_rows_equal_themselves_alone(rt: HostRuntime) {
    assert_apart(&rt, &[RowFault::Syntax, RowFault::Range, RowFault::Late]);
    assert_apart(
        &rt,
        &[Table::China, Table::Korea, Table::Hijri, Table::Persian],
    );
    assert_apart(&rt, &[Stop::ReadFault, Stop::TooLong, Stop::NoMemory]);
    assert_apart(
        &rt,
        &[
            Taken::Kept,
            Taken::Refused(RowFault::Syntax),
            Taken::Refused(RowFault::Range),
            Taken::NoMemory,
        ],
    );
    assert_apart(
        &rt,
        &[
            Gathered::Request,
            Gathered::LastRequest,
            Gathered::End,
            Gathered::Refused(1, RowFault::Syntax),
            Gathered::Refused(2, RowFault::Syntax),
            Gathered::Refused(1, RowFault::Range),
            Gathered::Stopped(Stop::ReadFault),
            Gathered::Stopped(Stop::TooLong),
        ],
    );
}

#[test]
fn errors_of_rows_equal_themselves_alone(rt: HostRuntime) {
    assert_apart(
        &rt,
        &[
            RowError::Row(RowFault::Syntax),
            RowError::Row(RowFault::Range),
            RowError::NoRow,
            RowError::LongLine,
            RowError::NoMemory,
        ],
    );
    assert_apart(
        &rt,
        &[
            RowsError::Row {
                line: 1,
                why: RowFault::Syntax,
            },
            RowsError::Row {
                line: 2,
                why: RowFault::Syntax,
            },
            RowsError::Row {
                line: 1,
                why: RowFault::Range,
            },
            RowsError::NoRow { line: 1 },
            RowsError::NoRow { line: 2 },
            RowsError::LongLine { line: 1 },
            RowsError::LongLine { line: 2 },
            RowsError::NoMemory,
            RowsError::TooLong,
        ],
    );
}

/// Returns a refusal of a table.
fn refusal(table: Table, row: usize, part: TablePart) -> TableRefusal {
    TableRefusal {
        table,
        fault: TableFault { row, part },
    }
}

#[test]
fn refusals_of_tables_equal_themselves_alone(rt: HostRuntime) {
    assert_apart(
        &rt,
        &[
            refusal(Table::Hijri, 1, TablePart::End),
            refusal(Table::China, 1, TablePart::End),
            refusal(Table::Hijri, 2, TablePart::End),
            refusal(Table::Hijri, 1, TablePart::Join),
        ],
    );
}

#[test]
fn values_of_runs_equal_themselves_alone(rt: HostRuntime) {
    assert_apart(
        &rt,
        &[
            Status::Done,
            Status::Refused,
            Status::Words,
            Status::ReadFault,
            Status::WriteFault,
            Status::NoMemory,
            Status::TableRefused,
            Status::TooLong,
        ],
    );
    let refused = Progress { refused: true };
    assert_apart(&rt, &[Progress::new(), refused]);
    assert_apart(
        &rt,
        &[
            Answered::GoesOn(Progress::new()),
            Answered::GoesOn(refused),
            Answered::Stopped,
        ],
    );
}

/// Returns totals with these fields.
fn totals(answered: u32, refused: u32, day_numbers: i64, units: [u64; 4]) -> Totals {
    let [years, months, weeks, days] = units;
    Totals {
        answered,
        refused,
        day_numbers,
        years,
        months,
        weeks,
        days,
    }
}

#[test]
fn totals_equal_themselves_alone(rt: HostRuntime) {
    assert_apart(
        &rt,
        &[
            totals(0, 0, 0, [0, 0, 0, 0]),
            totals(1, 0, 0, [0, 0, 0, 0]),
            totals(0, 1, 0, [0, 0, 0, 0]),
            totals(0, 0, 1, [0, 0, 0, 0]),
            totals(0, 0, 0, [1, 0, 0, 0]),
            totals(0, 0, 0, [0, 1, 0, 0]),
            totals(0, 0, 0, [0, 0, 1, 0]),
            totals(0, 0, 0, [0, 0, 0, 1]),
        ],
    );
}
