//! Invalid records, by their number and their first invalid field.

use cal_holidays::{Book, BookError};

/// Texts, and the number and the field of the error.
const REFUSED: [(&[u8], usize, u8); 34] = [
    (b"fixed,X,klingon,M01,1,exact", 1, 3),
    (b"easter,X,gregorian", 1, 0),
    (b"easter,X,gregorian,,0,\neaster,Y,gregorian", 2, 0),
    (b"easter,X,gregorian,,0,,,,,,", 1, 0),
    (
        b"easter,X,gregorian,,0,\nfixed,,iso,M01,1,exact\n\nfree",
        2,
        2,
    ),
    (b"\r\n\n,,,,,\n", 1, 1),
    (b"Easter,X,gregorian,,0,", 1, 1),
    (b"fixed,X,iso,M13,1,exact", 1, 4),
    (b"fixed,X,hebrew,M06L,1,exact", 1, 4),
    (b"fixed,X,iso,M01,32,exact", 1, 5),
    (b"fixed,X,iso,M01,031,exact", 1, 5),
    (b"fixed,X,iso,M01,01,Exact", 1, 6),
    (b"easter,X,iso,,0,", 1, 3),
    (b"easter,X,julian,M01,401,", 1, 4),
    (b"easter,X,julian,,-401,", 1, 5),
    (b"easter,X,julian,,0,exact", 1, 6),
    (b"weekday,X,iso,M02,01,sunday", 1, 5),
    (b"weekday,X,iso,M02,1,day", 1, 6),
    (b"span,X,iso,M13,1,sunday", 1, 4),
    (b"span,X,iso,M11,0,sunday", 1, 5),
    (b"span,X,iso,M11,27,--sunday", 1, 6),
    (b"span,X,iso,M11,27,+sunday", 1, 6),
    (b"easter,X,gregorian,,0,exact,x", 1, 6),
    (b"easter,X,gregorian,,0,,1000000", 1, 7),
    (b"easter,X,gregorian,,0,,+1", 1, 7),
    (b"easter,X,gregorian,,0,,-,x", 1, 7),
    (b"easter,X,gregorian,,0,,1,-0000001", 1, 8),
    (b"easter,X,gregorian,,0,,,,2,x", 1, 9),
    (b"easter,X,gregorian,,0,,1,,401", 1, 9),
    (b"easter,X,gregorian,,0,,1,,0", 1, 9),
    (b"easter,X,gregorian,,0,,,,,saturday-7", 1, 10),
    (b"easter,X,gregorian,,0,,,,,saturday-1  sunday+1", 1, 10),
    (b"easter,X,gregorian,,0,,,,,sunday+1 sunday+1", 1, 10),
    (
        b"easter,X,gregorian,,0,\neaster,X,gregorian,,0,,,,,saturday1",
        2,
        10,
    ),
];

/// Texts with one valid record.
const READ: [&[u8]; 13] = [
    b"fixed,X,coptic,M13,1,exact",
    b"fixed,X,hebrew,M05L,1,exact",
    b"fixed,X,chinese,M12L,01,constrain",
    b"easter,X,julian,,-400,",
    b"easter, ,gregorian,,400,\r\n",
    b"weekday,X,iso,M02,5,monday",
    b"\xef\xbb\xbfweekday,X,iso,M02,-1,sunday\n\n",
    b"easter,X,gregorian,,0,,",
    b"easter,X,gregorian,,0,,,,,",
    b"easter,X,gregorian,,0,,-999999,999999,400,",
    b"easter,X,gregorian,,0,,000001,-0,001,sunday+0",
    b"span,X,iso,M02,31,-saturday,,,,monday-6 tuesday+6",
    b"span,X,hebrew,M05L,01,monday,5000",
];

#[test]
fn the_first_bad_field_of_the_first_bad_record_is_told(rt: HostRuntime) {
    for (text, number, field) in &REFUSED {
        let expected = BookError::Record {
            number: *number,
            field: *field,
        };
        match Book::try_read(rt.alloc(), text) {
            Ok(_) => assert!(rt; false),
            Err(e) => assert!(rt; e == expected),
        }
    }
}

#[test]
fn the_ends_of_each_fields_range_are_read(rt: HostRuntime) {
    for text in &READ {
        match Book::try_read(rt.alloc(), text) {
            Ok(book) => assert_eq!(rt; book.len(), 1),
            Err(_) => assert!(rt; false),
        }
    }
}
