//! Lists of `rrule`: rules of iCalendar. The expected lines are of an independent program over the RFCs.

use crate::tests::runs::{Case, assert_cases, assert_no_commands, assert_pieces};
use calspan_run::Status;
use std::test::Fail;

/// The most bytes that a call gives or takes.
const SIZES: [usize; 2] = [7, 4096];

/// A list of each frequency, with parts of every kind.
const RULES: [Case; 7] = [
    Case {
        words: &[
            "rrule",
            "iso",
            "iso",
            "697337",
            "699668",
            "year=1915",
            "month=M08",
            "day=31",
            "SKIP=BACKWARD;BYWEEKNO=23,49;FREQ=YEARLY;UNTIL=19280708",
        ],
        input: b"",
        text: b"0 1915/default.1915/M12/07@699414 1915/default.1915/M12/07@699414
1 1916/default.1916/M06/06@699596 1916/default.1916/M06/06@699596
",
        status: Status::Done,
    },
    Case {
        words: &[
            "rrule",
            "islamic-simulated",
            "chinese",
            "235",
            "273",
            "243",
            "BYSETPOS=-1,2;BYMONTH=2;COUNT=3;FREQ=WEEKLY;INTERVAL=1",
        ],
        input: b"",
        text: b"0 -639/bh.640/M02/01@250 1/cycle.58/M08/03@250
1 -639/bh.640/M02/08@257 1/cycle.58/M08/10@257
2 -639/bh.640/M02/15@264 1/cycle.58/M08/17@264
",
        status: Status::Done,
    },
    Case {
        words: &[
            "rrule",
            "hebrew",
            "roc",
            "723509",
            "724276",
            "721621",
            "FREQ=YEARLY;BYSETPOS=2;SKIP=OMIT;BYDAY=TU,SU;BYMONTH=12,5L",
        ],
        input: b"",
        text: b"5 5742/am.5742/M12/05@723781 71/roc.71/M08/24@723781
6 5743/am.5743/M12/07@724138 72/roc.72/M08/16@724138
",
        status: Status::Done,
    },
    Case {
        words: &[
            "rrule",
            "persian",
            "roc",
            "698523",
            "700942",
            "year=1286",
            "month=M04",
            "day=13",
            "UNTIL=19220115;INTERVAL=2;FREQ=YEARLY;RSCALE=PERSIAN;WKST=SU;SKIP=BACKWARD",
        ],
        input: b"",
        text: b"3 1292/ap.1292/M04/13@698528 2/roc.2/M07/04@698528
4 1294/ap.1294/M04/13@699259 4/roc.4/M07/05@699259
5 1296/ap.1296/M04/13@699989 6/roc.6/M07/04@699989
6 1298/ap.1298/M04/13@700720 8/roc.8/M07/05@700720
",
        status: Status::Done,
    },
    Case {
        words: &[
            "rrule",
            "islamic-simulated",
            "gregorian",
            "740881",
            "741137",
            "740424",
            "BYMONTHDAY=13;FREQ=DAILY;INTERVAL=6",
        ],
        input: b"",
        text: b"2 1451/ah.1451/M07/13@741036 2029/ce.2029/M11/20@741036
3 1451/ah.1451/M08/13@741066 2029/ce.2029/M12/20@741066
",
        status: Status::Done,
    },
    Case {
        words: &[
            "rrule",
            "islamic-simulated",
            "chinese",
            "-4870",
            "-328",
            "-636",
            "BYDAY=3WE,-2WE;SKIP=BACKWARD;FREQ=YEARLY",
        ],
        input: b"",
        text: b"0 -642/bh.643/M12/18@-501 -1/cycle.56/M07/20@-501
1 -641/bh.642/M01/16@-473 -1/cycle.56/M08/19@-473
",
        status: Status::Done,
    },
    Case {
        words: &[
            "rrule",
            "islamic-simulated",
            "iso",
            "-433",
            "-306",
            "-607",
            "COUNT=60;WKST=SU;INTERVAL=4;BYDAY=4WE,-1SA;FREQ=MONTHLY;SKIP=FORWARD",
        ],
        input: b"",
        text: b"4 -641/bh.642/M05/24@-347 0/default.0/M01/19@-347
5 -641/bh.642/M05/27@-344 0/default.0/M01/22@-344
",
        status: Status::Done,
    },
];

/// A refusal of each kind.
const REFUSED: [(&[&str], &[u8]); 16] = [
    (
        &[
            "rrule",
            "hebrew",
            "chinese",
            "683",
            "775",
            "year=2024",
            "BYDAY=4TU;FREQ=MONTHLY;BYMONTH=5L",
        ],
        b"err NotEnoughFields\n",
    ),
    (
        &[
            "rrule",
            "julian",
            "indian",
            "365242134",
            "365242134",
            "365240595",
            "BYDAY=28WE;FREQ=YEARLY;RSCALE=dangi",
        ],
        b"err MismatchedCalendar\n",
    ),
    (
        &[
            "rrule",
            "persian",
            "iso",
            "713408",
            "714681",
            "712698",
            "WKST=SA;COUNT=0;INTERVAL=3",
        ],
        b"err ValueOutOfRange COUNT\n",
    ),
    (
        &[
            "rrule",
            "persian",
            "islamic-tbla",
            "712712",
            "721460",
            "year=1270",
            "month=M10",
            "day=1",
            "FREQ=",
        ],
        b"err BadValue FREQ\n",
    ),
    (
        &[
            "rrule",
            "indian",
            "iso",
            "718399",
            "365242135",
            "-365242500",
            "BYDAY=2TU;FREQ=YEARLY;FREQ=Monthly",
        ],
        b"err InvalidWindow\n",
    ),
    (
        &[
            "rrule",
            "dangi",
            "islamic-simulated",
            "-198",
            "-178",
            "-178",
            "FREQ=DAILY;BYMONTH=12L;BYDAY=10WE",
        ],
        b"err OrdinalNotAllowed\n",
    ),
    (
        &[
            "rrule",
            "roc",
            "iso",
            "11535",
            "15344",
            "1807",
            "FREQ=daily;RSCALE=ROC;FREQ=YEARLY",
        ],
        b"err RepeatedPart FREQ\n",
    ),
    (
        &[
            "rrule",
            "dangi",
            "japanese",
            "176",
            "367",
            "-110",
            "FREQ=MONTHLY;BYYEARDAY=376",
        ],
        b"err PartNotAllowed BYYEARDAY\n",
    ),
    (
        &[
            "rrule",
            "chinese",
            "gregorian",
            "679107",
            "746528",
            "712438",
            "BYWEEKNO=51;INTERVAL=36;BYDAY=-13FR",
        ],
        b"err MissingPart FREQ\n",
    ),
    (
        &[
            "rrule",
            "iso",
            "iso",
            "699684",
            "699687",
            "699699",
            "byhour=x;SKIP=OMIT;FREQ=DAILY",
        ],
        b"err TimeNotSupported BYHOUR\n",
    ),
    (
        &[
            "rrule",
            "gregorian",
            "iso",
            "743262",
            "743518",
            "365242135",
            "FREQ=YEARLY;BYDAY=MO",
        ],
        b"err Overflow\n",
    ),
    (
        &[
            "rrule",
            "julian",
            "julian",
            "718015",
            "718097",
            "718207",
            "WKST=FR;FREQ=DAILY;COUNT=3;UNTIL=20240101;INTERVAL=5",
        ],
        b"err CountWithUntil\n",
    ),
    (
        &[
            "rrule",
            "persian",
            "iso",
            "-16338",
            "-12310",
            "1206",
            "WKST=TU;BYYEARDAY=126;RSCALE=-;INTERVAL=7;BYMONTHDAY=31",
        ],
        b"err UnknownCalendar\n",
    ),
    (
        &[
            "rrule",
            "roc",
            "iso",
            "694681",
            "698391",
            "703749",
            "UNTIL=19160304;FREQ=YEARLY;BYSETPOS=1",
        ],
        b"err SetPosAlone\n",
    ),
    (
        &[
            "rrule",
            "hebrew",
            "julian",
            "365241530",
            "365241552",
            "year=1003746",
            "month=M12",
            "day=1",
            "RSCALE=hebrew;RDATE=20200101;INTERVAL=4",
        ],
        b"err UnknownPart\n",
    ),
    (
        &[
            "rrule",
            "dangi",
            "persian",
            "730407",
            "730726",
            "year=2006",
            "month=M08L",
            "day=6",
            "SKIP=FORWARD;BYMONTH=11,12,4;",
        ],
        b"err BadPart\n",
    ),
];

/// Words off the form.
const OFF_THE_FORM: [&[&str]; 4] = [
    &["rrule", "iso", "iso", "1", "2"],
    &["rrule", "iso", "iso", "1", "2", "3", "4", "FREQ=DAILY"],
    &["rrule", "iso", "iso", "1", "2", "3", "year=1", "FREQ=DAILY"],
    &[
        "rrule",
        "iso",
        "iso",
        "1",
        "2",
        "day=1",
        "day=1",
        "FREQ=DAILY",
    ],
];

#[test]
fn rules_of_each_frequency(rt: HostRuntime) -> Result<(), Fail> {
    assert_cases(&rt, rt.alloc(), &SIZES, &RULES)
}

#[test]
fn refusals_of_rules_by_name(rt: HostRuntime) -> Result<(), Fail> {
    for &(words, text) in &REFUSED {
        let case = Case {
            words,
            input: b"",
            text,
            status: Status::Refused,
        };
        assert_pieces(&rt, rt.alloc(), &SIZES, case)?;
    }
    Ok(())
}

#[test]
fn words_off_the_form_of_a_rule(rt: HostRuntime) -> Result<(), Fail> {
    assert_no_commands(&rt, rt.alloc(), &OFF_THE_FORM, b"row persian 1502\n", 16)
}
