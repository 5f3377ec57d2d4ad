//! Request lines and their answers, which were computed by an independent implementation.

use crate::tests::runs::{
    Case, SPAN, assert_pieces, assert_read_faults, assert_run, assert_write_faults, calls_of,
    joined,
};
use calspan_run::Status;
use std::alloc::Global;
use std::process::Abort;
use std::test::Fail;

/// The leap day of 2020 and the last day of February 2021.
const LEAP_DAY: &[u8] =
    b"span iso gregorian days reject none from year=2020 month=M02 day=29 to year=2021 month=M02 day=28\n";

const LEAP_DAY_ANSWER: &[u8] =
    b"ok 2020/default.2020/M02/29@737484 2020/ce.2020/M02/29@737484 2021/default.2021/M02/28@737849 2021/ce.2021/M02/28@737849 P365D\n";

struct Answered {
    line: &'static [u8],
    answer: &'static [u8],
}

/// Years, months and days of all kinds.
const DAYS: [Answered; 13] = [
    Answered {
        line: b"span iso iso none none reject from year=2020 month=M02 day=29 to year=2021 month=M02 day=28",
        answer: b"ok 2020/default.2020/M02/29@737484 2020/default.2020/M02/29@737484 2021/default.2021/M02/28@737849 2021/default.2021/M02/28@737849 P365D\n",
    },
    Answered {
        line: b"span gregorian gregorian days reject none from year=0 month=M12 day=31 to year=1 month=M01 day=1",
        answer: b"ok 0/bce.1/M12/31@0 0/bce.1/M12/31@0 1/ce.1/M01/01@1 1/ce.1/M01/01@1 P1D\n",
    },
    Answered {
        line: b"span gregorian iso days reject none from year=-4 month=M12 day=31 to year=1 month=M01 day=1",
        answer: b"ok -4/bce.5/M12/31@-1461 -4/default.-4/M12/31@-1461 1/ce.1/M01/01@1 1/default.1/M01/01@1 P1462D\n",
    },
    Answered {
        line: b"span gregorian iso days reject none from year=1000000 month=M01 day=1 to year=2000 month=M01 day=1",
        answer: b"err from Overflow\n",
    },
    Answered {
        line: b"span iso iso days reject none from year=-999999 month=M01 day=1 to year=999999 month=M12 day=31",
        answer: b"ok -999999/default.-999999/M01/01@-365242499 -999999/default.-999999/M01/01@-365242499 999999/default.999999/M12/31@365242134 999999/default.999999/M12/31@365242134 P730484633D\n",
    },
    Answered {
        line: b"span iso iso days reject reject from year=1982 month=M09 day=8 to year=1979 month=M09 day=8",
        answer: b"ok 1982/default.1982/M09/08@723796 1982/default.1982/M09/08@723796 1979/default.1979/M09/08@722700 1979/default.1979/M09/08@722700 -P1096D\n",
    },
    Answered {
        line: b"span iso iso days none none from year=-1 month=M01 day=6 to year=-1 month=M01 day=6",
        answer: b"ok -1/default.-1/M01/06@-725 -1/default.-1/M01/06@-725 -1/default.-1/M01/06@-725 -1/default.-1/M01/06@-725 P0D\n",
    },
    Answered {
        line: b"span iso iso days none none from year=1 month=M01 day=1 to year=1 month=M13 day=1",
        answer: b"err to MonthNotInCalendar\n",
    },
    Answered {
        line: b"span iso iso days none none from year=1 month=M05L day=1 to year=1 month=M13 day=1",
        answer: b"err from MonthNotInCalendar\n",
    },
    Answered {
        line: b"span iso iso days none none from year=1040001 month=M13 day=0 to year=1 month=M01 day=1",
        answer: b"err from Overflow\n",
    },
    Answered {
        line: b"span iso iso days none none from year=2021 month=M02 day=29 to year=1 month=M01 day=1",
        answer: b"err from InvalidDay 28\n",
    },
    Answered {
        line: b"span iso iso days none none from year=1 month=M01 day=1 to year=1 month=M04 day=0",
        answer: b"err to InvalidDay 30\n",
    },
    Answered {
        line: b"span iso iso days none none from year=1000000 month=M01 day=1 to year=1 month=M01 day=1",
        answer: b"err from Overflow\n",
    },
];

/// The units, a shorter month, months back and the widest difference.
const UNITS: [Answered; 10] = [
    Answered {
        line: b"span iso gregorian years reject none from year=2020 month=M02 day=29 to year=2021 month=M02 day=28",
        answer: b"ok 2020/default.2020/M02/29@737484 2020/ce.2020/M02/29@737484 2021/default.2021/M02/28@737849 2021/ce.2021/M02/28@737849 P11M30D\n",
    },
    Answered {
        line: b"span iso gregorian months reject none from year=2020 month=M02 day=29 to year=2021 month=M02 day=28",
        answer: b"ok 2020/default.2020/M02/29@737484 2020/ce.2020/M02/29@737484 2021/default.2021/M02/28@737849 2021/ce.2021/M02/28@737849 P11M30D\n",
    },
    Answered {
        line: b"span iso gregorian weeks reject none from year=2020 month=M02 day=29 to year=2021 month=M02 day=28",
        answer: b"ok 2020/default.2020/M02/29@737484 2020/ce.2020/M02/29@737484 2021/default.2021/M02/28@737849 2021/ce.2021/M02/28@737849 P52W1D\n",
    },
    Answered {
        line: b"span iso gregorian days reject none from year=2020 month=M02 day=29 to year=2021 month=M02 day=28",
        answer: b"ok 2020/default.2020/M02/29@737484 2020/ce.2020/M02/29@737484 2021/default.2021/M02/28@737849 2021/ce.2021/M02/28@737849 P365D\n",
    },
    Answered {
        line: b"span iso gregorian none reject none from year=2020 month=M02 day=29 to year=2021 month=M02 day=28",
        answer: b"ok 2020/default.2020/M02/29@737484 2020/ce.2020/M02/29@737484 2021/default.2021/M02/28@737849 2021/ce.2021/M02/28@737849 P365D\n",
    },
    Answered {
        line: b"span iso gregorian years reject none from year=-999999 month=M01 day=1 to year=999999 month=M12 day=31",
        answer: b"ok -999999/default.-999999/M01/01@-365242499 -999999/bce.1000000/M01/01@-365242499 999999/default.999999/M12/31@365242134 999999/ce.999999/M12/31@365242134 P1999998Y11M30D\n",
    },
    Answered {
        line: b"span iso gregorian days reject none from year=-999999 month=M01 day=1 to year=999999 month=M12 day=31",
        answer: b"ok -999999/default.-999999/M01/01@-365242499 -999999/bce.1000000/M01/01@-365242499 999999/default.999999/M12/31@365242134 999999/ce.999999/M12/31@365242134 P730484633D\n",
    },
    Answered {
        line: b"span iso gregorian months reject none from year=2021 month=M01 day=31 to year=2021 month=M02 day=28",
        answer: b"ok 2021/default.2021/M01/31@737821 2021/ce.2021/M01/31@737821 2021/default.2021/M02/28@737849 2021/ce.2021/M02/28@737849 P28D\n",
    },
    Answered {
        line: b"span iso gregorian years reject none from year=2021 month=M02 day=28 to year=2020 month=M02 day=29",
        answer: b"ok 2021/default.2021/M02/28@737849 2021/ce.2021/M02/28@737849 2020/default.2020/M02/29@737484 2020/ce.2020/M02/29@737484 -P11M28D\n",
    },
    Answered {
        line: b"span iso julian days none none from year=2022 month=M01 day=1 to year=2022 month=M01 day=1",
        answer: b"ok 2022/default.2022/M01/01@738156 2021/ce.2021/M12/19@738156 2022/default.2022/M01/01@738156 2021/ce.2021/M12/19@738156 P0D\n",
    },
];

/// Bags of all kinds.
const BAGS: [Answered; 10] = [
    Answered {
        line: b"span iso iso days none none from year=1 month=M01 month-code=M01 day=1 to",
        answer: b"err from TooManyFields\n",
    },
    Answered {
        line: b"span iso iso days none none from to",
        answer: b"err from NotEnoughFields\n",
    },
    Answered {
        line: b"span gregorian iso days constrain ecma from year=2004 ordinal=15 day=40 to year=2005 month=M01",
        answer: b"ok 2004/ce.2004/M12/31@731946 2004/default.2004/M12/31@731946 2005/ce.2005/M01/01@731947 2005/default.2005/M01/01@731947 P1D\n",
    },
    Answered {
        line: b"span gregorian iso days reject ecma from year=2004 ordinal=15 day=40 to year=2005 month=M01",
        answer: b"err from InvalidOrdinalMonth 12\n",
    },
    Answered {
        line: b"span gregorian iso days reject none from era=xx era-year=1040001 month=M01 day=1 to year=2000 month=M01 day=1",
        answer: b"err from Overflow\n",
    },
    Answered {
        line: b"span gregorian iso days reject none from era=xx era-year=1 month=M01 day=1 to year=2000 month=M01 day=1",
        answer: b"err from InvalidEra\n",
    },
    Answered {
        line: b"span gregorian iso days reject none from era=ce month=M01 day=1 to year=2000 month=M01 day=1",
        answer: b"err from NotEnoughFields\n",
    },
    Answered {
        line: b"span gregorian iso days reject none from era=bce era-year=5 month=M12 day=31 to year=1 month=M01 day=1",
        answer: b"ok -4/bce.5/M12/31@-1461 -4/default.-4/M12/31@-1461 1/ce.1/M01/01@1 1/default.1/M01/01@1 P1462D\n",
    },
    Answered {
        line: b"span iso iso days none none from era= era-year=-1 month-code= day=0 to ordinal=255",
        answer: b"err from InvalidEra\n",
    },
    Answered {
        line: b"span iso iso days none none from era=a=b era-year=000000001 to year=1 month=M01 day=1\r",
        answer: b"err from NotEnoughFields\n",
    },
];

/// Leap months, a year of 355 days that the rule of the new year lengthens, reference years, eras that begin within a
/// year, the seam of 1912, and the other calendars.
const OTHER_CALENDARS: [Answered; 13] = [
    Answered {
        line: b"span hebrew iso years reject none from year=5782 month=M05L day=9 to year=5783 month=M01 day=15",
        answer: b"ok 5782/am.5782/M05L/09@738196 2022/default.2022/M02/10@738196 5783/am.5783/M01/15@738438 2022/default.2022/M10/10@738438 P8M6D\n",
    },
    Answered {
        line: b"span hebrew iso years reject none from year=5787 month=M05L day=10 to year=5788 month=M06 day=10",
        answer: b"ok 5787/am.5787/M05L/10@740029 2027/default.2027/M02/17@740029 5788/am.5788/M06/10@740414 2028/default.2028/M03/08@740414 P1Y\n",
    },
    Answered {
        line: b"span hebrew iso days reject none from year=5788 month=M01 day=1 to year=5789 month=M01 day=1",
        answer: b"ok 5788/am.5788/M01/01@740256 2027/default.2027/M10/02@740256 5789/am.5789/M01/01@740611 2028/default.2028/M09/21@740611 P355D\n",
    },
    Answered {
        line: b"span hebrew iso days constrain none from year=5783 month-code=M05L ordinal=5 day=1 to year=5783 ordinal=1 day=1",
        answer: b"err from InconsistentMonth\n",
    },
    Answered {
        line: b"span coptic iso years constrain ecma from month=M13 day=7 to month=M13 day=7",
        answer: b"ok 1687/am.1687/M13/06@719781 1971/default.1971/M09/11@719781 1687/am.1687/M13/06@719781 1971/default.1971/M09/11@719781 P0D\n",
    },
    Answered {
        line: b"span japanese iso days reject none from era=heisei era-year=1 month=M01 day=1 to era=meiji era-year=5 month=M01 day=1",
        answer: b"ok 1989/showa.64/M01/01@726103 1989/default.1989/M01/01@726103 1872/ce.1872/M01/01@683369 1872/default.1872/M01/01@683369 -P42734D\n",
    },
    Answered {
        line: b"span persian persian days reject none from year=1502 month=M12 day=30 to year=1503 month=M01 day=1",
        answer: b"ok 1502/ap.1502/M12/30@775489 1502/ap.1502/M12/30@775489 1503/ap.1503/M01/01@775490 1503/ap.1503/M01/01@775490 P1D\n",
    },
    Answered {
        line: b"span iso indian years none none from year=1992 month=M09 day=2 to year=2024 month=M03 day=1",
        answer: b"ok 1992/default.1992/M09/02@727443 1914/shaka.1914/M06/11@727443 2024/default.2024/M03/01@738946 1945/shaka.1945/M12/11@738946 P31Y5M28D\n",
    },
    Answered {
        line: b"span chinese dangi days reject none from year=1911 ordinal=13 day=30 to year=1912 ordinal=1 day=1",
        answer: b"ok 1911/cycle.48/M12/30@698025 1911/cycle.48/M12/30@698025 1912/cycle.49/M01/01@698026 1912/cycle.49/M01/01@698026 P1D\n",
    },
    Answered {
        line: b"span chinese iso years reject none from year=1900 month=M08L day=1 to year=1901 month=M08 day=1",
        answer: b"ok 1900/cycle.37/M08L/01@693862 1900/default.1900/M09/24@693862 1901/cycle.38/M08/01@694216 1901/default.1901/M09/13@694216 P12M\n",
    },
    Answered {
        line: b"span chinese iso days reject ecma from month=M01L day=1 to month=M01 day=1",
        answer: b"err from MonthNotInYear\n",
    },
    Answered {
        line: b"span islamic-simulated iso days reject none from year=1445 month=M02 day=1 to year=1446 month=M01 day=1",
        answer: b"ok 1445/ah.1445/M02/01@738750 2023/default.2023/M08/18@738750 1446/ah.1446/M01/01@739075 2024/default.2024/M07/08@739075 P325D\n",
    },
    Answered {
        line: b"span islamic-civil islamic-tbla days reject none from year=1455 month=M12 day=30 to year=1456 month=M01 day=1",
        answer: b"err from InvalidDay 29\n",
    },
];

/// What the line alone is answered, in pieces of any size.
fn assert_answer(rt: &impl Abort, alloc: Global, input: &[u8], text: &[u8]) -> Result<(), Fail> {
    let status = if text.starts_with(b"err ") {
        Status::Refused
    } else {
        Status::Done
    };
    let case = Case {
        words: SPAN,
        input,
        text,
        status,
    };
    assert_pieces(rt, alloc, &[1, 13, 4096], case)
}

/// That each line alone has its answer.
fn assert_answers(rt: &impl Abort, alloc: Global, cases: &[Answered]) -> Result<(), Fail> {
    for case in cases {
        assert_answer(rt, alloc, case.line, case.answer)?;
    }
    Ok(())
}

/// That each line alone has the same answer.
fn assert_each(rt: &impl Abort, alloc: Global, lines: &[&[u8]], answer: &[u8]) -> Result<(), Fail> {
    for &line in lines {
        assert_answer(rt, alloc, line, answer)?;
    }
    Ok(())
}

#[test]
fn requests_in_any_pieces(rt: HostRuntime) -> Result<(), Fail> {
    assert_answers(&rt, rt.alloc(), &DAYS)
}

#[test]
fn requests_of_units_in_any_pieces(rt: HostRuntime) -> Result<(), Fail> {
    assert_answers(&rt, rt.alloc(), &UNITS)
}

#[test]
fn requests_of_bags_in_any_pieces(rt: HostRuntime) -> Result<(), Fail> {
    assert_answers(&rt, rt.alloc(), &BAGS)
}

#[test]
fn requests_of_other_calendars_in_any_pieces(rt: HostRuntime) -> Result<(), Fail> {
    assert_answers(&rt, rt.alloc(), &OTHER_CALENDARS)
}

/// The 15th of each thirty years is a leap year by the rules of type I, and by those of type II it isn't.
const LEAP_YEAR_OF_TYPE_I: [Answered; 2] = [
    Answered {
        line: b"span islamic-type1-friday islamic-civil days reject none from year=1455 month=M12 day=30 to year=1456 month=M01 day=1",
        answer: b"ok 1455/ah.1455/M12/30@742618 1456/ah.1456/M01/01@742618 1456/ah.1456/M01/01@742619 1456/ah.1456/M01/02@742619 P1D\n",
    },
    Answered {
        line: b"span islamic-civil islamic-type1-friday days reject none from year=1455 month=M12 day=30 to year=1456 month=M01 day=1",
        answer: b"err from InvalidDay 29\n",
    },
];

#[test]
fn a_leap_year_of_type_i_has_a_day_that_type_ii_lacks(rt: HostRuntime) -> Result<(), Fail> {
    assert_answers(&rt, rt.alloc(), &LEAP_YEAR_OF_TYPE_I)
}

/// The leap day's request, written in other ways.
const LEAP_DAYS: [&[u8]; 4] = [
    LEAP_DAY,
    b"span iso gregorian none none none from year=002020 month=M02 day=029 to year=2021 month=M02 day=28\r\n",
    b"span iso gregorian days constrain ecma from day=29 year=2020 month=M02 to month=M02 day=28 year=2021",
    b"span iso gregorian days reject reject from month=M02 day=29 year=2020 to day=28 month=M02 year=2021\r",
];

#[test]
fn fields_in_any_order(rt: HostRuntime) -> Result<(), Fail> {
    assert_each(&rt, rt.alloc(), &LEAP_DAYS, LEAP_DAY_ANSWER)
}

/// Lines off the grammar.
const MALFORMED: [&[u8]; 34] = [
    b"span iso",
    b"span islamic iso days none none from year=1 month=M01 day=1 to year=1 month=M01 day=1",
    b"span iso iso year none none from year=1 month=M01 day=1 to year=1 month=M01 day=1",
    b"span iso iso days ecma none from year=1 month=M01 day=1 to year=1 month=M01 day=1",
    b"span iso iso days none constrain from year=1 month=M01 day=1 to year=1 month=M01 day=1",
    b"span ISO iso days none none from year=1 month=M01 day=1 to year=1 month=M01 day=1",
    b"span iso iso days none none year=1 month=M01 day=1 to year=1 month=M01 day=1",
    b"span iso iso days none none from year=1 month=M01 day=1",
    b"span iso iso days none none from year=1 month=M01 day=1 to year=1 month=M01 day=1 to",
    b"span iso iso days none none from year=1 month=M01 day=1 to from year=1 month=M01 day=1",
    b"span iso iso days none none from year=1 year=1 month=M01 day=1 to year=1 month=M01 day=1",
    b"span iso iso days none none from era=ce era= to",
    b"span iso iso days none none from year= month=M01 day=1 to year=1 month=M01 day=1",
    b"span iso iso days none none from year=1234567890 month=M01 day=1 to year=1 month=M01 day=1",
    b"span iso iso days none none from month= to",
    b"span iso iso days none none from month=M1 to",
    b"span iso iso days none none from month=m01 to",
    b"span iso iso days none none from day=256 to",
    b"span iso iso days none none from day=-1 to",
    b"span iso iso days none none from ordinal=0001 to",
    b"span iso iso days none none from ordinal= to",
    b"span iso iso days none none from era-year=+1 to",
    b"span iso iso days none none from Year=1 to",
    b"span iso iso days none none from years=1 to",
    b"span iso iso days none none from year to",
    b"span iso iso days none none from =1 to",
    b"span iso iso days none none from  to year=1 month=M01 day=1",
    b"span  iso iso days none none from to",
    b" span iso iso days none none from to",
    b"span iso iso days none none from to ",
    b"span iso iso days none none from to\r\r",
    b"rows",
    b"row\thijri",
    b"\r\r",
];

#[test]
fn lines_on_and_off_the_grammar(rt: HostRuntime) -> Result<(), Fail> {
    assert_each(&rt, rt.alloc(), &MALFORMED, b"err line 1 syntax\n")
}

/// That the leap day's request, twice, is answered up to the second read, which fails, in pieces of one byte, and by
/// nothing where no write is taken.
fn assert_twice(rt: &impl Abort, alloc: Global, input: &[u8], text: &[u8]) -> Result<(), Fail> {
    let cut = &[(LEAP_DAY.len(), 2, Status::ReadFault, LEAP_DAY_ANSWER)];
    assert_read_faults(rt, alloc, SPAN, input, cut)?;
    let case = Case {
        words: SPAN,
        input,
        text,
        status: Status::Done,
    };
    let _left = assert_run(rt, alloc, case, calls_of(1), calls_of(4096))?;
    let none = &[(4096, 1, Status::WriteFault, b"".as_slice())];
    assert_write_faults(rt, alloc, SPAN, input, none)
}

#[test]
fn faults_keep_the_answers_to_whole_lines(rt: HostRuntime) -> Result<(), Fail> {
    let input = joined(rt.alloc(), &[LEAP_DAY, LEAP_DAY])?;
    let text = joined(rt.alloc(), &[LEAP_DAY_ANSWER, LEAP_DAY_ANSWER])?;
    assert_twice(&rt, rt.alloc(), &input, &text)
}
