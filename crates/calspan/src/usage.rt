//! What the program takes, and why a run failed, for standard error.

/// What the program takes.
pub const USAGE: &str = "\
usage: calspan convert CALENDAR SHOWN constrain|reject < FILE
                                      writes the date of each line in a second calendar
       calspan span < FILE            answers the request lines of a file
       calspan explain < FILE         names the first bad word of each malformed line of a file
       calspan explain holidays < BOOK
                                      names the first invalid field of each invalid record of a book
       calspan gen N                  counts and sums over the answers to N requests, 0 to 100000
       calspan anniversary CALENDAR SHOWN exact|constrain CODE DAY FIRST LAST < ROWS
                                      lists the days from FIRST to LAST that a month and a day name
       calspan recur CALENDAR SHOWN UNIT EVERY skip|constrain FIRST LAST KEY=VALUE.. < ROWS
                                      lists the occurrences from FIRST to LAST, counted from the date of the fields
       calspan rrule CALENDAR SHOWN FIRST LAST DAY|KEY=VALUE.. RULE < ROWS
                                      lists the occurrences of a recurrence rule of iCalendar from FIRST to LAST
       calspan holidays FIRST LAST < BOOK
                                      lists the holidays from FIRST to LAST by the rules of a book
       calspan --help | --version     this text, or which program this is
";

/// Which program this is.
pub const VERSION: &str =
    "calspan, of icu_calendar proved in Rattle (a port of icu_calendar 2.4.0)\n";

/// Returns the text that a first word asks for, if it asks for one.
pub fn told(first: &[u8]) -> Option<&'static str> {
    if first == b"--help".as_slice() || first == b"-h".as_slice() {
        return Some(USAGE);
    }
    if first == b"--version".as_slice() {
        return Some(VERSION);
    }
    None
}

/// Returns why a run ended with an exit code above 2, or `None` for any other.
pub fn why(code: u8) -> Option<&'static str> {
    match code {
        3 => Some("reading standard input failed"),
        4 => Some("writing standard output failed; the output is incomplete"),
        5 => Some("out of memory; nothing is written"),
        6 => Some("invalid row or table, which the last line names"),
        7 => Some("input longer than 16777216 bytes"),
        _ => None,
    }
}

/// Returns whether a word alone is a command that reads its input line by line.
pub fn answers_lines(word: &[u8]) -> bool {
    word == b"span".as_slice() || word == b"explain".as_slice()
}

/// Returns what is written of a run that ended before its input did.
pub fn written(has_answers: bool) -> &'static str {
    if has_answers {
        "the answers to the lines before are written"
    } else {
        "nothing is written"
    }
}
