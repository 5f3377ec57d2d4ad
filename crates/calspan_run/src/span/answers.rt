//! The answer to a line after the row lines.
ghost use Rattle.std.specs.Prelude.{◌≡◌, ◌+◌, ◌≤◌, ◌++◌, ℕ, List, false, length};
ghost use Rattle.arrayvec.specs.ArrayVec.{array_vec_len};
ghost use Rattle.byte_io.specs.Buffer.{Holds};
ghost use Rattle.cal_types.specs.Bag.{bag_of};
ghost use Rattle.cal_tables.specs.Kinds.{table_contents};
ghost use Rattle.request_lines.specs.Lines.{is_silent as line_is_silent, line_of};
ghost use Rattle.calspan_run.specs.Answers.{Answering, IsAnswerTo, IsRequestAnswer};
ghost use Rattle.calspan_run.specs.Refusals.{refusal};
ghost use Rattle.request_lines.specs.LineSaid.{request_line_said};

use crate::row_refusals::push_row_refusal;
use crate::span::replies::reply;
use crate::status::Status;
use byte_io::LineBuffer;
use cal_tables::Tables;
use cal_types::DateFields;
use reply_texts::{Pending, push_about};
use request_lines::{Line, RequestLine, is_silent, read_line};
use table_rows::RowFault;

/// The state of a run after some request lines.
#[derive(Clone, Copy, Debug, PartialEq, Eq)]
pub struct Progress {
    /// Whether a request was answered `err`.
    pub refused: bool,
}

/// How a run continues after a line.
#[derive(Clone, Copy, Debug, PartialEq, Eq)]
pub enum Answered {
    /// The run goes on.
    GoesOn(Progress),
    /// A row line ended the run.
    Stopped,
}

ghost use Rattle.calspan_run.specs.Progress.{replied, standing_of, answered_status};
ghost use Rattle.calspan_run.specs.Refusals.{status_of};

impl Progress {
    /// Creates the state before the first request line.
    pub fn new() -> Self
        ensures { result.refused ≡ false }
    {
        Progress { refused: false }
    }

    /// Returns the status of the run if the input ends here.
    pub fn status(self) -> Status
        ensures { result ≡ status_of self.refused }
    {
        if self.refused {
            Status::Refused
        } else {
            Status::Done
        }
    }

    /// Returns the state after one more request. `refused` says whether its answer is `err`.
    fn replied(self, refused: bool) -> Progress
        ensures { result ≡ replied self refused }
    {
        if refused { Progress { refused } } else { self }
    }
}

impl Answered {
    /// Returns the status of the run if the input ends here.
    pub fn status(self) -> Status
        ensures { result ≡ answered_status self }
    {
        match self {
            Answered::GoesOn(progress) => progress.status(),
            Answered::Stopped => Status::TableRefused,
        }
    }
}

/// Appends the `err` line for a malformed or long line.
fn refuse(pending: &mut Pending, number: u64, why: &[u8])
    requires { array_vec_len pending.old + length why.now + 40 ≤ 8192 }
    ensures { pending.new.items ≡ pending.old.items ++ refusal number why.now }
{
    push_about(pending, b"err line ", number, why);
}

/// Appends the answer to a request line whose bags were read. Returns whether the answer is `err`.
fn answer_request(
    pending: &mut Pending,
    number: u64,
    line: &RequestLine,
    from: &DateFields<'_>,
    to: &DateFields<'_>,
    tables: &Tables<'_>,
) -> bool
    requires { array_vec_len pending.old + 512 ≤ 8192 }
    ensures { (text : List ℕ) × (pending.new.items ≡ pending.old.items ++ text)
        × IsRequestAnswer (table_contents tables.now) (request_line_said line.now (bag_of from.now) (bag_of to.now))
        number text result }
{
    match line {
        RequestLine::Asks(header) => reply(pending, header, from, to, tables),
        RequestLine::Long => {
            refuse(pending, number, b"long");
            true
        }
        RequestLine::Malformed => {
            refuse(pending, number, b"syntax");
            true
        }
    }
}

/// Appends the answer to a line that isn't ignored. Kept out of line so that ignored lines don't pay for its stack
/// frame.
#[inline(never)]
fn answer_line(
    pending: &mut Pending,
    progress: Progress,
    number: u64,
    line: &LineBuffer,
    tables: &Tables<'_>,
) -> Answered
    requires { array_vec_len pending.old + 512 ≤ 8192 }
    ensures { let tables = table_contents tables.now in (whole : List ℕ)
        → Holds line.now whole → line_is_silent whole ≡ false → (text : List ℕ)
        × (pending.new.items ≡ pending.old.items ++ text)
        × IsAnswerTo (line_of whole) tables number (Answering progress.refused) text (standing_of result) }
{
    let mut from = DateFields::default();
    let mut to = DateFields::default();
    match read_line(line, &mut from, &mut to) {
        Line::GivesRow(_) => {
            push_row_refusal(pending, number, RowFault::Late);
            Answered::Stopped
        }
        Line::Requests(request) => {
            let refused = answer_request(pending, number, &request, &from, &to, tables);
            Answered::GoesOn(progress.replied(refused))
        }
    }
}

/// Appends the answer to a line to the pending text. `number` is the number of the line, counted from 1. A row line
/// stops the run, because row lines have to come before the first request line.
pub fn answer(
    pending: &mut Pending,
    progress: Progress,
    number: u64,
    line: &LineBuffer,
    tables: &Tables<'_>,
) -> Answered
    requires { array_vec_len pending.old + 512 ≤ 8192 }
    ensures { let tables = table_contents tables.now in (whole : List ℕ) → Holds line.now whole → (text : List ℕ)
        × (pending.new.items ≡ pending.old.items ++ text)
        × IsAnswerTo (line_of whole) tables number (Answering progress.refused) text (standing_of result) }
{
    if is_silent(line) {
        return Answered::GoesOn(progress);
    }
    answer_line(pending, progress, number, line, tables)
}
