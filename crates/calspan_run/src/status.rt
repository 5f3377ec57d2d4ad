//! The status of a run.

use table_rows::Stop;

/// The status of a run. [`code`] returns its exit code.
#[derive(Clone, Copy, Debug, PartialEq, Eq)]
pub enum Status {
    /// The input was read to its end, the whole text is written, and no line of it is `err`.
    Done,
    /// The whole text is written, and at least one of its lines is `err`.
    Refused,
    /// The words of the command line name no command.
    Words,
    /// The source counted a fault.
    ReadFault,
    /// The sink counted a fault.
    WriteFault,
    /// There was no memory.
    NoMemory,
    /// A row line or a table is invalid.
    TableRefused,
    /// The source has more than 16777216 bytes.
    TooLong,
}

ghost use Rattle.std.specs.Prelude.{◌≡◌};
ghost use Rattle.calspan_run.specs.Status.{code_of, stop_status};

/// Returns the exit code of a status, from 0 for `Done` to 7 for `TooLong`.
pub fn code(status: Status) -> u8
    ensures { result ≡ code_of status }
{
    status as u8
}

/// Returns the status for the reason why reading row lines stopped at no particular line.
pub(crate) fn status_of_stop(stop: Stop) -> Status
    ensures { result ≡ stop_status stop }
{
    match stop {
        Stop::ReadFault => Status::ReadFault,
        Stop::TooLong => Status::TooLong,
        Stop::NoMemory => Status::NoMemory,
    }
}
