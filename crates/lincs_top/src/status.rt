//! The number that the program ends with.
ghost use Rattle.std.specs.Prelude.{◌≡◌};
ghost use Rattle.std.specs.Process.{exit_status};
ghost use Rattle.lincs_top.specs.Status.{number_of};

use std::process::ExitCode;

/// How a run ends.
#[derive(Clone, Copy, Debug, PartialEq, Eq)]
pub enum Status {
    /// The command did what it was asked for, and the whole output went out.
    Done,
    /// The answer is no: there is no model, or the refutation is rejected.
    No,
    /// The command line is no job.
    Usage,
    /// A file could not be read.
    ReadFault,
    /// The output could not be written.
    WriteFault,
    /// A file is refused.
    Refused,
    /// The search reached its limit.
    Limit,
    /// The formula asked for is too large.
    TooLarge,
    /// Out of memory.
    NoMemory,
}

fn status_number(status: Status) -> u8
    ensures { result ≡ number_of status }
{
    match status {
        Status::Done => 0,
        Status::No => 1,
        Status::Usage => 2,
        Status::ReadFault => 3,
        Status::WriteFault => 4,
        Status::Refused => 5,
        Status::Limit => 6,
        Status::TooLarge => 7,
        Status::NoMemory => 8,
    }
}

/// The exit code of the program: the number of the status, from 0 to 8 in the order of [`Status`].
pub fn exit_code(status: Status) -> ExitCode
    ensures { exit_status result ≡ number_of status }
{
    ExitCode::from(status_number(status))
}
