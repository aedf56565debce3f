//! How a command ends.
ghost use Rattle.std.specs.Prelude.{◌≡◌};
ghost use Rattle.lincs_top.specs.Stop.{stop_of, report_of};
ghost use Rattle.lincs_top.specs.Report.{status_of_report};

use crate::status::Status;
use chain_core::LogFault;
use line_core::LineFault;
use model_core::ModelFault;
use problem_core::ProblemFault;
use table_core::{RowFault, TableFault};
use yaml_core::YamlFault;

/// What a command finds at the end of its course. The whole output went out.
#[derive(Clone, Copy, Debug, PartialEq, Eq)]
pub enum Verdict {
    /// It did what it was asked for.
    Done,
    /// The answer is no.
    No,
    /// The refutation is rejected: the number of the fault, and its line, if it has one.
    Rejected(u32, Option<u32>),
    /// The search reached this limit of conflicts.
    Limit(u64),
}

/// Why a file is refused.
#[derive(Clone, Copy, Debug, PartialEq, Eq)]
pub enum Refusal {
    /// It has more than [`edge_core::MOST_BYTES`] bytes.
    TooLong,
    Yaml(YamlFault),
    Problem(ProblemFault),
    Model(ModelFault),
    Table(TableFault),
    /// The first refused row of a table.
    Row(RowFault),
    Log(LogFault),
}

/// Why a formula is too large.
#[derive(Clone, Copy, Debug, PartialEq, Eq)]
pub enum Size {
    /// Coalitions were asked with so many criteria.
    Wide(u32),
    /// It has so many literals.
    Large(u128),
}

/// Why a command stops before its verdict.
#[derive(Clone, Copy)]
pub enum Stop<'a> {
    /// The command line is no job.
    Usage(LineFault),
    /// The file of this name could not be read.
    Unread(&'a str),
    /// The file of this name was refused.
    Refused(&'a str, Refusal),
    /// The formula asked for is too large.
    TooLarge(Size),
    /// The output could not be written.
    Unwritten,
    NoMemory,
}

impl<'a> Stop<'a> {
    /// The stop of a file that is refused, or out of memory.
    pub fn refusing(name: &'a str, refusal: Option<Refusal>) -> Stop<'a>
        ensures { result ≡ stop_of name.entry refusal }
    {
        match refusal {
            Some(refusal) => Stop::Refused(name, refusal),
            None => Stop::NoMemory,
        }
    }
}

/// The status of a run that ended so.
pub fn status_of(end: &Result<Verdict, Stop<'_>>) -> Status
    ensures { result ≡ status_of_report (report_of end.now) }
{
    match end {
        Ok(Verdict::Done) => Status::Done,
        Ok(Verdict::No) => Status::No,
        Ok(Verdict::Rejected(..)) => Status::No,
        Ok(Verdict::Limit(_)) => Status::Limit,
        Err(Stop::Usage(_)) => Status::Usage,
        Err(Stop::Unread(_)) => Status::ReadFault,
        Err(Stop::Refused(..)) => Status::Refused,
        Err(Stop::TooLarge(_)) => Status::TooLarge,
        Err(Stop::Unwritten) => Status::WriteFault,
        Err(Stop::NoMemory) => Status::NoMemory,
    }
}
