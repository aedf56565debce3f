//! Why a report ends early.

ghost use Rattle.std.specs.Prelude.{◌≡◌};
ghost use Rattle.report_core.specs.Fault.{fault_of_row};
ghost use Rattle.report_core.specs.declared.fault.ReportFault.TheVariants as report;

use edge_core::Failed;
use std::alloc::AllocError;
use table_core::RowFault;
use thiserror::Error;

/// Why a table was not written to its end.
#[derive(Clone, Copy, Debug, PartialEq, Eq, Error)]
pub enum ReportFault {
    /// The next row is refused. It is never `RowFault::NoMemory`.
    #[error("{0}")]
    Row(RowFault),
    /// A write failed.
    #[error("the output cannot be written")]
    Write,
    /// Memory ran out.
    #[error("out of memory")]
    NoMemory,
}

impl From<RowFault> for ReportFault {
    ghost from_gives = { λ row fault. fault ≡ fault_of_row row };

    fn from(row: RowFault) -> ReportFault {
        match row {
            RowFault::NoMemory => ReportFault::NoMemory,
            _ => ReportFault::Row(row),
        }
    }
}

impl From<Failed> for ReportFault {
    ghost from_gives = { λ _ fault. fault ≡ report.Write };

    fn from(_failed: Failed) -> ReportFault {
        ReportFault::Write
    }
}

impl From<AllocError> for ReportFault {
    ghost from_gives = { λ _ fault. fault ≡ report.NoMemory };

    fn from(_error: AllocError) -> ReportFault {
        ReportFault::NoMemory
    }
}
