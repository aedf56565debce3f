//! Why a text is no log, and why a log is no refutation.
ghost use Rattle.std.specs.Prelude.{◌≡◌};

use std::alloc::{AllocError, AllocFailed};
use thiserror::Error;

/// Why a text is no log.
#[derive(Clone, Copy, Debug, PartialEq, Eq, Error)]
pub enum LogFault {
    /// The first line, with its line end, names no encoding.
    #[error("no header of a refutation")]
    Header,
    /// The first line after the header that is not a lemma with its line end. The header is line 1.
    #[error("line {0}: not a lemma")]
    Shape(u32),
    /// Memory ran out.
    #[error("out of memory")]
    NoMemory,
}

/// Why a log is no refutation of a formula. The line is that of the first lemma that fails; the
/// first lemma is on line 2.
#[derive(Clone, Copy, Debug, PartialEq, Eq, Error)]
pub enum CheckFault {
    /// The lemma's id is not the number of clauses before it plus 1.
    #[error("line {0}: not the next id")]
    Id(u32),
    /// A literal is of a variable that the formula does not have.
    #[error("line {0}: a literal of no variable")]
    Literal(u32),
    /// A hint is 0, or names no clause before the lemma.
    #[error("line {0}: a hint at no earlier clause")]
    Hint(u32),
    /// The chain of hints does not end in a clause that is all false.
    #[error("line {0}: the hints lead to no conflict")]
    Chain(u32),
    /// Each lemma is good, and the last is not empty or there is none.
    #[error("no empty lemma at the end")]
    NotEmpty,
    /// Memory ran out.
    #[error("out of memory")]
    NoMemory,
}

impl From<AllocError> for LogFault {
    ghost use Rattle.chain_core.specs.declared.fault.LogFault.TheVariants.{NoMemory};

    ghost from_gives = { λ _ fault. fault ≡ NoMemory };

    fn from(_error: AllocError) -> LogFault {
        LogFault::NoMemory
    }
}

impl<T: Drop> From<AllocFailed<T>> for LogFault {
    ghost use Rattle.chain_core.specs.declared.fault.LogFault.TheVariants.{NoMemory};

    ghost from_gives = { λ _ fault. fault ≡ NoMemory };

    fn from(_failed: AllocFailed<T>) -> LogFault {
        LogFault::NoMemory
    }
}

impl From<AllocError> for CheckFault {
    ghost use Rattle.chain_core.specs.declared.fault.CheckFault.TheVariants.{NoMemory};

    ghost from_gives = { λ _ fault. fault ≡ NoMemory };

    fn from(_error: AllocError) -> CheckFault {
        CheckFault::NoMemory
    }
}
