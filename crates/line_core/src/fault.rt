//! Why a command line is no job.

use thiserror::Error;

/// Why a command line is no job, with the number of the word at fault. The words after the program's
/// name are numbered from 1; a word that is missing at the end has the number after the last.
#[derive(Clone, Copy, Debug, PartialEq, Eq, Error)]
pub enum LineFault {
    /// There is no word.
    #[error("no command at word {0}")]
    NoCommand(u64),
    /// No command begins with these words.
    #[error("unknown command at word {0}")]
    UnknownCommand(u64),
    /// A position is empty, an option has no value, or a required option is not given.
    #[error("something is missing at word {0}")]
    Missing(u64),
    /// The command has no position for this word.
    #[error("one word too many at word {0}")]
    Extra(u64),
    /// The command has no such option.
    #[error("unknown option at word {0}")]
    UnknownOption(u64),
    /// The option is given before.
    #[error("option given twice at word {0}")]
    Twice(u64),
    /// The word is no number of the range that its place takes.
    #[error("bad number at word {0}")]
    BadNumber(u64),
    /// The word is none of those that the option takes.
    #[error("bad word at word {0}")]
    BadWord(u64),
}
