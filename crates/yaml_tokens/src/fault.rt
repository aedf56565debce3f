//! Why a line has no tokens.
ghost use Rattle.std.specs.Prelude.{◌≡◌};
ghost use Rattle.yaml_tokens.specs.declared.fault.TokenFault.TheVariants.{NoMemory};

use std::alloc::{AllocError, AllocFailed};
use thiserror::Error;

/// Why a line has no tokens.
#[derive(Clone, Copy, Debug, PartialEq, Eq, Error)]
pub enum TokenFault {
    /// A character or a token is not part of the profile, or more than 64 brackets are open.
    #[error("not of the form that is read")]
    Form,
    /// Out of memory.
    #[error("out of memory")]
    NoMemory,
}

impl From<AllocError> for TokenFault {
    ghost from_gives = { λ _ e. e ≡ NoMemory };

    fn from(_e: AllocError) -> TokenFault {
        TokenFault::NoMemory
    }
}

impl<T: Drop> From<AllocFailed<T>> for TokenFault {
    ghost from_gives = { λ _ e. e ≡ NoMemory };

    fn from(_e: AllocFailed<T>) -> TokenFault {
        TokenFault::NoMemory
    }
}
