//! Why bytes have no tree.
ghost use Rattle.std.specs.Prelude.{◌≡◌};
ghost use Rattle.yaml_core.specs.Faults.{yaml_fault};
ghost use Rattle.yaml_core.specs.declared.fault.YamlFault.TheVariants.{NoMemory};

use std::alloc::{AllocError, AllocFailed};
use thiserror::Error;
use yaml_tokens::TokenFault;

/// Why bytes have no tree. The first that holds, in this order, is returned; memory may run out
/// at any point.
#[derive(Clone, Copy, Debug, PartialEq, Eq, Error)]
pub enum YamlFault {
    /// The bytes aren't UTF-8.
    #[error("not UTF-8")]
    NotUtf8,
    /// The text isn't of the form that is read, or is nested too deep.
    #[error("not of the form that is read")]
    Form,
    /// The tree has too many nodes.
    #[error("too many nodes")]
    Many,
    /// Memory ran out.
    #[error("out of memory")]
    NoMemory,
}

impl From<AllocError> for YamlFault {
    ghost from_gives = { λ _ e. e ≡ NoMemory };

    fn from(_e: AllocError) -> YamlFault {
        YamlFault::NoMemory
    }
}

impl<T: Drop> From<AllocFailed<T>> for YamlFault {
    ghost from_gives = { λ _ e. e ≡ NoMemory };

    fn from(_e: AllocFailed<T>) -> YamlFault {
        YamlFault::NoMemory
    }
}

impl From<TokenFault> for YamlFault {
    ghost from_gives = { λ f e. e ≡ yaml_fault f };

    fn from(fault: TokenFault) -> YamlFault {
        match fault {
            TokenFault::Form => YamlFault::Form,
            TokenFault::NoMemory => YamlFault::NoMemory,
        }
    }
}
