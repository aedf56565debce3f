//! Why examples have no formula.
ghost use Rattle.std.specs.Prelude.{◌≡◌};
ghost use Rattle.ranks_core.specs.declared.fault.EncodeFault.TheVariants as encode;

use std::alloc::AllocError;
use thiserror::Error;

/// The most literals of a formula.
pub const MOST_LITERALS: u32 = 33_554_432;

/// Why examples have no formula in an encoding.
#[derive(Debug, Drop, Error)]
pub enum EncodeFault {
    /// The encoding is by coalitions, and there are more than 12 criteria.
    #[error("too wide")]
    Wide,
    /// The formula would have this number of literals, which is more than [`MOST_LITERALS`].
    #[error("too large: {0} literals")]
    TooLarge(u128),
    /// The system is out of memory.
    #[error("out of memory")]
    NoMemory,
}

impl From<AllocError> for EncodeFault {
    ghost from_gives = { λ _ fault. fault ≡ encode.NoMemory };

    fn from(_error: AllocError) -> EncodeFault {
        EncodeFault::NoMemory
    }
}
