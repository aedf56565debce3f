//! Why a text is refused as a number.

use thiserror::Error;

/// Why a text is refused as a number: the first of these that holds.
#[derive(Clone, Copy, Debug, PartialEq, Eq, Error)]
pub enum FixedFault {
    /// The text is no numeral: an optional sign, digits with at most one point among them, and an
    /// optional exponent, with nothing else beside them.
    #[error("not a decimal number")]
    Shape,
    /// The value is not a whole number of 10^-18.
    #[error("more than 18 digits after the point")]
    Digits,
    /// The absolute value is over 10^18.
    #[error("over 10^18 in absolute value")]
    Range,
}
