//! The encodings of a learning task as a formula.

/// How a learning task becomes a formula, as the command line and the first line of a refutation name it.
#[derive(Clone, Copy, Debug, PartialEq, Eq)]
pub enum Encoding {
    /// An unknown for each coalition, true if the coalition is sufficient (Belahcène and others 2018).
    Coalitions,
    /// An unknown for each pair of examples and criterion, true if the criterion separates the pair.
    Separation,
}
