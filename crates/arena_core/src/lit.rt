//! Literals of any type.
ghost use Rattle.std.specs.Prelude.{◌≡◌, ◌≢◌, ℕ, ◌+◌, ◌*◌, ◌⊎◌};

/// The most variables, so that two places for each fit 32 bits.
pub const MOST_VARIABLES: u32 = 2_147_483_647;

/// A literal: a variable, numbered from 0, or its negation.
///
/// The arena, the chains and propagation use nothing of a literal but these three calls and their laws.
pub trait Lit: Copy + Eq {
    /// The literal with the other sign.
    ghost opposite: { Self → Self };

    /// The number of the variable.
    ghost variable_number: { Self → ℕ };

    /// The place in a table with two places for each variable.
    ghost table_place: { Self → ℕ };

    /// The literal with the other sign.
    fn negation(self) -> Self
        ensures { result ≡ opposite self };

    /// The number of the variable, from 0.
    fn variable(self) -> u32
        ensures { result ≡ variable_number self };

    /// The literal's place in a table with two places for each variable: `2 * variable` or `2 * variable + 1`.
    fn place(self) -> u32
        ensures { result ≡ table_place self };

    ghost twice: { (l : Self) → opposite (opposite l) ≡ l };

    ghost differs: { (l : Self) → opposite l ≢ l };

    ghost same_variable: { (l : Self) → variable_number (opposite l) ≡ variable_number l };

    ghost two_places: { (l : Self)
        → (table_place l ≡ 2 * variable_number l) ⊎ (table_place l ≡ 2 * variable_number l + 1) };

    ghost by_place: { (l m : Self) → table_place l ≡ table_place m → l ≡ m };
}
