//! The literals of the search.
ghost use Rattle.std.specs.Prelude.{◌≡◌, ◌+◌, ◌<◌, ◌≤◌, ◌*◌, if◌then◌else◌};
ghost use Rattle.arena_core.specs.declared.lit.TheConstants.{MOST_VARIABLES};
ghost use Rattle.chain_core.specs.Literal.{has_minus};
ghost use Rattle.search_core.specs.Inner.{outer};

use arena_core::Lit;
use chain_core::Literal;
use std::marker::Model;

/// A literal inside the search. Its variables count from 0, those of a formula from 1.
///
/// Contracts see its place: twice its variable, and one more if its sign is minus.
#[derive(Clone, Copy, Debug, PartialEq, Eq)]
pub(crate) struct InnerLiteral {
    place: u32,
}

impl Model for InnerLiteral {
    ghost use Rattle.std.specs.Prelude.{ℕ};

    ghost Value = { ℕ };

    ghost view = { λ l. l.place };

    ghost inverse = { λ n. record { place = n } };
}

impl InnerLiteral {
    /// The literal that a formula's literal is inside the search.
    #[inline]
    pub(crate) fn of(literal: Literal) -> InnerLiteral
        ensures { outer result ≡ literal }
    {
        let plus = 2 * (literal.variable() - 1);
        InnerLiteral {
            place: if literal.has_minus() { plus + 1 } else { plus },
        }
    }

    /// A variable with a sign.
    #[inline]
    pub(crate) fn signed(variable: u32, has_minus: bool) -> InnerLiteral
        requires { variable < MOST_VARIABLES }
        ensures { result ≡ (if has_minus then 2 * variable + 1 else 2 * variable) }
    {
        let plus = 2 * variable;
        InnerLiteral {
            place: if has_minus { plus + 1 } else { plus },
        }
    }

    /// Whether the sign is minus.
    #[inline]
    pub(crate) fn has_minus(self) -> bool
        ensures { result ≡ has_minus self }
    {
        self.place % 2 == 1
    }

    /// The literal that this one is in a formula.
    #[inline]
    pub(crate) fn outer(self) -> Literal
        requires { self < 2 * MOST_VARIABLES }
        ensures { result ≡ outer self }
    {
        Literal::at(self.place + 2)
    }
}

impl Lit for InnerLiteral {
    ghost use Rattle.std.proofs.Common.{arith};
    ghost use Rattle.literals_core.specs.Literal.{negation, variable_of};
    ghost use Rattle.literals_core.proofs.Negation.{negation_twice, negation_differs, variable_of-negation};
    ghost use Rattle.std.proofs.lemmas.Bool.Decides.{nat_tests};

    ghost opposite = { λ l. negation l };

    ghost variable_number = { λ l. variable_of l };

    ghost table_place = { λ l. l };

    #[inline]
    fn negation(self) -> InnerLiteral {
        InnerLiteral {
            place: self.place ^ 1,
        }
    }

    #[inline]
    fn variable(self) -> u32 {
        self.place / 2
    }

    #[inline]
    fn place(self) -> u32 {
        self.place
    }

    ghost twice = { λ l. negation_twice l };

    ghost differs = { λ l. negation_differs l };

    ghost same_variable = { λ l. variable_of-negation l };

    ghost two_places = { λ l. Prim.grind (arith, nat_tests) };

    ghost by_place = { λ l m h. h };
}
