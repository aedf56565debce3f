//! Literals of few variables, in two bytes.
ghost use Rattle.std.specs.Prelude.{◌+◌, ◌*◌, not, refl, if◌then◌else◌};

use crate::lit::Lit;

/// A variable below 256, or its negation.
///
/// For small problems and tests; it also shows how a type of literals meets the laws.
#[derive(Clone, Copy, Debug, PartialEq, Eq)]
pub struct SmallLit {
    pub variable: u8,
    pub is_negative: bool,
}

impl Lit for SmallLit {
    ghost use Rattle.std.proofs.Common.{arith};
    ghost use Rattle.std.proofs.lemmas.Bool.Decides.{nat_tests};

    ghost opposite = { λ l. record { variable = l.variable; is_negative = not l.is_negative } };

    ghost variable_number = { λ l. l.variable };

    ghost table_place = { λ l. if l.is_negative then 2 * l.variable + 1 else 2 * l.variable };

    fn negation(self) -> SmallLit {
        SmallLit {
            variable: self.variable,
            is_negative: !self.is_negative,
        }
    }

    fn variable(self) -> u32 {
        self.variable as u32
    }

    fn place(self) -> u32 {
        let first = 2 * self.variable as u32;
        if self.is_negative { first + 1 } else { first }
    }

    ghost twice = { λ l. Prim.grind (arith, nat_tests) };

    ghost differs = { λ l h. Prim.grind (arith, nat_tests) };

    ghost same_variable = { λ l. refl };

    ghost two_places = { λ l. Prim.grind (arith, nat_tests) };

    ghost by_place = { λ l m h. Prim.grind (arith, nat_tests) };
}
