//! A variable with a sign.
ghost use Rattle.std.specs.Prelude.{IfSome, IsNone, pos, negsuc, ◌⊎◌, ◌↔◌, ◌≡◌, ◌+◌, ◌*◌, ◌<◌, ◌≤◌, ◌^◌};
ghost use Rattle.literals_core.specs.Literal.{negation, variable_of};
ghost use Rattle.chain_core.specs.Literal.{has_minus, number_of};

use std::marker::Model;

/// The greatest variable: twice a variable and one more fits in 32 bits.
pub const GREATEST_VARIABLE: u32 = 2_147_483_647;

/// The greatest place: twice the greatest variable, and one more.
pub const MOST_PLACE: u32 = 4_294_967_295;

/// A variable from 1 to [`GREATEST_VARIABLE`] and a sign.
///
/// Contracts see its place: twice its variable, and one more if its sign is minus.
#[derive(Clone, Copy, PartialEq, Eq)]
pub struct Literal {
    place: u32,
}

impl Model for Literal {
    ghost use Rattle.std.specs.Prelude.{ℕ, ◌≤◌};

    ghost Value = { ℕ };

    ghost view = { λ l. l.place };

    ghost invariant = { λ l. 2 ≤ l.place };

    ghost inverse = { λ n. record { place = n } };
}

impl Literal {
    /// The literal that a number writes: its variable, negative if the sign is minus. None exactly
    /// for 0 and the least `i32`.
    pub fn of(number: i32) -> Option<Literal>
        ensures value { IfSome result (λ l. number_of l ≡ number) }
        ensures none { IsNone result ↔ ((number ≡ pos 0) ⊎ (number ≡ negsuc 2147483647)) }
    {
        if number > 0 {
            Some(Literal {
                place: 2 * number as u32,
            })
        } else if number < 0 && number != i32::MIN {
            Some(Literal {
                place: 2 * (-number) as u32 + 1,
            })
        } else {
            None
        }
    }

    /// The literal of a place.
    pub fn at(place: u32) -> Literal
        requires { 2 ≤ place }
        ensures { result ≡ place }
    {
        Literal { place }
    }

    /// The number that writes this literal.
    pub fn number(self) -> i32
        ensures { result ≡ number_of self }
    {
        let variable = (self.place / 2) as i32;
        if self.place % 2 == 0 {
            variable
        } else {
            -variable
        }
    }

    /// The place of the literal in a table that has two places for each variable from 0 on.
    pub fn place(self) -> usize
        ensures { result ≡ self }
    {
        self.place as usize
    }

    /// The variable.
    pub fn variable(self) -> u32
        ensures value { result ≡ variable_of self }
        ensures least { 1 ≤ result }
        ensures most { result ≤ GREATEST_VARIABLE }
    {
        self.place / 2
    }

    /// Returns whether the sign is minus.
    pub fn has_minus(self) -> bool
        ensures { result ≡ has_minus self }
    {
        self.place % 2 == 1
    }

    /// The literal of the same variable with the other sign.
    pub fn negated(self) -> Literal
        ensures { result ≡ negation self }
    {
        Literal {
            place: self.place ^ 1,
        }
    }
}
