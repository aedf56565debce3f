//! The type of exact decimals, with their order and their sum.

ghost use Rattle.std.specs.Prelude.{◌≡◌, ◌^◌, ◌<◌, ◌≤◌, ◌↔◌, ◌+ℤ◌, ◌≤ℤ◌, IsTrue, IfSome, None, int_lt, unsigned_abs};
ghost use Rattle.std.specs.Prelude.{pos, FitsSigned};
ghost use Rattle.std.specs.Int.{w128};
ghost use Rattle.fixed_core.specs.Value.{signed};

use std::marker::Model;

/// The most units of either sign: 10^18 whole ones of 10^18 units each.
pub const MOST_UNITS: u128 = 1_000_000_000_000_000_000_000_000_000_000_000_000;

/// A decimal number with at most 18 places and of absolute value at most 10^18, exactly. Contracts
/// see it as its whole number of units of 10^-18.
#[derive(Clone, Copy, Debug, PartialEq, Eq)]
pub struct Fixed {
    units: i128,
}

impl Model for Fixed {
    ghost use Rattle.std.specs.Prelude.{ℤ, pos, ◌≤ℤ◌, neg_ℤ, ◌^◌};

    ghost Value = { ℤ };

    ghost view = { λ f. f.units };

    ghost invariant = { λ f. (neg_ℤ (pos (10 ^ 36)) ≤ℤ f.units) × (f.units ≤ℤ pos (10 ^ 36)) };

    ghost inverse = { λ z. record { units = z } };
}

impl Fixed {
    /// The number of so many units of 10^-18; None exactly if its absolute value is over 10^18. Takes no
    /// memory.
    pub fn of(units: i128) -> Option<Fixed>
        ensures value { IfSome result (λ value. value ≡ units) }
        ensures refused { (result ≡ None) ↔ (10 ^ 36 < unsigned_abs units) }
    {
        if units.unsigned_abs() <= MOST_UNITS {
            Some(Fixed { units })
        } else {
            None
        }
    }

    /// The whole number of units of 10^-18.
    pub fn units(self) -> i128
        ensures value { result ≡ self }
        ensures bound { unsigned_abs self ≤ 10 ^ 36 }
    {
        self.units
    }

    // Whether it is below 0.
    pub(crate) fn is_negative(self) -> bool
        ensures { result ≡ int_lt self (pos 0) }
    {
        self.units < 0
    }

    // The units without the sign.
    pub(crate) fn magnitude(self) -> u128
        ensures value { result ≡ unsigned_abs self }
        ensures bound { result ≤ 10 ^ 36 }
    {
        self.units.unsigned_abs()
    }
}

// So many units with a sign.
pub fn with_sign(negative: bool, units: u128) -> Fixed
    requires { units ≤ 10 ^ 36 }
    ensures { result ≡ signed negative units }
{
    let units = units as i128;
    if negative {
        Fixed { units: -units }
    } else {
        Fixed { units }
    }
}

/// Returns whether `a` is at least `b`.
pub fn at_least(a: Fixed, b: Fixed) -> bool
    ensures { IsTrue result ↔ (b ≤ℤ a) }
{
    a.units >= b.units
}

/// The sum of a number of units and a number.
pub fn add(a: i128, b: Fixed) -> i128
    requires { FitsSigned w128 (a +ℤ b) }
    ensures { result ≡ a +ℤ b }
{
    a + b.units
}
