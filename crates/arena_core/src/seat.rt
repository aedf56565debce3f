//! Seats: the places from which a clause watches two of its literals.
ghost use Rattle.std.specs.Prelude.{◌≡◌, ◌+◌, ◌-◌, ◌*◌, ◌/◌, ◌%◌, ◌<◌, ◌≤◌};

use crate::arena::ClauseId;
use std::marker::Model;

/// The most seats that there can be: two for each clause.
pub const MOST_SEATS: u32 = 4_200_000_000;

/// A clause and a side, 0 or 1; contracts see it as twice the number of the clause, plus the side.
#[derive(Clone, Copy, Debug, PartialEq, Eq)]
pub struct Seat {
    number: u32,
}

impl Model for Seat {
    ghost use Rattle.std.specs.Prelude.{ℕ, ◌<◌};
    ghost use Rattle.arena_core.specs.declared.seat.TheConstants.{MOST_SEATS};

    ghost Value = { ℕ };

    ghost view = { λ s. s.number };

    ghost invariant = { λ s. s.number < MOST_SEATS };

    ghost inverse = { λ n. record { number = n } };
}

impl Seat {
    /// The seat of a clause on a side.
    #[inline]
    pub fn of(clause: ClauseId, side: u8) -> Seat
        requires { side ≤ 1 }
        ensures { result ≡ 2 * clause + side }
    {
        Seat {
            number: 2 * clause.number() + side as u32,
        }
    }

    /// The seat of the same clause on the other side.
    #[inline]
    pub fn other(self) -> Seat
        ensures { result ≡ 2 * (self / 2) + (1 - self % 2) }
    {
        let number = if self.number % 2 == 0 {
            self.number + 1
        } else {
            self.number - 1
        };
        Seat { number }
    }

    /// The seat at a place in a table of seats.
    #[inline]
    pub(crate) fn at(number: u32) -> Seat
        requires { number < MOST_SEATS }
        ensures { result ≡ number }
    {
        Seat { number }
    }

    /// The seat's place in a table of seats.
    #[inline]
    pub(crate) fn slot(self) -> u32
        ensures { result ≡ self }
    {
        self.number
    }

    /// The clause.
    #[inline]
    pub fn clause(self) -> ClauseId
        ensures { result ≡ self / 2 }
    {
        ClauseId::numbered(self.number / 2)
    }

    /// The side, 0 or 1.
    #[inline]
    pub fn side(self) -> u8
        ensures { result ≡ self % 2 }
    {
        (self.number % 2) as u8
    }
}
