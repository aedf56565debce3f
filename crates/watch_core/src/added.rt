//! How a new clause stands, and the seats that it gets.
ghost use Rattle.std.specs.Prelude.{ℕ, ◌≡◌, ◌/◌, ◌<◌, length, map, All};
ghost use Rattle.arena_core.specs.Chains.{IsSeated};
ghost use Rattle.watch_core.specs.Trail.{places};
ghost use Rattle.watch_core.specs.Added.{CanAdd, standing_of, both_put};

use crate::trail::Trail;
use arena_core::{Chains, ClauseId, Lit, Seat};

/// How a new clause stands.
#[derive(Clone, Copy, Debug, PartialEq, Eq)]
pub enum Standing {
    /// A literal is true, or at least two aren't false.
    Free,
    /// One literal is neither true nor false, and all others are false.
    Unit,
    /// Every literal is false.
    False,
}

/// A new clause: its number, and how it stands.
#[derive(Clone, Copy, Debug)]
pub struct Added {
    pub id: ClauseId,
    pub standing: Standing,
}

/// How a clause stands that meets the conditions of a new one.
pub(crate) fn find_standing<L: Lit>(trail: &Trail<L>, clause: &[L]) -> Standing
    requires { CanAdd L.table_place trail.now (map L.table_place clause.now) }
    ensures { result ≡ standing_of (places L.table_place trail.now.entries) (map L.table_place clause.now) }
{
    if clause.len() == 0 {
        return Standing::False;
    }
    let first = clause[0];
    if trail.is_false(first) {
        return Standing::False;
    }
    if trail.is_true(first) {
        return Standing::Free;
    }
    if clause.len() == 1 {
        return Standing::Unit;
    }
    if !trail.is_false(clause[1]) {
        return Standing::Free;
    }
    // If the second literal is false, all but the first are.
    Standing::Unit
}

/// Puts both seats of a clause into their chains.
pub(crate) fn link_both<L: Lit>(chains: &mut Chains<L>, id: ClauseId, clause: &[L])
    requires room { id < chains.old.room }
    requires inside { All (λ l. L.table_place l < length chains.old.chains) clause.now }
    requires free { (s : ℕ) → s / 2 ≡ id → IsSeated chains.old.chains s → ⊥ }
    ensures chains { chains.new.chains ≡ both_put chains.old.chains id (map L.table_place clause.now) }
    ensures room { chains.new.room ≡ chains.old.room }
{
    if clause.len() < 2 {
        return;
    }
    chains.link(Seat::of(id, 0), clause[0]);
    chains.link(Seat::of(id, 1), clause[1]);
}
