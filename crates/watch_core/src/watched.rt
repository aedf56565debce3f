//! Clauses with a trail, and propagation by watched seats.
ghost use Rattle.std.specs.Prelude.{ℕ, Contains, ◌≡◌, ◌==◌, ◌+◌, ◌*◌, ◌<◌, ◌≤◌, [], length, map, ◌∷◌, ◌++◌, OnOk, OnErr, Option, None, IfOk, slice_index_or};
ghost use Rattle.std.specs.List.{IsDistinct};
ghost use Rattle.arena_core.specs.declared.arena.TheConstants.{MOST_CLAUSES};
ghost use Rattle.arena_core.specs.declared.lit.TheConstants.{MOST_VARIABLES};
ghost use Rattle.literals_core.specs.DistinctVariables.{HasDistinctVariables};
ghost use Rattle.watch_core.specs.Places.{placed};
ghost use Rattle.watch_core.specs.Trail.{IsTrail, places, waiting, value_of, assigned, decided, undone, empty_trail};
ghost use Rattle.watch_core.specs.Rest.{CanPropagate, Outcome};
ghost use Rattle.watch_core.specs.Propagates.{Propagates, AreReordered};
ghost use Rattle.watch_core.specs.Looks.{false_occurrences, walked};
ghost use Rattle.watch_core.specs.Watched.{Clauses};
ghost use Rattle.watch_core.specs.Added.{CanAdd, standing_of};

use crate::added::{Added, find_standing, link_both};
use crate::trail::Trail;
use crate::walk::propagate_all;
use arena_core::{Arena, Chains, ClauseId, Lit, Steps};
use std::alloc::{AllocError, Global};
use std::marker::Model;
use std::sync::ledger::Ledger;

/// Clauses, a trail, and for each literal the chain of the seats that watch it.
///
/// Each clause of two or more literals watches its first two. Only `new` and `add_clause` take memory.
#[derive(Drop)]
pub struct Watched<L: Lit> {
    arena: Arena<L>,
    chains: Chains<L>,
    trail: Trail<L>,
}

impl<L: Lit> Model for Watched<L> {
    ghost use Rattle.watch_core.specs.Watched.{Clauses, IsHeld};

    ghost Value = { Clauses L };

    ghost view = { λ a. record { clauses = a.arena; trail = a.trail } };

    ghost invariant = { λ a. IsHeld L.table_place a.arena a.chains.chains a.chains.room a.trail };
}

impl<L: Lit> Watched<L> {
    /// No clauses and no true literals, with room for the variables below `variables`.
    pub fn new(alloc: Global, variables: u32) -> Result<Watched<L>, AllocError>
        requires { variables ≤ MOST_VARIABLES }
        ensures clauses { IfOk result (λ w. w.clauses ≡ []) }
        ensures trail { IfOk result (λ w. w.trail ≡ empty_trail variables) }
    {
        let chains = Chains::new(alloc, variables)?;
        let trail = Trail::new(alloc, variables)?;
        Ok(Watched {
            arena: Arena::new(alloc),
            chains,
            trail,
        })
    }

    /// Lends the trail.
    #[inline]
    pub fn trail(&self) -> &Trail<L>
        ensures value { result.now ≡ self.now.trail }
        ensures kept { IsTrail L.table_place self.now.trail }
    {
        &self.trail
    }

    /// Lends the clauses. The literals of each are of distinct variables, which there are.
    #[inline]
    pub fn arena(&self) -> &Arena<L>
        ensures value { result.now ≡ self.now.clauses }
        ensures inside { (clause place : ℕ)
            → Contains (slice_index_or (placed L.table_place self.now.clauses) clause []) place
            → place < 2 * self.now.trail.variables }
        ensures distinct { (clause : ℕ)
            → IsDistinct (λ x y. x == y) (slice_index_or (placed L.table_place self.now.clauses) clause []) }
        ensures apart { (clause : ℕ)
            → HasDistinctVariables (slice_index_or (placed L.table_place self.now.clauses) clause []) }
    {
        &self.arena
    }

    /// One more true literal, on the current level, with the clause that it follows from, if any.
    pub fn assign(&mut self, literal: L, reason: Option<ClauseId>)
        requires place { L.table_place literal < 2 * self.old.trail.variables }
        requires free { value_of (places L.table_place self.old.trail.entries) (L.table_place literal) ≡ None }
        ensures trail { self.new.trail ≡ assigned self.old.trail literal reason }
        ensures clauses { self.new.clauses ≡ self.old.clauses }
        ensures kept { IsTrail L.table_place self.new.trail }
    {
        self.trail.assign(literal, reason);
    }

    /// One more true literal, on a new level. No literal may wait.
    pub fn decide(&mut self, literal: L)
        requires place { L.table_place literal < 2 * self.old.trail.variables }
        requires free { value_of (places L.table_place self.old.trail.entries) (L.table_place literal) ≡ None }
        requires rest { waiting self.old.trail ≡ [] }
        ensures trail { self.new.trail ≡ decided self.old.trail literal }
        ensures clauses { self.new.clauses ≡ self.old.clauses }
        ensures kept { IsTrail L.table_place self.new.trail }
    {
        self.trail.decide(literal);
    }

    /// The literals of higher levels leave; the others keep their order, levels and reasons.
    pub fn undo_to(&mut self, level: u32)
        requires { level ≤ self.old.trail.level }
        ensures trail { self.new.trail ≡ undone self.old.trail level }
        ensures clauses { self.new.clauses ≡ self.old.clauses }
        ensures kept { IsTrail L.table_place self.new.trail }
    {
        self.trail.undo_to(level);
    }

    /// Puts a clause last, and tells how it stands. No literal may wait.
    ///
    /// Of two or more literals the first isn't false, and either the second isn't false too, or all but the first are
    /// false and the second has the highest level among them. Out of memory, clauses and trail stay as they were.
    pub fn add_clause(&mut self, literals: &[L]) -> Result<Added, AllocError>
        requires few { length self.old.clauses < MOST_CLAUSES }
        requires clause { CanAdd L.table_place self.old.trail (map L.table_place literals.now) }
        requires rest { waiting self.old.trail ≡ [] }
        ensures trail { self.new.trail ≡ self.old.trail }
        ensures kept { IsTrail L.table_place self.new.trail }
        ensures clause { OnOk result (self.new.clauses ≡ self.old.clauses ++ literals.now ∷ []) }
        ensures err { OnErr result (self.new.clauses ≡ self.old.clauses) }
        ensures id { IfOk result (λ a. a.id ≡ length self.old.clauses) }
        ensures standing { IfOk result (λ a. a.standing
            ≡ standing_of (places L.table_place self.old.trail.entries) (map L.table_place literals.now)) }
    {
        let count = self.arena.count();
        self.chains.reserve(count + 1)?;
        let id = self.arena.push(literals)?;
        link_both(&mut self.chains, id, literals);
        let standing = find_standing(&self.trail, literals);
        Ok(Added { id, standing })
    }

    /// Takes in the waiting literals until none waits or a clause is false, and returns the number of that clause.
    ///
    /// Condition: under the trail cut at each lower level each clause of two or more literals is settled, so it has a
    /// true literal or two that aren't false. On the whole trail it is settled too, or has the negation of a waiting
    /// literal. None is returned exactly when each clause is settled. The looks are at most the occurrences of the
    /// literals that became false and whose chains were walked.
    pub fn propagate<S: Ledger>(&mut self, looks: &mut Steps<S>) -> Option<ClauseId>
        requires ready { CanPropagate L.table_place self.old.trail (placed L.table_place self.old.clauses) }
        ensures outcome { Outcome L.table_place self.new.trail (placed L.table_place self.new.clauses) result }
        ensures order { AreReordered self.old.clauses self.new.clauses }
        ensures change { Propagates L.table_place (placed L.table_place self.old.clauses) self.old.trail
            (placed L.table_place self.new.clauses) self.new.trail }
        ensures kept { IsTrail L.table_place self.new.trail }
        ensures looks { looks.new
            ≤ looks.old + false_occurrences (placed L.table_place self.old.clauses)
            (places L.table_place (walked self.old.trail self.new.trail)) }
    {
        propagate_all(&mut self.arena, &mut self.chains, &mut self.trail, looks)
    }
}
