//! The walk along the chain of a literal that became false.
ghost use Rattle.std.specs.Prelude.{◌≡◌, ◌+◌, ◌*◌, ◌<◌, ◌≤◌, [], length, Option, IfSome, IfNone, true};
ghost use Rattle.arena_core.specs.Chains.{chain_at, AreApart};
ghost use Rattle.literals_core.specs.Truth.{is_false};
ghost use Rattle.watch_core.specs.Places.{placed};
ghost use Rattle.watch_core.specs.Trail.{places, waiting};
ghost use Rattle.watch_core.specs.Rest.{IsFalseClause};
ghost use Rattle.watch_core.specs.Cover.{IsPropagating, watched_at};
ghost use Rattle.watch_core.specs.Propagates.{Propagates};
ghost use Rattle.watch_core.specs.Looks.{false_occurrences, walked};
ghost use Rattle.watch_core.specs.Walk.{IsSeat, Visited, AllWalked};

use crate::trail::{Trail, open_place};
use arena_core::{Arena, Chains, ClauseId, Lit, Seat, Steps};
use std::sync::ledger::Ledger;

/// What became of a visited seat.
#[derive(Clone, Copy)]
pub enum Visit {
    /// It stays in the chain, and its clause has a true literal.
    Stays,
    /// It watches another literal now, which isn't false.
    Moved,
    /// All literals of its clause are false.
    False,
}

/// Visits one seat of a literal that became false, at the price of one look at most.
///
/// The chains know the other watched literal. If it is true, that is enough; and no literal of a clause of two is read.
fn visit_seat<L: Lit, S: Ledger>(
    arena: &mut Arena<L>,
    chains: &mut Chains<L>,
    trail: &mut Trail<L>,
    seat: Seat,
    looks: &mut Steps<S>,
) -> Visit
    requires going { IsPropagating L.table_place (placed L.table_place arena.old) chains.old.chains trail.old }
    requires seat { IsSeat (placed L.table_place arena.old) seat }
    requires waits { is_false (places L.table_place (waiting trail.old))
        (watched_at (placed L.table_place arena.old) seat) ≡ true }
    ensures going { IsPropagating L.table_place (placed L.table_place arena.new) chains.new.chains trail.new }
    ensures goes { Propagates L.table_place (placed L.table_place arena.old) trail.old
        (placed L.table_place arena.new) trail.new }
    ensures room { chains.new.room ≡ chains.old.room }
    ensures taken { trail.new.taken ≡ trail.old.taken }
    ensures look { looks.new ≤ looks.old + 1 }
    ensures outcome { Visited L.table_place (placed L.table_place arena.old) chains.old.chains trail.old
        (placed L.table_place arena.new) chains.new.chains trail.new seat result }
{
    let other = chains.literal_of(seat.other());
    if trail.is_true(other) {
        return Visit::Stays;
    }
    let id = seat.clause();
    let clause = arena.literals(id, looks);
    if let Some(j) = open_place(trail, clause) {
        let to = clause[j];
        arena.swap(id, seat.side() as u32, j as u32);
        chains.move_seat(seat, to);
        return Visit::Moved;
    }
    if trail.is_false(other) {
        return Visit::False;
    }
    trail.assign(other, Some(id));
    Visit::Stays
}

/// Walks along the chain of a literal that became false.
fn walk<L: Lit, S: Ledger>(
    arena: &mut Arena<L>,
    chains: &mut Chains<L>,
    trail: &mut Trail<L>,
    literal: L,
    looks: &mut Steps<S>,
) -> Option<ClauseId>
    requires going { IsPropagating L.table_place (placed L.table_place arena.old) chains.old.chains trail.old }
    requires waits { is_false (places L.table_place (waiting trail.old)) (L.table_place literal) ≡ true }
    requires place { L.table_place literal < 2 * trail.old.variables }
    ensures going { IsPropagating L.table_place (placed L.table_place arena.new) chains.new.chains trail.new }
    ensures goes { Propagates L.table_place (placed L.table_place arena.old) trail.old
        (placed L.table_place arena.new) trail.new }
    ensures room { chains.new.room ≡ chains.old.room }
    ensures taken { trail.new.taken ≡ trail.old.taken }
    ensures apart { AreApart chains.old.chains }
    ensures looks { looks.new ≤ looks.old + length (chain_at chains.old.chains (L.table_place literal)) }
    ensures none { IfNone result
        (AllWalked (places L.table_place trail.new.entries) (placed L.table_place arena.new) (L.table_place literal)) }
    ensures some { IfSome result
        (IsFalseClause (places L.table_place trail.new.entries) (placed L.table_place arena.new)) }
{
    let mut current = chains.first(literal);
    while let Some(seat) = current {
        current = chains.next(seat);
        if let Visit::False = visit_seat(arena, chains, trail, seat, looks) {
            return Some(seat.clause());
        }
    }
    None
}

/// Walks along the chain of the negation of each waiting literal, the oldest first.
pub(crate) fn propagate_all<L: Lit, S: Ledger>(
    arena: &mut Arena<L>,
    chains: &mut Chains<L>,
    trail: &mut Trail<L>,
    looks: &mut Steps<S>,
) -> Option<ClauseId>
    requires going { IsPropagating L.table_place (placed L.table_place arena.old) chains.old.chains trail.old }
    ensures going { IsPropagating L.table_place (placed L.table_place arena.new) chains.new.chains trail.new }
    ensures goes { Propagates L.table_place (placed L.table_place arena.old) trail.old
        (placed L.table_place arena.new) trail.new }
    ensures room { chains.new.room ≡ chains.old.room }
    ensures looks { looks.new
        ≤ looks.old + false_occurrences (placed L.table_place arena.old)
        (places L.table_place (walked trail.old trail.new)) }
    ensures none { IfNone result (waiting trail.new ≡ []) }
    ensures some { IfSome result
        (IsFalseClause (places L.table_place trail.new.entries) (placed L.table_place arena.new)) }
{
    while let Some(literal) = trail.first_waiting() {
        if let Some(id) = walk(arena, chains, trail, literal.negation(), looks) {
            return Some(id);
        }
        trail.take_one();
    }
    None
}
