//! The trail: the true literals in order, with the level and the reason of each.
ghost use Rattle.std.specs.Prelude.{IfOk, take, slice_get, ◌⊎◌, ◌≡◌, ◌+◌, ◌*◌, ◌<◌, ◌≤◌, ℕ, All, IfSome, IfNone, slice_index_or, length, Option, Some, None, true, false};
ghost use Rattle.arena_core.specs.declared.arena.TheConstants.{MOST_CLAUSES};
ghost use Rattle.arena_core.specs.declared.lit.TheConstants.{MOST_VARIABLES};
ghost use Rattle.literals_core.specs.Literal.{variable_of};
ghost use Rattle.literals_core.specs.Truth.{is_true, is_false};
ghost use Rattle.watch_core.specs.Trail.{Assignment, Entry, IsTrail, order, places, cut, waiting, value_of, entered, assigned, decided, undone, one_taken, empty_trail};
ghost use Rattle.watch_core.specs.Kept.{reason_of, entries_of, IsKept};

use arena_core::{ClauseId, Lit};
use std::alloc::{AllocError, Global};
use std::marker::Model;

/// The value of a literal that is true.
const TRUE: u8 = 1;

/// The value of a literal that is false. A literal whose variable isn't assigned has the value 0.
const FALSE: u8 = 2;

/// Stands for no reason: above the number of each clause.
const NO_REASON: u32 = 4_294_967_295;

/// The level of a variable, and the number of the clause that is its reason.
#[derive(Clone, Copy)]
pub struct Mark {
    pub level: u32,
    pub reason: u32,
}

/// The true literals in order, each with a level and maybe a reason.
///
/// A literal waits from its `assign` or `decide` until propagation has taken it in. Only `new` takes memory.
#[derive(Drop)]
pub struct Trail<L: Lit> {
    values: Vec<u8>,
    marks: Vec<Mark>,
    order: Vec<L>,
    level: u32,
    taken: usize,
}

impl<L: Lit> Model for Trail<L> {
    ghost use Rattle.std.specs.Prelude.{vec_capacity, length};
    ghost use Rattle.watch_core.specs.Trail.{Assignment};

    ghost Value = { Assignment L };

    ghost use Rattle.watch_core.specs.Kept.{entries_of, Keeps};

    ghost view = { λ a. record {
      entries = entries_of L.table_place a.marks.items a.order.items;
      level = a.level;
      taken = a.taken;
      variables = length a.marks.items;
    } };

    ghost invariant = { λ a. Keeps L.table_place a.values.items a.marks.items a.order.items
        (vec_capacity a.order) a.taken a.level };
}

impl<L: Lit> Trail<L> {
    /// No literals, with room for the variables below `variables`.
    pub fn new(alloc: Global, variables: u32) -> Result<Trail<L>, AllocError>
        requires { variables ≤ MOST_VARIABLES }
        ensures { IfOk result (λ t. t ≡ empty_trail variables) }
    {
        let blank = Mark {
            level: 0,
            reason: NO_REASON,
        };
        let values = Vec::from_elem(alloc, 0, 2 * variables as usize)?;
        let marks = Vec::from_elem(alloc, blank, variables as usize)?;
        let order = Vec::with_capacity(alloc, variables as usize)?;
        Ok(Trail {
            values,
            marks,
            order,
            level: 0,
            taken: 0,
        })
    }

    /// How many variables the trail has room for: they are numbered from 0 up to below this number.
    #[inline]
    pub fn variables(&self) -> u32
        ensures { result ≡ self.now.variables }
    {
        self.marks.len() as u32
    }

    /// The current level: the number of decisions in force.
    #[inline]
    pub fn level(&self) -> u32
        ensures value { result ≡ self.now.level }
        ensures kept { IsTrail L.table_place self.now }
    {
        self.level
    }

    /// The true literals, the oldest first.
    pub fn order(&self) -> &[L]
        ensures { result.now ≡ order self.now.entries }
    {
        self.order.as_slice()
    }

    /// The level at which an assigned variable was assigned.
    #[inline]
    pub fn level_of(&self, variable: u32) -> u32
        requires { variable < self.now.variables }
        ensures { (i : ℕ) (d : Entry L) → i < length self.now.entries
            → variable_of (L.table_place (slice_index_or self.now.entries i d).literal) ≡ variable
            → result ≡ (slice_index_or self.now.entries i d).level }
    {
        self.marks[variable as usize].level
    }

    /// The clause that assigned a variable; None exactly when it isn't assigned or was given no reason.
    #[inline]
    pub fn reason_of(&self, variable: u32) -> Option<ClauseId>
        requires { variable < self.now.variables }
        ensures unassigned { value_of (places L.table_place self.now.entries) (2 * variable) ≡ None → result ≡ None }
        ensures given { (i : ℕ) (d : Entry L) → i < length self.now.entries
            → variable_of (L.table_place (slice_index_or self.now.entries i d).literal) ≡ variable
            → result ≡ (slice_index_or self.now.entries i d).reason }
    {
        if self.value_at(2 * variable as usize).is_none() {
            return None;
        }
        reason_numbered(self.marks[variable as usize].reason)
    }

    /// The first literal that waits.
    #[inline]
    pub(crate) fn first_waiting(&self) -> Option<L>
        ensures { result ≡ slice_get (order (waiting self.now)) 0 }
    {
        if self.taken < self.order.len() {
            Some(self.order[self.taken])
        } else {
            None
        }
    }

    /// The first waiting literal waits no more.
    #[inline]
    pub(crate) fn take_one(&mut self)
        requires { self.old.taken < length self.old.entries }
        ensures { self.new ≡ one_taken self.old }
    {
        self.taken += 1;
    }

    /// Whether a literal is true or false; None exactly when its variable isn't assigned.
    #[inline]
    pub fn value(&self, literal: L) -> Option<bool>
        requires { L.table_place literal < 2 * self.now.variables }
        ensures { result ≡ value_of (places L.table_place self.now.entries) (L.table_place literal) }
    {
        self.value_at(literal.place() as usize)
    }

    /// The value of the literal at a place.
    #[inline]
    fn value_at(&self, place: usize) -> Option<bool>
        requires { place < 2 * self.now.variables }
        ensures { result ≡ value_of (places L.table_place self.now.entries) place }
    {
        let value = self.values[place];
        if value == TRUE {
            Some(true)
        } else if value == FALSE {
            Some(false)
        } else {
            None
        }
    }

    /// Whether a literal is true.
    #[inline]
    pub fn is_true(&self, literal: L) -> bool
        requires { L.table_place literal < 2 * self.now.variables }
        ensures { result ≡ is_true (places L.table_place self.now.entries) (L.table_place literal) }
    {
        let value = self.values[literal.place() as usize];
        value == TRUE
    }

    /// Whether a literal is false.
    #[inline]
    pub fn is_false(&self, literal: L) -> bool
        requires { L.table_place literal < 2 * self.now.variables }
        ensures { result ≡ is_false (places L.table_place self.now.entries) (L.table_place literal) }
    {
        let value = self.values[literal.place() as usize];
        value == FALSE
    }

    /// One more true literal on a level, the current one or the next.
    fn enter(&mut self, literal: L, level: u32, reason: u32)
        requires place { L.table_place literal < 2 * self.old.variables }
        requires free { value_of (places L.table_place self.old.entries) (L.table_place literal) ≡ None }
        requires reason { (reason ≡ NO_REASON) ⊎ (reason < MOST_CLAUSES) }
        requires level { (level ≡ self.old.level) ⊎ (level ≡ self.old.level + 1) }
        ensures value { self.new ≡ entered self.old literal level (reason_of reason) }
        ensures kept { IsTrail L.table_place self.new }
    {
        let place = literal.place() as usize;
        let opposite = literal.negation().place() as usize;
        let mark = Mark { level, reason };
        self.values[place] = TRUE;
        self.values[opposite] = FALSE;
        self.marks[place / 2] = mark;
        self.order.push(literal).unwrap();
        self.level = level;
    }

    /// One more true literal, on the current level, with the clause that it follows from, if any.
    pub fn assign(&mut self, literal: L, reason: Option<ClauseId>)
        requires place { L.table_place literal < 2 * self.old.variables }
        requires free { value_of (places L.table_place self.old.entries) (L.table_place literal) ≡ None }
        ensures value { self.new ≡ assigned self.old literal reason }
        ensures kept { IsTrail L.table_place self.new }
    {
        let level = self.level();
        self.enter(literal, level, number_of(reason));
    }

    /// One more true literal, on a level of its own.
    pub fn decide(&mut self, literal: L)
        requires place { L.table_place literal < 2 * self.old.variables }
        requires free { value_of (places L.table_place self.old.entries) (L.table_place literal) ≡ None }
        ensures value { self.new ≡ decided self.old literal }
        ensures kept { IsTrail L.table_place self.new }
    {
        let level = self.level();
        self.enter(literal, level + 1, NO_REASON);
    }

    /// The literals of higher levels leave; the others keep their order, levels and reasons.
    pub fn undo_to(&mut self, level: u32)
        requires { level ≤ self.old.level }
        ensures value { self.new ≡ undone self.old level }
        ensures kept { IsTrail L.table_place self.new }
    {
        let size = clear_above(
            self.values.as_mut_slice(),
            self.marks.as_slice(),
            self.order.as_slice(),
            level,
        );
        self.order.truncate(size);
        self.taken = self.taken.min(size);
        self.level = level;
    }
}

/// Clears the values of the literals of higher levels, which stand last, and counts the others.
fn clear_above<L: Lit>(values: &mut [u8], marks: &[Mark], order: &[L], level: u32) -> usize
    requires kept { IsKept L.table_place values.old marks.now order.now (length marks.now) 0 }
    requires sorted { (i j : ℕ) (d : Entry L) → i < j → j < length order.now
        → (slice_index_or (entries_of L.table_place marks.now order.now) i d).level
        ≤ (slice_index_or (entries_of L.table_place marks.now order.now) j d).level }
    ensures kept { IsKept L.table_place values.new marks.now (take result order.now) (length marks.now) 0 }
    ensures few { result ≤ length order.now }
    ensures cut { cut (entries_of L.table_place marks.now order.now) level
        ≡ take result (entries_of L.table_place marks.now order.now) }
{
    let mut size = order.len();
    while size > 0 {
        let literal = order[size - 1];
        let place = literal.place() as usize;
        if marks[place / 2].level <= level {
            break;
        }
        values[place] = 0;
        values[literal.negation().place() as usize] = 0;
        size -= 1;
    }
    size
}

/// The number that stands for a reason.
#[inline]
fn number_of(reason: Option<ClauseId>) -> u32
    ensures value { reason_of result ≡ reason }
    ensures valid { (result ≡ NO_REASON) ⊎ (result < MOST_CLAUSES) }
{
    match reason {
        None => NO_REASON,
        Some(id) => id.number(),
    }
}

/// The reason that a number stands for.
#[inline]
fn reason_numbered(number: u32) -> Option<ClauseId>
    requires { (number ≡ NO_REASON) ⊎ (number < MOST_CLAUSES) }
    ensures { result ≡ reason_of number }
{
    if number == NO_REASON {
        None
    } else {
        Some(ClauseId::numbered(number))
    }
}

/// The first place from 2 on whose literal is not false.
#[inline]
pub(crate) fn open_place<L: Lit>(trail: &Trail<L>, clause: &[L]) -> Option<usize>
    requires { All (λ l. L.table_place l < 2 * trail.now.variables) clause.now }
    ensures found { IfSome result (λ j. (2 ≤ j) × (j < length clause.now)
        × ((l : L)
        → is_false (places L.table_place trail.now.entries) (L.table_place (slice_index_or clause.now j l)) ≡ false)) }
    ensures none { IfNone result ((j : ℕ) (l : L) → 2 ≤ j → j < length clause.now
        → is_false (places L.table_place trail.now.entries) (L.table_place (slice_index_or clause.now j l)) ≡ true) }
{
    for j in 2..clause.len() {
        let literal = clause[j];
        if !trail.is_false(literal) {
            return Some(j);
        }
    }
    None
}
