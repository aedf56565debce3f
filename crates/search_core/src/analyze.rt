//! Conflict analysis: from a false clause to a lemma, and to the clauses that show it.
//!
//! The lemma is cut at the first unique implication point (Marques-Silva and Sakallah 1999; Zhang and others 2001).
ghost use Rattle.std.specs.Prelude.{ℕ, ◌≡◌, ◌+◌, ◌<◌, ◌≤◌, [], length, All, Some, IfOk, OnOk, slice_index_or};
ghost use Rattle.watch_core.specs.Trail.{IsTrail, places};
ghost use Rattle.watch_core.specs.Rest.{IsClauseFalse};
ghost use Rattle.search_core.specs.State.{place, AreReasoned};
ghost use Rattle.search_core.specs.Analysis.{HasCurrent, IsLastOpen, IsWalked, HasOpenBelow, AreInside};
ghost use Rattle.search_core.specs.Analysis.{AreMarked, IsMade, Show, below_of};
ghost use Rattle.search_core.specs.declared.outcome.TheConstants.{MOST_LEMMAS};

use crate::activity::Activity;
use crate::backjump::first_above;
use crate::inner_literal::InnerLiteral;
use crate::mark::{last_marked, mark_clause};
use arena_core::{Arena, ClauseId, Lit, Steps};
use std::alloc::{AllocError, Global};
use std::sync::ledger::Ledger;
use watch_core::Trail;

/// What an analysis works with. Its vectors are kept from one conflict to the next.
#[derive(Drop)]
pub(crate) struct Analysis {
    /// By variable, the number of the conflict that marked it last.
    pub(crate) stamps: Vec<u32>,
    /// The number of the current conflict, from 1.
    pub(crate) stamp: u32,
    /// The first place of the current level on the trail, as a hint.
    floor: usize,
    /// The literals of the lemma that became false on lower levels.
    pub(crate) lower: Vec<InnerLiteral>,
    /// The whole lemma, with its literal of the current level first.
    pub(crate) clause: Vec<InnerLiteral>,
    /// The ids of the clauses that show the lemma, the last one first.
    pub(crate) hints: Vec<u32>,
}

impl Analysis {
    /// No conflict yet, over the variables below `count`.
    pub(crate) fn new(alloc: Global, count: u32) -> Result<Analysis, AllocError>
        ensures size { IfOk result (λ a. length a.stamps.items ≡ count) }
        ensures old { IfOk result (λ a. All (λ s. s ≤ 0) a.stamps.items) }
        ensures stamp { IfOk result (λ a. a.stamp ≡ 0) }
    {
        let stamps = Vec::from_elem(alloc, 0u32, count as usize)?;
        Ok(Analysis {
            stamps,
            stamp: 0,
            floor: 0,
            lower: Vec::new(alloc),
            clause: Vec::new(alloc),
            hints: Vec::new(alloc),
        })
    }

    /// The last place below `below` on the trail, on the current level, whose variable is marked.
    fn last_open(&self, trail: &Trail<InnerLiteral>, below: usize) -> Option<usize>
        requires size { length self.now.stamps.items ≡ trail.now.variables }
        requires below { below ≤ length trail.now.entries }
        ensures { IsLastOpen trail.now self.now.stamps.items self.now.stamp below result }
    {
        last_marked(trail, self.stamps.as_slice(), self.stamp, self.floor, below)
    }

    /// Begins with a false clause. Returns the last place of the current level that is marked, if any.
    fn begin<S: Ledger>(
        &mut self,
        trail: &Trail<InnerLiteral>,
        arena: &Arena<InnerLiteral>,
        conflict: ClauseId,
        activity: &mut Activity,
        looks: &mut Steps<S>,
    ) -> Result<Option<usize>, AllocError>
        requires trail { IsTrail place trail.now }
        requires inside { AreInside trail.now arena.now }
        requires known { conflict < length arena.now }
        requires out { IsClauseFalse (places place trail.now.entries) (slice_index_or arena.now conflict []) }
        requires current { 0 < trail.now.level → HasCurrent trail.now (slice_index_or arena.now conflict []) }
        requires size { length self.old.stamps.items ≡ trail.now.variables }
        requires old { All (λ s. s < self.old.stamp) self.old.stamps.items }
        ensures size { length self.new.stamps.items ≡ length self.old.stamps.items }
        ensures old { All (λ s. s ≤ self.new.stamp) self.new.stamps.items }
        ensures stamp { self.new.stamp ≡ self.old.stamp }
        ensures walked { IfOk result (IsWalked trail.now arena.now self.new.stamps.items self.new.stamp
            self.new.lower.items self.new.hints.items) }
    {
        let stamp = self.stamp;
        self.lower.clear();
        self.hints.clear();
        let clause = arena.literals(conflict, looks);
        mark_clause(
            trail,
            clause,
            &mut self.stamps,
            stamp,
            &mut self.lower,
            activity,
        )?;
        self.hints.push(conflict.number() + 1)?;
        let below = trail.order().len();
        Ok(self.last_open(trail, below))
    }

    /// Resolves with the reason of the last marked place. Returns the next one.
    fn resolve<S: Ledger>(
        &mut self,
        trail: &Trail<InnerLiteral>,
        arena: &Arena<InnerLiteral>,
        last: usize,
        activity: &mut Activity,
        looks: &mut Steps<S>,
    ) -> Result<Option<usize>, AllocError>
        requires trail { IsTrail place trail.now }
        requires inside { AreInside trail.now arena.now }
        requires reasoned { AreReasoned trail.now arena.now }
        requires size { length self.old.stamps.items ≡ trail.now.variables }
        requires old { All (λ s. s ≤ self.old.stamp) self.old.stamps.items }
        requires walked { IsWalked trail.now arena.now self.old.stamps.items self.old.stamp
            self.old.lower.items self.old.hints.items (Some last) }
        requires more { 0 < trail.now.level → HasOpenBelow trail.now self.old.stamps.items self.old.stamp last }
        ensures size { length self.new.stamps.items ≡ length self.old.stamps.items }
        ensures old { All (λ s. s ≤ self.new.stamp) self.new.stamps.items }
        ensures stamp { self.new.stamp ≡ self.old.stamp }
        ensures falls { IfOk result (λ next. below_of next ≤ last) }
        ensures walked { IfOk result (IsWalked trail.now arena.now self.new.stamps.items self.new.stamp
            self.new.lower.items self.new.hints.items) }
    {
        let stamp = self.stamp;
        let literal = trail.order()[last];
        let reason = trail.reason_of(literal.variable()).unwrap();
        let clause = arena.literals(reason, looks);
        mark_clause(
            trail,
            clause,
            &mut self.stamps,
            stamp,
            &mut self.lower,
            activity,
        )?;
        self.hints.push(reason.number() + 1)?;
        Ok(self.last_open(trail, last))
    }

    /// Resolves a false clause with the reasons of the current level, the last one first, until one marked literal of
    /// that level is left, which it returns. On level 0 it goes on until none is left.
    pub(crate) fn analyze<S: Ledger>(
        &mut self,
        trail: &Trail<InnerLiteral>,
        arena: &Arena<InnerLiteral>,
        conflict: ClauseId,
        activity: &mut Activity,
        looks: &mut Steps<S>,
    ) -> Result<Option<InnerLiteral>, AllocError>
        requires trail { IsTrail place trail.now }
        requires inside { AreInside trail.now arena.now }
        requires known { conflict < length arena.now }
        requires out { IsClauseFalse (places place trail.now.entries) (slice_index_or arena.now conflict []) }
        requires current { 0 < trail.now.level → HasCurrent trail.now (slice_index_or arena.now conflict []) }
        requires reasoned { AreReasoned trail.now arena.now }
        requires size { length self.old.stamps.items ≡ trail.now.variables }
        requires old { All (λ s. s < self.old.stamp) self.old.stamps.items }
        ensures made { IfOk result (λ point. IsMade trail.now point self.new.lower.items) }
        ensures shown { IfOk result (λ point. Show arena.now point self.new.lower.items self.new.hints.items) }
        ensures marked { OnOk result (AreMarked trail.now self.new.stamps.items self.new.stamp self.new.lower.items) }
        ensures hints { OnOk result (All (λ h. (1 ≤ h) × (h ≤ length arena.now)) self.new.hints.items) }
        ensures few { OnOk result (length self.new.hints.items ≤ length trail.now.entries + 1) }
        ensures size { length self.new.stamps.items ≡ length self.old.stamps.items }
        ensures old { All (λ s. s ≤ self.new.stamp) self.new.stamps.items }
        ensures stamp { self.new.stamp ≡ self.old.stamp }
    {
        let level = trail.level();
        self.floor = first_above(trail, level.saturating_sub(1));
        let mut last = self.begin(trail, arena, conflict, activity, looks)?;
        while let Some(place) = last {
            if level > 0 && self.last_open(trail, place).is_none() {
                return Ok(Some(trail.order()[place]));
            }
            last = self.resolve(trail, arena, place, activity, looks)?;
        }
        Ok(None)
    }
}
