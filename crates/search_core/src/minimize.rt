//! Minimisation: literals of a lemma that follow from its others are left out (Sörensson and Biere 2009, local).
ghost use Rattle.std.specs.Prelude.{ℕ, ◌≡◌, ◌*◌, ◌<◌, ◌≤◌, length, All, Some, IfSome, OnOk};
ghost use Rattle.std.specs.Bool.{OnTrue};
ghost use Rattle.watch_core.specs.Trail.{IsTrail};
ghost use Rattle.search_core.specs.State.{place, AreReasoned};
ghost use Rattle.search_core.specs.Analysis.{AreMarked, AreInside, IsFalseOrOpposite, IsLower, IsExplained, Fits, Gives};

use crate::analyze::Analysis;
use crate::inner_literal::InnerLiteral;
use arena_core::{Arena, ClauseId, Lit, Steps};
use std::alloc::AllocError;
use std::sync::ledger::Ledger;
use watch_core::Trail;

impl Analysis {
    /// Whether a literal is the negation of `left`, or another literal of the lemma, of a lower level.
    #[inline]
    fn fits(&self, trail: &Trail<InnerLiteral>, literal: InnerLiteral, left: InnerLiteral) -> bool
        requires trail { IsTrail place trail.now }
        requires size { length self.now.stamps.items ≡ trail.now.variables }
        requires marked { AreMarked trail.now self.now.stamps.items self.now.stamp self.now.lower.items }
        requires out { IsFalseOrOpposite trail.now left literal }
        requires inside { literal < 2 * trail.now.variables }
        ensures { OnTrue result (Fits left self.now.lower.items literal) }
    {
        if literal.place() == left.negation().place() {
            return true;
        }
        if literal.place() == left.place() {
            return false;
        }
        let variable = literal.variable();
        if self.stamps[variable as usize] != self.stamp {
            return false;
        }
        if trail.level_of(variable) >= trail.level() {
            return false;
        }
        true
    }

    /// Whether each literal of a clause fits.
    fn all_fit(
        &self,
        trail: &Trail<InnerLiteral>,
        clause: &[InnerLiteral],
        left: InnerLiteral,
    ) -> bool
        requires trail { IsTrail place trail.now }
        requires size { length self.now.stamps.items ≡ trail.now.variables }
        requires marked { AreMarked trail.now self.now.stamps.items self.now.stamp self.now.lower.items }
        requires out { All (IsFalseOrOpposite trail.now left) clause.now }
        requires inside { All (λ l. l < 2 * trail.now.variables) clause.now }
        ensures { OnTrue result (All (Fits left self.now.lower.items) clause.now) }
    {
        for literal in clause {
            if !self.fits(trail, *literal, left) {
                return false;
            }
        }
        true
    }

    /// The reason of a literal's negation, if with it the literal follows from the lemma's others.
    fn redundant_by<S: Ledger>(
        &self,
        trail: &Trail<InnerLiteral>,
        arena: &Arena<InnerLiteral>,
        literal: InnerLiteral,
        looks: &mut Steps<S>,
    ) -> Option<ClauseId>
        requires trail { IsTrail place trail.now }
        requires inside { AreInside trail.now arena.now }
        requires reasoned { AreReasoned trail.now arena.now }
        requires size { length self.now.stamps.items ≡ trail.now.variables }
        requires marked { AreMarked trail.now self.now.stamps.items self.now.stamp self.now.lower.items }
        requires low { IsLower trail.now literal }
        ensures { IfSome result (λ id. Gives arena.now id literal self.now.lower.items) }
    {
        let Some(reason) = trail.reason_of(literal.variable()) else {
            return None;
        };
        let clause = arena.literals(reason, looks);
        if self.all_fit(trail, clause, literal) {
            Some(reason)
        } else {
            None
        }
    }

    /// Leaves out the literal at a place of `lower`, if it follows from the others. The clause that shows this joins
    /// the hints.
    fn leave_out<S: Ledger>(
        &mut self,
        trail: &Trail<InnerLiteral>,
        arena: &Arena<InnerLiteral>,
        k: usize,
        looks: &mut Steps<S>,
    ) -> Result<(), AllocError>
        requires trail { IsTrail place trail.now }
        requires inside { AreInside trail.now arena.now }
        requires reasoned { AreReasoned trail.now arena.now }
        requires size { length self.old.stamps.items ≡ trail.now.variables }
        requires old { All (λ s. s ≤ self.old.stamp) self.old.stamps.items }
        requires stamp { 1 ≤ self.old.stamp }
        requires marked { AreMarked trail.now self.old.stamps.items self.old.stamp self.old.lower.items }
        requires known { k < length self.old.lower.items }
        ensures size { length self.new.stamps.items ≡ length self.old.stamps.items }
        ensures old { All (λ s. s ≤ self.new.stamp) self.new.stamps.items }
        ensures stamp { self.new.stamp ≡ self.old.stamp }
        ensures marked { OnOk result (AreMarked trail.now self.new.stamps.items self.new.stamp self.new.lower.items) }
        ensures explained { (point : ℕ)
            → IsExplained trail.now arena.now (Some point) self.old.lower.items self.old.hints.items
            → OnOk result (IsExplained trail.now arena.now (Some point) self.new.lower.items self.new.hints.items) }
        ensures few { OnOk result (k ≤ length self.new.lower.items) }
    {
        if self.hints.len() > trail.order().len() {
            return Ok(());
        }
        let literal = self.lower[k];
        let Some(reason) = self.redundant_by(trail, arena, literal, looks) else {
            return Ok(());
        };
        self.lower.swap_remove(k);
        self.stamps[literal.variable() as usize] = 0;
        self.hints.push(reason.number() + 1)?;
        Ok(())
    }

    /// Leaves out each literal that follows from the others with its reason, which joins the hints.
    pub(crate) fn minimize<S: Ledger>(
        &mut self,
        trail: &Trail<InnerLiteral>,
        arena: &Arena<InnerLiteral>,
        looks: &mut Steps<S>,
    ) -> Result<(), AllocError>
        requires trail { IsTrail place trail.now }
        requires inside { AreInside trail.now arena.now }
        requires reasoned { AreReasoned trail.now arena.now }
        requires size { length self.old.stamps.items ≡ trail.now.variables }
        requires old { All (λ s. s ≤ self.old.stamp) self.old.stamps.items }
        requires stamp { 1 ≤ self.old.stamp }
        requires marked { AreMarked trail.now self.old.stamps.items self.old.stamp self.old.lower.items }
        ensures size { length self.new.stamps.items ≡ length self.old.stamps.items }
        ensures old { All (λ s. s ≤ self.new.stamp) self.new.stamps.items }
        ensures stamp { self.new.stamp ≡ self.old.stamp }
        ensures explained { (point : ℕ)
            → IsExplained trail.now arena.now (Some point) self.old.lower.items self.old.hints.items
            → OnOk result (IsExplained trail.now arena.now (Some point) self.new.lower.items self.new.hints.items) }
    {
        let mut k = self.lower.len();
        while k > 0 {
            k -= 1;
            self.leave_out(trail, arena, k, looks)?;
        }
        Ok(())
    }
}
