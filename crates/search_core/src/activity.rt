//! The order in which variables are decided.
//!
//! It is a hint: a contract says only that the literal that it returns is not assigned.
ghost use Rattle.std.specs.Prelude.{◌≤◌, IfSome};
ghost use Rattle.arena_core.specs.declared.lit.TheConstants.{MOST_VARIABLES};
ghost use Rattle.search_core.specs.State.{CanDecide};

use crate::inner_literal::InnerLiteral;
use std::alloc::{AllocError, Global};
use watch_core::Trail;

/// The place of a variable that is not in the heap.
const NOWHERE: u32 = 4_294_967_295;

/// The greatest depth of a heap whose places fit 32 bits.
const DEPTH: u32 = 32;

/// The weight of the first conflict.
const FIRST_WEIGHT: u64 = 1_048_576;

/// Activities above this one make all of them be scaled down.
const HIGHEST: u64 = 1_152_921_504_606_846_976;

/// What activities are divided by when they are scaled down.
const SCALE: u64 = 1_099_511_627_776;

/// The activity of a variable, its place in the heap, and the sign that it had when it was last assigned.
#[derive(Clone, Copy)]
struct Node {
    activity: u64,
    at: u32,
    has_minus: bool,
}

/// The variables in a heap, the most active one first (the VSIDS heuristic, with the decay of `MiniSat`).
///
/// Each conflict weighs a sixteenth more than the one before.
#[derive(Drop)]
pub(crate) struct Activity {
    nodes: Vec<Node>,
    heap: Vec<u32>,
    size: u32,
    weight: u64,
}

impl Activity {
    /// The variables below `count`, each with a minus and the lowest one first.
    pub(crate) fn new(alloc: Global, count: u32) -> Result<Activity, AllocError> {
        let mut nodes = Vec::with_capacity(alloc, count as usize)?;
        let mut heap = Vec::with_capacity(alloc, count as usize)?;
        for variable in 0..count {
            nodes.push(Node {
                activity: 0,
                at: variable,
                has_minus: true,
            })?;
            heap.push(variable)?;
        }
        Ok(Activity {
            nodes,
            heap,
            size: count,
            weight: FIRST_WEIGHT,
        })
    }

    /// The variable at a place of the heap.
    #[inline]
    fn variable_at(&self, at: u32) -> Option<u32> {
        self.heap.get(at as usize).copied()
    }

    /// The activity of a variable.
    #[inline]
    fn activity_of(&self, variable: u32) -> u64 {
        match self.nodes.get(variable as usize) {
            Some(node) => node.activity,
            None => 0,
        }
    }

    /// Puts a variable at a place of the heap.
    #[inline]
    fn put(&mut self, at: u32, variable: u32) {
        if let Some(slot) = self.heap.get_mut(at as usize) {
            *slot = variable;
        }
        if let Some(node) = self.nodes.get_mut(variable as usize) {
            node.at = at;
        }
    }

    /// Lets a variable rise from a place until the one above it is at least as active.
    fn rise(&mut self, variable: u32, from: u32) {
        let activity = self.activity_of(variable);
        let mut at = from;
        for _ in 0..DEPTH {
            if at == 0 {
                break;
            }
            let above = (at - 1) / 2;
            let Some(other) = self.variable_at(above) else {
                break;
            };
            if self.activity_of(other) >= activity {
                break;
            }
            self.put(at, other);
            at = above;
        }
        self.put(at, variable);
    }

    /// The more active one of the two variables below a place, with its place.
    #[inline]
    fn below(&self, at: u32) -> Option<(u32, u32)> {
        let left_at = at.wrapping_mul(2).wrapping_add(1);
        let right_at = left_at.wrapping_add(1);
        if left_at >= self.size {
            return None;
        }
        let left = self.variable_at(left_at)?;
        if right_at >= self.size {
            return Some((left_at, left));
        }
        let right = self.variable_at(right_at)?;
        if self.activity_of(right) > self.activity_of(left) {
            return Some((right_at, right));
        }
        Some((left_at, left))
    }

    /// Lets a variable sink from the top until those below it are at most as active.
    fn sink(&mut self, variable: u32) {
        let activity = self.activity_of(variable);
        let mut at = 0;
        for _ in 0..DEPTH {
            let Some((below, other)) = self.below(at) else {
                break;
            };
            if self.activity_of(other) <= activity {
                break;
            }
            self.put(at, other);
            at = below;
        }
        self.put(at, variable);
    }

    /// Takes the most active variable out of the heap.
    fn pop(&mut self) -> Option<u32> {
        if self.size == 0 {
            return None;
        }
        let first = self.variable_at(0)?;
        self.size -= 1;
        let last = self.variable_at(self.size)?;
        if first != last {
            self.sink(last);
        }
        if let Some(node) = self.nodes.get_mut(first as usize) {
            node.at = NOWHERE;
        }
        Some(first)
    }

    /// The sign that a variable had when it was last assigned.
    #[inline]
    fn had_minus(&self, variable: u32) -> bool {
        match self.nodes.get(variable as usize) {
            Some(node) => node.has_minus,
            None => true,
        }
    }

    /// The most active variable in the heap that is not assigned, with the sign that it had last.
    pub(crate) fn next(&mut self, trail: &Trail<InnerLiteral>, count: u32) -> Option<InnerLiteral>
        requires known { count ≤ trail.now.variables }
        requires few { count ≤ MOST_VARIABLES }
        ensures { IfSome result (CanDecide trail.now) }
    {
        for _ in 0..self.size {
            let variable = self.pop()?;
            if variable >= count {
                return None;
            }
            let literal = InnerLiteral::signed(variable, self.had_minus(variable));
            if trail.value(literal).is_none() {
                return Some(literal);
            }
        }
        None
    }

    /// Scales down all activities, and the weight of a conflict.
    fn scale_down(&mut self) {
        for i in 0..self.nodes.len() {
            if let Some(node) = self.nodes.get_mut(i) {
                node.activity = node.activity / SCALE;
            }
        }
        self.weight = (self.weight / SCALE).max(1);
    }

    /// Counts a variable that took part in the current conflict. The caller counts each one once.
    pub(crate) fn bump(&mut self, variable: u32) {
        let weight = self.weight;
        let Some(node) = self.nodes.get_mut(variable as usize) else {
            return;
        };
        let at = node.at;
        let activity = node.activity.wrapping_add(weight);
        node.activity = activity;
        if activity > HIGHEST {
            self.scale_down();
        }
        if at != NOWHERE {
            self.rise(variable, at);
        }
    }

    /// Ends a conflict: the next one weighs more.
    pub(crate) fn end_conflict(&mut self) {
        self.weight = self.weight.wrapping_add(self.weight / 16);
    }

    /// Takes back a variable that is no longer assigned, and keeps its sign.
    pub(crate) fn release(&mut self, variable: u32, has_minus: bool) {
        let size = self.size;
        let Some(node) = self.nodes.get_mut(variable as usize) else {
            return;
        };
        node.has_minus = has_minus;
        if node.at != NOWHERE {
            return;
        }
        self.size = size.wrapping_add(1);
        self.rise(variable, size);
    }
}
