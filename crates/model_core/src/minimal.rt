//! The minimal ones among sets.
ghost use Rattle.std.specs.Prelude.{◌≡◌, ℕ, IfOk};
ghost use Rattle.std.specs.List.{Contains};
ghost use Rattle.std.specs.List.Sorted.{IsStrictlyIncreasing};
ghost use Rattle.sorting_rule.specs.Rebuilt.{AreMinimal};

use crate::rule::contains_root;
use std::alloc::{AllocError, Global};

/// Sorts numbers, and leaves each once.
fn sort_distinct(numbers: &mut Vec<u32>)
    ensures rises { IsStrictlyIncreasing numbers.new.items }
    ensures keeps { (x : ℕ) → Contains numbers.old.items x → Contains numbers.new.items x }
    ensures adds_none { (x : ℕ) → Contains numbers.new.items x → Contains numbers.old.items x }
{
    numbers.sort_unstable();
    numbers.dedup();
}

/// Those sets, as masks, that contain no other of them, each once, in rising order.
pub fn minimal_roots(alloc: Global, masks: &[u32]) -> Result<Vec<u32>, AllocError>
    ensures { IfOk result (λ roots. AreMinimal masks.now roots.items) }
{
    let mut sets = masks.to_vec(alloc)?;
    sort_distinct(&mut sets);
    let mut roots = Vec::new(alloc);
    // A set is no less than those that it contains, so these come before it.
    for set in &sets {
        if !contains_root(*set, &roots) {
            roots.push(*set)?;
        }
    }
    Ok(roots)
}
