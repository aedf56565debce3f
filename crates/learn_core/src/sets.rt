//! The accepted sets of examples, each at the boundary of its category.
ghost use Rattle.std.specs.Prelude.{◌≡◌, ◌≤◌, ◌<◌, ◌+◌, ◌*◌, ◌^◌, ℕ, [], length, All, IfOk, slice_index_or};
ghost use Rattle.std.specs.Prelude.{if◌then◌else◌};
ghost use Rattle.sorting_rule.specs.Coalition.{mask_of};
ghost use Rattle.encoding_rules.specs.Each.{each, listed};
ghost use Rattle.learn_core.specs.Numbers.{IsFirst, flag_in, own_in, RowsFit};

use crate::values::value_at;
use ranks_core::Ranks;
use std::alloc::{AllocError, Global};
use table_core::Examples;

/// A set of criteria with another criterion before them, if it is a member.
fn with_first(member: bool, set: u32) -> u32
    requires { set < 2 ^ 31 }
    ensures { result ≡ (if member then 1 else 0) + 2 * set }
{
    if member { 1 + 2 * set } else { 2 * set }
}

/// The criteria that accept the grade of the example in a row at the boundary at a place, as a mask.
fn own_set(values: &[bool], firsts: &[usize], ranks: &Ranks, place: u32, row: u32) -> u32
    requires fit { RowsFit firsts.now ranks.now row }
    requires place { place ≤ 9 }
    ensures set { result ≡ mask_of (listed (flag_in values.now firsts.now ranks.now place row) (length firsts.now)) }
    ensures below { result < 2 ^ length firsts.now }
{
    let mut set: u32 = 0;
    for i in (0..firsts.len()).rev() {
        let count = ranks.count(i as u32) as usize;
        let unknown = firsts[i] + place as usize * count + ranks.rank(i as u32, row) as usize;
        set = with_first(value_at(values, unknown), set);
    }
    set
}

/// The sets of the examples of category 1 or more, in order.
pub fn own_sets(
    alloc: Global,
    values: &[bool],
    firsts: &[usize],
    examples: &Examples,
    ranks: &Ranks,
) -> Result<Vec<u32>, AllocError>
    requires fit { (row : ℕ) → row < length examples.now → RowsFit firsts.now ranks.now row }
    requires categories { All (λ e. e.category ≤ 9) examples.now }
    ensures sets { IfOk result (λ sets. sets.items
        ≡ each (own_in values.now firsts.now ranks.now examples.now) (length examples.now)) }
    ensures below { IfOk result (λ sets. All (λ set. set < 2 ^ length firsts.now) sets.items) }
{
    let mut sets = Vec::new(alloc);
    for row in 0..examples.count() {
        let category = examples.category(row);
        if 1 <= category {
            sets.push(own_set(values, firsts, ranks, category - 1, row))?;
        }
    }
    Ok(sets)
}
