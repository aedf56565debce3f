//! Profiles: the least grades that values accept.
ghost use Rattle.std.specs.Prelude.{◌≡◌, ◌≤◌, ◌<◌, ◌+◌, ◌*◌, ◌^◌, [], length, map, All, IfOk, slice_index_or};
ghost use Rattle.encoding_rules.specs.Each.{listed, total};
ghost use Rattle.encoding_rules.specs.Rebuilt.{first_passing};
ghost use Rattle.search_core.specs.Values.{value_at};
ghost use Rattle.learn_core.specs.Numbers.{first_in, threshold_in, thresholds_in, IsFirst};

use crate::values::value_at;
use lists_core::ListOf;
use model_core::Profile;
use problem_core::Grade;
use ranks_core::Ranks;
use std::alloc::{AllocError, Global};

/// The least grade of a criterion whose unknown is true, or `None`. `first` is the unknown of the least grade.
fn threshold(values: &[bool], first: usize, ranks: &Ranks, i: u32) -> Option<Grade>
    requires criterion { i < length ranks.now.grades }
    requires from { 1 ≤ first }
    requires to { first ≤ 2 ^ 41 }
    ensures { result ≡ first_passing (λ k. value_at values.now (first + k)) 0 (slice_index_or ranks.now.grades i []) }
{
    for k in 0..ranks.count(i) {
        if value_at(values, first + k as usize) {
            return Some(ranks.grade(i, k));
        }
    }
    None
}

/// The thresholds of a criterion, of which `first` is the first unknown.
fn criterion_thresholds(
    alloc: Global,
    values: &[bool],
    first: usize,
    boundaries: u32,
    ranks: &Ranks,
    i: u32,
) -> Result<Vec<Option<Grade>>, AllocError>
    requires criterion { i < length ranks.now.grades }
    requires boundaries { boundaries ≤ 9 }
    requires first { IsFirst first }
    ensures { IfOk result (λ row. row.items ≡ listed (threshold_in values.now ranks.now.grades first i) boundaries) }
{
    let mut row = Vec::new(alloc);
    for b in 0..boundaries {
        let own = first + b as usize * ranks.count(i) as usize;
        row.push(threshold(values, own, ranks, i))?;
    }
    Ok(row)
}

/// For each of the first criteria, its first unknown.
pub fn first_unknowns(
    alloc: Global,
    boundaries: u32,
    n: u32,
    ranks: &Ranks,
) -> Result<Vec<usize>, AllocError>
    requires boundaries { boundaries ≤ 9 }
    requires few { n ≤ 16 }
    requires ranks { n ≤ length ranks.now.grades }
    ensures firsts { IfOk result (λ firsts. firsts.items ≡ listed (first_in boundaries ranks.now.grades) n) }
    ensures small { IfOk result (λ firsts. All IsFirst firsts.items) }
{
    let mut firsts = Vec::new(alloc);
    let mut first: usize = 1;
    for i in 0..n {
        firsts.push(first)?;
        first += boundaries as usize * ranks.count(i) as usize;
    }
    Ok(firsts)
}

/// The profiles of the criteria with these first unknowns.
pub fn profiles_of(
    alloc: Global,
    values: &[bool],
    firsts: &[usize],
    boundaries: u32,
    ranks: &Ranks,
) -> Result<Vec<Profile>, AllocError>
    requires boundaries { boundaries ≤ 9 }
    requires firsts { All IsFirst firsts.now }
    requires few { length firsts.now ≤ 16 }
    requires ranks { length firsts.now ≤ length ranks.now.grades }
    ensures { IfOk result (λ profiles. map (λ p. p.thresholds) profiles.items
        ≡ listed (thresholds_in values.now ranks.now.grades firsts.now boundaries) (length firsts.now)) }
{
    let mut profiles = Vec::new(alloc);
    for i in 0..firsts.len() {
        let row = criterion_thresholds(alloc, values, firsts[i], boundaries, ranks, i as u32)?;
        profiles.push(Profile {
            thresholds: ListOf::from_vec(row),
        })?;
    }
    Ok(profiles)
}
