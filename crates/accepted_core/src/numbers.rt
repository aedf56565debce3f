//! The numbers of the unknowns that say what is accepted.
ghost use Rattle.std.specs.Prelude.{◌≡◌, ◌+◌, ◌*◌, ◌≤◌, ◌<◌, ℕ, [], length, slice_index_or, IfOk, OnOk};
ghost use Rattle.chain_core.specs.declared.literal.TheConstants.{GREATEST_VARIABLE};
ghost use Rattle.encoding_rules.specs.Each.{each, listed, total};
ghost use Rattle.accepted_core.specs.Sizes.{count_in};
ghost use Rattle.accepted_core.specs.Rows.{unknown_at, row_at, good_rows_at, bad_rows_at, RowsFit};

use ranks_core::Ranks;
use rows_core::Rows;
use std::alloc::{AllocError, Global};
use table_core::Examples;

/// For each of the first criteria, the number of its grades.
pub fn counts_of(alloc: Global, ranks: &Ranks, n: u32) -> Result<Vec<u32>, AllocError>
    requires { n ≤ length ranks.now.grades }
    ensures { IfOk result (λ counts. counts.items ≡ listed (count_in ranks.now.grades) n) }
{
    let mut counts = Vec::new(alloc);
    for i in 0..n {
        counts.push(ranks.count(i))?;
    }
    Ok(counts)
}

/// For each criterion, its first unknown.
pub fn firsts_of(alloc: Global, boundaries: u32, counts: &[u32]) -> Result<Vec<u32>, AllocError>
    requires { boundaries * total (λ i. slice_index_or counts.now i 0) (length counts.now) ≤ GREATEST_VARIABLE }
    ensures { IfOk result (λ firsts. firsts.items
        ≡ listed (λ i. 1 + boundaries * total (λ k. slice_index_or counts.now k 0) i) (length counts.now)) }
{
    let mut firsts = Vec::new(alloc);
    let mut first: u32 = 1;
    for i in 0..counts.len() {
        firsts.push(first)?;
        first += boundaries * counts[i];
    }
    Ok(firsts)
}

/// Replaces what is in `own` by the unknowns that say that an example's grades are accepted at the boundary at a place.
fn fill_row(
    ranks: &Ranks,
    counts: &[u32],
    firsts: &[u32],
    place: u32,
    row: u32,
    own: &mut Vec<u32>,
) -> Result<(), AllocError>
    requires same { length firsts.now ≡ length counts.now }
    requires few { length counts.now ≤ 16 }
    requires all { length counts.now ≤ length ranks.now.places }
    requires rows { (i : ℕ) → i < length counts.now → row < length (slice_index_or ranks.now.places i []) }
    requires small { (i : ℕ) → i < length counts.now
        → unknown_at counts.now firsts.now ranks.now.places place row i ≤ GREATEST_VARIABLE }
    ensures { OnOk result (own.new.items ≡ row_at counts.now firsts.now ranks.now.places place row) }
{
    own.clear();
    for i in 0..counts.len() {
        own.push(firsts[i] + place * counts[i] + ranks.rank(i as u32, row))?;
    }
    Ok(())
}

/// The rows of the good examples, each at its own boundary.
pub fn good_rows(
    alloc: Global,
    boundaries: u32,
    examples: &Examples,
    ranks: &Ranks,
    counts: &[u32],
    firsts: &[u32],
) -> Result<Rows<u32>, AllocError>
    requires { RowsFit counts.now firsts.now ranks.now.places boundaries examples.now }
    ensures { IfOk result (λ rows. rows ≡ each (good_rows_at counts.now firsts.now ranks.now.places examples.now)
        (length examples.now)) }
{
    let mut own = Vec::new(alloc);
    let mut rows = Rows::new(alloc);
    for row in 0..examples.count() {
        let category = examples.category(row);
        if 1 <= category {
            fill_row(ranks, counts, firsts, category - 1, row, &mut own)?;
            rows.push(&own)?;
        }
    }
    Ok(rows)
}

/// The rows of the bad examples, each at the boundary above its category.
pub fn bad_rows(
    alloc: Global,
    boundaries: u32,
    examples: &Examples,
    ranks: &Ranks,
    counts: &[u32],
    firsts: &[u32],
) -> Result<Rows<u32>, AllocError>
    requires { RowsFit counts.now firsts.now ranks.now.places boundaries examples.now }
    ensures { IfOk result
        (λ rows. rows ≡ each (bad_rows_at counts.now firsts.now ranks.now.places boundaries examples.now)
        (length examples.now)) }
{
    let mut own = Vec::new(alloc);
    let mut rows = Rows::new(alloc);
    for row in 0..examples.count() {
        let category = examples.category(row);
        if category < boundaries {
            fill_row(ranks, counts, firsts, category, row, &mut own)?;
            rows.push(&own)?;
        }
    }
    Ok(rows)
}
