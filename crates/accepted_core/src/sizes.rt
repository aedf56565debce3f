//! Sizes, counted before anything is made.
ghost use Rattle.std.specs.Prelude.{◌≡◌, ◌+◌, ◌-◌, ◌*◌, ◌^◌, ◌≤◌, ◌<◌, length};
ghost use Rattle.encoding_rules.specs.Each.{total};
ghost use Rattle.accepted_core.specs.Sizes.{count_in, good_ones, bad_ones, accepted_literals_of};

use ranks_core::Ranks;
use table_core::Examples;

/// How many grades the first criteria have.
pub fn grades_count(ranks: &Ranks, n: u32) -> u64
    requires { n ≤ length ranks.now.grades }
    ensures value { result ≡ total (count_in ranks.now.grades) n }
    ensures bound { result ≤ n * 2 ^ 32 }
{
    let mut sum: u64 = 0;
    for i in 0..n {
        sum += u64::from(ranks.count(i));
    }
    sum
}

/// How many steps there are from a grade of the first criteria to the next.
pub fn steps_count(ranks: &Ranks, n: u32) -> u64
    requires { n ≤ length ranks.now.grades }
    ensures value { result ≡ total (λ i. count_in ranks.now.grades i - 1) n }
    ensures bound { result ≤ n * 2 ^ 32 }
{
    let mut sum: u64 = 0;
    for i in 0..n {
        sum += u64::from(ranks.count(i).saturating_sub(1));
    }
    sum
}

/// How many examples are of category 1 or more.
pub fn goods_count(examples: &Examples) -> u32
    ensures value { result ≡ length (good_ones examples.now) }
    ensures bound { result ≤ 4000000000 }
    ensures few { length examples.now ≤ 4000000000 }
{
    let mut n = 0;
    for row in 0..examples.count() {
        if 1 <= examples.category(row) {
            n += 1;
        }
    }
    n
}

/// How many examples are of a category below the best.
pub fn bads_count(categories: u32, examples: &Examples) -> u32
    requires { 1 ≤ categories }
    ensures value { result ≡ length (bad_ones categories examples.now) }
    ensures bound { result ≤ 4000000000 }
{
    let mut n = 0;
    for row in 0..examples.count() {
        if examples.category(row) < categories - 1 {
            n += 1;
        }
    }
    n
}

/// The number of literals of what is accepted, for so many boundaries, grades and steps between grades.
pub fn accepted_literals(boundaries: u32, counted: u64, steps: u64) -> u128
    requires { boundaries ≤ 9 }
    ensures value { result ≡ accepted_literals_of boundaries counted steps }
    ensures bound { result ≤ 2 ^ 70 }
{
    let better = 2 * u128::from(boundaries) * u128::from(steps);
    let lower = 2 * u128::from(boundaries.saturating_sub(1)) * u128::from(counted);
    better + lower
}
