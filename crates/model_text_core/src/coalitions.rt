//! Writing coalitions.
ghost use Rattle.std.specs.Prelude.{◌≡◌, ◌≤◌, ◌<◌, length};
ghost use Rattle.lists_core.specs.Puts.{Puts};
ghost use Rattle.model_text_core.specs.Parts.{anchored_text, by_roots_text, by_weights_text, coalition_text};
ghost use Rattle.model_text_core.specs.Parts.{coalitions_text, each_text, item_text, same_text};

use crate::roots::put_upset;
use crate::same::are_all_same;
use crate::weights::put_weights;
use fixed_core::Fixed;
use model_core::Coalitions;
use std::alloc::AllocError;
use written_core::put_text;

/// Appends the lines of weights, from their kind on.
fn put_by_weights(weights: &[Fixed], out: &mut Vec<u8>) -> Result<(), AllocError>
    ensures { Puts out.old.items out.new.items result (by_weights_text weights.now) }
{
    put_text("kind: weights\n    criterion_weights: ", out)?;
    put_weights(weights, out)?;
    put_text("\n", out)
}

/// Appends the lines of roots, from their kind on.
fn put_by_roots(count: u32, roots: &[u32], out: &mut Vec<u8>) -> Result<(), AllocError>
    requires { count ≤ 32 }
    ensures { Puts out.old.items out.new.items result (by_roots_text count roots.now) }
{
    put_text("kind: roots\n", out)?;
    put_upset(count, roots, out)
}

/// Appends the lines of coalitions, from their kind on.
fn put_coalition(count: u32, coalitions: &Coalitions, out: &mut Vec<u8>) -> Result<(), AllocError>
    requires { count ≤ 32 }
    ensures { Puts out.old.items out.new.items result (coalition_text count coalitions.now) }
{
    match coalitions {
        Coalitions::Weights(weights) => put_by_weights(weights.as_slice(), out),
        Coalitions::Roots(roots) => put_by_roots(count, roots.as_slice(), out),
    }
}

/// Appends the item of a boundary, in full.
fn put_item(count: u32, coalitions: &Coalitions, out: &mut Vec<u8>) -> Result<(), AllocError>
    requires { count ≤ 32 }
    ensures { Puts out.old.items out.new.items result (item_text count coalitions.now) }
{
    put_text("  - ", out)?;
    put_coalition(count, coalitions, out)
}

/// Appends the item of each boundary, in full.
fn put_each(count: u32, rows: &[Coalitions], out: &mut Vec<u8>) -> Result<(), AllocError>
    requires { count ≤ 32 }
    ensures { Puts out.old.items out.new.items result (each_text count rows.now) }
{
    for coalitions in rows {
        put_item(count, coalitions, out)?;
    }
    Ok(())
}

/// Appends an alias for each boundary.
fn put_aliases(rows: &[Coalitions], out: &mut Vec<u8>) -> Result<(), AllocError>
    ensures { Puts out.old.items out.new.items result (same_text rows.now) }
{
    for _ in rows {
        put_text("  - *coalitions\n", out)?;
    }
    Ok(())
}

/// Appends the coalitions of the first boundary with an anchor, and an alias for each of the others.
fn put_anchored(
    count: u32,
    first: &Coalitions,
    others: &[Coalitions],
    out: &mut Vec<u8>,
) -> Result<(), AllocError>
    requires { count ≤ 32 }
    ensures { Puts out.old.items out.new.items result (anchored_text count first.now others.now) }
{
    put_text("  - &coalitions\n    ", out)?;
    put_coalition(count, first, out)?;
    put_aliases(others, out)
}

/// Appends the items of all boundaries.
pub fn put_coalitions(count: u32, rows: &[Coalitions], out: &mut Vec<u8>) -> Result<(), AllocError>
    requires { count ≤ 32 }
    ensures { Puts out.old.items out.new.items result (coalitions_text count rows.now) }
{
    let [first, others @ ..] = rows else {
        return Ok(());
    };
    if are_all_same(first, others) {
        put_anchored(count, first, others, out)
    } else {
        put_each(count, rows, out)
    }
}
