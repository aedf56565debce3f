//! Writing roots.
ghost use Rattle.std.specs.Prelude.{◌≡◌, ◌≤◌};
ghost use Rattle.lists_core.specs.Puts.{Puts};
ghost use Rattle.model_text_core.specs.Parts.{root_text, roots_text, upset_text};

use crate::places::put_places;
use std::alloc::AllocError;
use written_core::put_text;

/// Appends the line of a root.
fn put_root(count: u32, root: u32, out: &mut Vec<u8>) -> Result<(), AllocError>
    requires { count ≤ 32 }
    ensures { Puts out.old.items out.new.items result (root_text count root) }
{
    put_text("      - ", out)?;
    put_places(count, root, out)?;
    put_text("\n", out)
}

/// Appends the line of each root.
fn put_roots(count: u32, roots: &[u32], out: &mut Vec<u8>) -> Result<(), AllocError>
    requires { count ≤ 32 }
    ensures { Puts out.old.items out.new.items result (roots_text count roots.now) }
{
    for root in roots {
        put_root(count, *root, out)?;
    }
    Ok(())
}

/// Appends the lines of the roots of a boundary, from their key on.
pub fn put_upset(count: u32, roots: &[u32], out: &mut Vec<u8>) -> Result<(), AllocError>
    requires { count ≤ 32 }
    ensures { Puts out.old.items out.new.items result (upset_text count roots.now) }
{
    let rows = roots.len();
    if rows == 0 {
        return put_text("    upset_roots: []\n", out);
    }
    put_text("    upset_roots:\n", out)?;
    put_roots(count, roots, out)
}
