//! Writing the places of a root.
ghost use Rattle.std.specs.Prelude.{◌≡◌, ◌+◌, ◌%◌, ◌++◌, ◌<◌, ◌≤◌, IfOk, decimal};
ghost use Rattle.lists_core.specs.Puts.{Puts};
ghost use Rattle.written_core.specs.Document.{flow_text};
ghost use Rattle.model_text_core.specs.ModelText.{root_scalars};
ghost use Rattle.written_core.specs.Parts.{comma};
ghost use Rattle.model_text_core.specs.Parts.{place_text};

use std::alloc::AllocError;
use written_core::{put_comma, put_number, put_text};

/// Appends a place, which is so many places behind the first of a flow list.
fn put_place(written: usize, place: u32, out: &mut Vec<u8>) -> Result<(), AllocError>
    ensures { Puts out.old.items out.new.items result (comma written ++ decimal place) }
{
    put_comma(written, out)?;
    put_number(place, out)
}

/// Appends a place if it is in a set, that is, if the least bit of the rest of its mask is set. Returns how many
/// places are written then.
fn put_member(written: usize, place: u32, rest: u32, out: &mut Vec<u8>) -> Result<usize, AllocError>
    requires { written < 32 }
    ensures text { Puts out.old.items out.new.items result (place_text written place rest) }
    ensures count { IfOk result (λ count. count ≡ written + rest % 2) }
{
    if rest % 2 != 1 {
        return Ok(written);
    }
    put_place(written, place, out)?;
    Ok(written + 1)
}

/// Appends the places of a set of so many criteria as a flow list.
pub fn put_places(count: u32, set: u32, out: &mut Vec<u8>) -> Result<(), AllocError>
    requires { count ≤ 32 }
    ensures { Puts out.old.items out.new.items result (flow_text (root_scalars count set)) }
{
    put_text("[", out)?;
    let mut written = 0;
    let mut rest = set;
    for place in 0..count {
        written = put_member(written, place, rest, out)?;
        rest /= 2;
    }
    put_text("]", out)
}
