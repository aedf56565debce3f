//! Writing weights.
ghost use Rattle.std.specs.Prelude.{◌≡◌, ◌++◌, map};
ghost use Rattle.lists_core.specs.Puts.{Puts};
ghost use Rattle.written_core.specs.Document.{flow_text, scalar_text};
ghost use Rattle.model_text_core.specs.ModelText.{weight_scalar};
ghost use Rattle.written_core.specs.Parts.{comma};

use fixed_core::{Fixed, put_fixed};
use std::alloc::AllocError;
use written_core::{put_comma, put_text};

/// Appends the weight at a place of a flow list, behind a comma if it isn't the first.
fn put_item(place: usize, weight: Fixed, out: &mut Vec<u8>) -> Result<(), AllocError>
    ensures { Puts out.old.items out.new.items result (comma place ++ scalar_text (weight_scalar weight)) }
{
    put_comma(place, out)?;
    put_fixed(weight, out)
}

/// Appends weights as a flow list.
pub fn put_weights(weights: &[Fixed], out: &mut Vec<u8>) -> Result<(), AllocError>
    ensures { Puts out.old.items out.new.items result (flow_text (map weight_scalar weights.now)) }
{
    put_text("[", out)?;
    for (i, weight) in weights.iter().enumerate() {
        put_item(i, *weight, out)?;
    }
    put_text("]", out)
}
