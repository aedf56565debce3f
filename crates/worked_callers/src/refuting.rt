//! Checking a refutation.
ghost use Rattle.std.specs.Prelude.{◌≡◌, true};
ghost use Rattle.literals_core.specs.Values.{IsUnsatisfiable};

use chain_core::{Formula, MOST_BYTES, check, read_log};
use std::alloc::Global;

/// Whether a text is a refutation of a formula. If it is one, no truth values make every clause true.
pub fn refutes(alloc: Global, formula: &Formula, text: &[u8]) -> bool
    ensures { result ≡ true → IsUnsatisfiable formula.now }
{
    if text.len() > MOST_BYTES {
        return false;
    }
    let Ok((_, log)) = read_log(alloc, text) else {
        return false;
    };
    check(alloc, formula, log).is_ok()
}
