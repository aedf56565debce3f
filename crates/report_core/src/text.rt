//! A number between two texts, appended. Out of memory, the call leaves a prefix of its text.
ghost use Rattle.std.specs.Prelude.{◌≡◌};
ghost use Rattle.lists_core.specs.Puts.{Puts};
ghost use Rattle.report_core.specs.Text.{counted};

use std::alloc::AllocError;
use written_core::{put_number, put_text};

/// Appends a number between two texts.
pub fn put_counted(
    before: &str,
    number: u32,
    after: &str,
    out: &mut Vec<u8>,
) -> Result<(), AllocError>
    ensures { Puts out.old.items out.new.items result (counted before.now number after.now) }
{
    put_text(before, out)?;
    put_number(number, out)?;
    put_text(after, out)
}
