//! Appending texts and numbers, and what separates the items of a list. Out of memory, each call leaves a prefix of its
//! text.
ghost use Rattle.std.specs.Prelude.{◌≡◌, decimal};
ghost use Rattle.lists_core.specs.Puts.{Puts};
ghost use Rattle.written_core.specs.Parts.{comma};

use itoa::Buffer;
use std::alloc::AllocError;

/// Appends a text as it is.
pub fn put_text(text: &str, out: &mut Vec<u8>) -> Result<(), AllocError>
    ensures { Puts out.old.items out.new.items result text.now }
{
    out.extend_from_slice(text.as_bytes())
}

/// Appends a number.
pub fn put_number(number: u32, out: &mut Vec<u8>) -> Result<(), AllocError>
    ensures { Puts out.old.items out.new.items result (decimal number) }
{
    let mut buffer = Buffer::new();
    put_text(buffer.format(number), out)
}

/// Appends what separates the item at a place from those before it: nothing before the first.
pub fn put_comma(place: usize, out: &mut Vec<u8>) -> Result<(), AllocError>
    ensures { Puts out.old.items out.new.items result (comma place) }
{
    if place == 0 {
        return Ok(());
    }
    put_text(", ", out)
}
