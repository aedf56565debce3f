//! The one spelling of a number.

ghost use Rattle.std.specs.Prelude.{◌≡◌, ◌+◌, ◌-◌, ◌<◌, ◌≤◌, ◌^◌, [], ◌∷◌, Ok, decimal};
ghost use Rattle.fixed_core.specs.Value.{fixed_of};
ghost use Rattle.lists_core.specs.Puts.{Puts};
ghost use Rattle.fixed_core.specs.Canonical.{IsCanonical};
ghost use Rattle.fixed_core.specs.Spelling.{short_digits, point_digits, sign_text, spelling_of, spelling};

use crate::fixed::Fixed;
use itoa::Buffer;
use std::alloc::AllocError;

// The units of the number 1.
const UNITS_PER_ONE: u128 = 1_000_000_000_000_000_000;

// Appends one byte.
fn put_byte(byte: u8, out: &mut Vec<u8>) -> Result<(), AllocError>
    ensures { Puts out.old.items out.new.items result (byte ∷ []) }
{
    out.push(byte)?;
    Ok(())
}

// Appends the sign, if there is one.
fn put_sign(negative: bool, out: &mut Vec<u8>) -> Result<(), AllocError>
    ensures { Puts out.old.items out.new.items result (sign_text negative) }
{
    if negative {
        put_byte(b'-', out)
    } else {
        Ok(())
    }
}

// Appends the whole part.
fn put_whole(whole: u128, out: &mut Vec<u8>) -> Result<(), AllocError>
    ensures { Puts out.old.items out.new.items result (decimal whole) }
{
    let mut buffer = Buffer::new();
    out.extend_from_slice(buffer.format(whole).as_bytes())
}

// Appends `places` digits without the zeros at their end.
fn put_digits(places: u32, digits: u64, out: &mut Vec<u8>) -> Result<(), AllocError>
    requires few { places ≤ 18 }
    requires fits { digits < 10 ^ places }
    ensures { Puts out.old.items out.new.items result (short_digits places digits) }
{
    if digits == 0 {
        return Ok(());
    }
    let power = 10u64.pow(places - 1);
    put_byte(b'0' + (digits / power) as u8, out)?;
    put_digits(places - 1, digits % power, out)
}

// Appends the point and the digits after it, if they are not all 0.
fn put_point(rest: u64, out: &mut Vec<u8>) -> Result<(), AllocError>
    requires { rest < 10 ^ 18 }
    ensures { Puts out.old.items out.new.items result (point_digits rest) }
{
    if rest == 0 {
        return Ok(());
    }
    put_byte(b'.', out)?;
    put_digits(18, rest, out)
}

// Appends a sign and the digits of a number of units.
fn put_signed(negative: bool, units: u128, out: &mut Vec<u8>) -> Result<(), AllocError>
    ensures { Puts out.old.items out.new.items result (spelling_of negative units) }
{
    put_sign(negative, out)?;
    put_whole(units / UNITS_PER_ONE, out)?;
    put_point((units % UNITS_PER_ONE) as u64, out)
}

/// Appends the one spelling of a number: `-` if it is negative, the whole part with no needless
/// zeros, and, if the fraction is not 0, a point and its digits without zeros at the end. That text
/// reads as the number. If memory runs out, a prefix of it was appended.
pub fn put_fixed(value: Fixed, out: &mut Vec<u8>) -> Result<(), AllocError>
    ensures text { Puts out.old.items out.new.items result (spelling value) }
    ensures reads { fixed_of (spelling value) ≡ Ok value }
    ensures canonical { IsCanonical (spelling value) }
{
    put_signed(value.is_negative(), value.magnitude(), out)
}
