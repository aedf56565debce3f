//! Reading a number text.

ghost use Rattle.std.specs.Prelude.{◌≡◌, ℕ, ◌+◌, ◌*◌, ◌%◌, ◌^◌, ◌<◌, ◌≤◌, ◌++◌, length, min};
ghost use Rattle.std.specs.Prelude.{if◌then◌else◌};
ghost use Rattle.std.specs.Str.Parse.{AllDigits, digits_value};
ghost use Rattle.fixed_core.specs.Mantissa.{IsMantissa};
ghost use Rattle.fixed_core.specs.Reads.{ReadsAs};
ghost use Rattle.fixed_core.specs.Value.{fixed_of, fixed_quotient};

use crate::fault::FixedFault;
use crate::fixed::{Fixed, MOST_UNITS, with_sign};
use crate::mantissa::{MOST_EXPONENT, Mantissa, capped_value, push_digits, shifted, stripped};
use crate::numeral::parts_of;
use crate::powers::power_of_ten;

// The places of a unit after the point.
const PLACES: u128 = 18;

// The same, as a number of digits.
const MOST_PLACES: usize = 18;

// So many digits have a number below 2^64.
const SHORT_DIGITS: usize = 19;

/// The number of a text, or the first fault that holds of it. Sign, mantissa and exponent may have
/// any number of digits: only the value counts. Takes no memory.
#[inline(always)]
pub fn read_fixed(text: &str) -> Result<Fixed, FixedFault>
    ensures answer { result ≡ fixed_of text.now }
    ensures meaning { ReadsAs text.now result }
{
    let Some(parts) = parts_of(text.as_bytes()) else {
        return Err(FixedFault::Shape);
    };
    let scale = parts.fraction.len();
    if parts.exponent.is_empty()
        && scale <= MOST_PLACES
        && parts.whole.len() + scale <= SHORT_DIGITS
    {
        return short_fixed(parts.negative, parts.low, scale);
    }
    long_fixed(
        parts.negative,
        parts.whole,
        parts.fraction,
        parts.low,
        parts.lowers,
        parts.exponent,
    )
}

// The number of parts of any length. Most texts are short, so this is kept out of `read_fixed`.
#[inline(never)]
fn long_fixed(
    negative: bool,
    whole: &[u8],
    fraction: &[u8],
    low: u64,
    lowers: bool,
    exponent: &[u8],
) -> Result<Fixed, FixedFault>
    requires whole { AllDigits 10 whole.now }
    requires fraction { AllDigits 10 fraction.now }
    requires exponent { AllDigits 10 exponent.now }
    requires low { low ≡ digits_value 10 (whole.now ++ fraction.now) % 2 ^ 64 }
    ensures { let n = digits_value 10 (whole.now ++ fraction.now) in let e = digits_value 10 exponent.now in
        result ≡ fixed_quotient negative (n * 10 ^ (18 + (if lowers then 0 else e)))
        (10 ^ (length fraction.now + (if lowers then e else 0))) }
{
    fixed_from(
        negative,
        mantissa_of(whole, fraction, low),
        lowers,
        capped_value(exponent),
        fraction.len() as u128,
    )
}

// The number of few digits, of which so many are after the point. There is no exponent.
#[inline(always)]
fn short_fixed(negative: bool, digits: u64, scale: usize) -> Result<Fixed, FixedFault>
    requires { scale ≤ 18 }
    ensures { result ≡ fixed_quotient negative (digits * 10 ^ 18) (10 ^ scale) }
{
    let units = u128::from(digits) * power_of_ten(MOST_PLACES - scale);
    if units <= MOST_UNITS {
        Ok(with_sign(negative, units))
    } else {
        Err(FixedFault::Range)
    }
}

// The mantissa of the digits before and after a point, whose number's low 64 bits are at hand.
fn mantissa_of(whole: &[u8], fraction: &[u8], low: u64) -> Mantissa
    requires whole { AllDigits 10 whole.now }
    requires fraction { AllDigits 10 fraction.now }
    requires low { low ≡ digits_value 10 (whole.now ++ fraction.now) % 2 ^ 64 }
    ensures tracks { IsMantissa (digits_value 10 (whole.now ++ fraction.now)) result }
    ensures zeros { result.zeros < 2 ^ 64 }
{
    if whole.len() + fraction.len() <= SHORT_DIGITS {
        return stripped(low);
    }
    let none = Mantissa {
        value: 0,
        zeros: 0,
        large: false,
    };
    push_digits(push_digits(none, whole), fraction)
}

// `n` or nothing.
fn or_zero(takes: bool, n: u128) -> u128
    ensures { result ≡ (if takes then n else 0) }
{
    if takes { n } else { 0 }
}

// The number of a mantissa with `scale` digits after the point and an exponent, which may be capped.
fn fixed_from(
    negative: bool,
    m: Mantissa,
    lowers: bool,
    exponent: u128,
    scale: u128,
) -> Result<Fixed, FixedFault>
    requires zeros { m.zeros < 2 ^ 64 }
    requires scale { scale < 2 ^ 64 }
    requires exponent { exponent ≤ MOST_EXPONENT }
    ensures { (n e : ℕ) → IsMantissa n m → exponent ≡ min e MOST_EXPONENT
        → result ≡ fixed_quotient negative (n * 10 ^ (18 + (if lowers then 0 else e)))
        (10 ^ (scale + (if lowers then e else 0))) }
{
    if !m.large && m.value == 0 {
        return Ok(with_sign(false, 0));
    }
    let raised = m.zeros + PLACES + or_zero(!lowers, exponent);
    let lowered = scale + or_zero(lowers, exponent);
    if raised < lowered {
        return Err(FixedFault::Digits);
    }
    if m.large {
        return Err(FixedFault::Range);
    }
    match shifted(m.value, raised - lowered) {
        Some(units) if units <= MOST_UNITS => Ok(with_sign(negative, units)),
        _ => Err(FixedFault::Range),
    }
}
