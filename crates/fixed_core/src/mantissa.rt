//! Digits of a mantissa and of an exponent, of any number.

ghost use Rattle.std.specs.Prelude.{◌≡◌, ℕ, ◌+◌, ◌*◌, ◌^◌, ◌<◌, ◌≤◌, length, min, MatchOption};
ghost use Rattle.std.specs.Str.Parse.{AllDigits, digits_value, digits_value_after};
ghost use Rattle.fixed_core.specs.Mantissa.{IsMantissa};

use crate::powers::{MOST_POWER, power_of_ten};

// Numbers from here on are kept as large alone: they are over the greatest number of units.
const LIMIT: u128 = 10_000_000_000_000_000_000_000_000_000_000_000_000;

/// Exponents from here on are taken as this one: no text in memory has as many digits, so the point
/// moves past all of them.
pub const MOST_EXPONENT: u128 = 100_000_000_000_000_000_000;

// A number by its digits without the zeros at its end: what they say, if that is below `LIMIT`.
#[derive(Clone, Copy)]
pub struct Mantissa {
    pub value: u128,
    pub zeros: u128,
    pub large: bool,
}

// `value` times ten to `by`, if that is below `LIMIT`.
pub fn shifted(value: u128, by: u128) -> Option<u128>
    ensures { MatchOption result (10 ^ 37 ≤ value * 10 ^ by) (λ r. (r ≡ value * 10 ^ by) × (r < 10 ^ 37)) }
{
    if value == 0 {
        return Some(0);
    }
    if by > MOST_POWER as u128 {
        return None;
    }
    match value.checked_mul(power_of_ten(by as usize)) {
        Some(r) if r < LIMIT => Some(r),
        _ => None,
    }
}

// The mantissa of a number.
pub fn stripped(number: u64) -> Mantissa
    ensures tracks { IsMantissa number result }
    ensures zeros { result.zeros < 2 ^ 64 }
{
    let mut value = number;
    let mut zeros = 0u64;
    while value != 0 && value % 10 == 0 {
        value /= 10;
        zeros += 1;
    }
    Mantissa {
        value: u128::from(value),
        zeros: u128::from(zeros),
        large: false,
    }
}

// The number of the digits, capped at `MOST_EXPONENT`.
pub fn capped_value(digits: &[u8]) -> u128
    requires { AllDigits 10 digits.now }
    ensures { result ≡ min (digits_value 10 digits.now) MOST_EXPONENT }
{
    let mut value: u128 = 0;
    for c in digits {
        value = (value * 10 + u128::from(*c - b'0')).min(MOST_EXPONENT);
    }
    value
}

// One more digit.
pub fn push_digit(m: Mantissa, digit: u8) -> Mantissa
    requires digit { digit < 10 }
    requires room { m.zeros + 1 < 2 ^ 128 }
    ensures tracks { (n : ℕ) → IsMantissa n m → IsMantissa (n * 10 + digit) result }
    ensures zeros { result.zeros ≤ m.zeros + 1 }
{
    if digit == 0 {
        if !m.large && m.value == 0 {
            return m;
        }
        return Mantissa {
            value: m.value,
            zeros: m.zeros + 1,
            large: m.large,
        };
    }
    if m.large {
        return Mantissa {
            value: m.value,
            zeros: 0,
            large: true,
        };
    }
    match shifted(m.value, m.zeros + 1) {
        Some(value) if value + u128::from(digit) < LIMIT => Mantissa {
            value: value + u128::from(digit),
            zeros: 0,
            large: false,
        },
        _ => Mantissa {
            value: 0,
            zeros: 0,
            large: true,
        },
    }
}

// More digits.
pub fn push_digits(start: Mantissa, digits: &[u8]) -> Mantissa
    requires digits { AllDigits 10 digits.now }
    requires room { start.zeros + length digits.now + 1 < 2 ^ 128 }
    ensures tracks { (n : ℕ) → IsMantissa n start → IsMantissa (digits_value_after 10 n digits.now) result }
    ensures zeros { result.zeros ≤ start.zeros + length digits.now }
{
    let mut m = start;
    for c in digits {
        m = push_digit(m, *c - b'0');
    }
    m
}
