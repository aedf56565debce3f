//! A number text, cut into its parts.

ghost use Rattle.std.specs.Prelude.{[], ◌≡◌, ◌≢◌, ◌≤◌, ◌%◌, ◌^◌, ◌++◌, length, option_map, IfSome};
ghost use Rattle.std.specs.List.{list_all};
ghost use Rattle.std.specs.Char.{is_ascii_digit};
ghost use Rattle.std.specs.Str.Parse.{AllDigits, digits_value, digits_value_after};
ghost use Rattle.fixed_core.specs.Numeral.{digits_len, front_digits, after_digits, is_minus, after_sign};
ghost use Rattle.fixed_core.specs.Numeral.{fraction_digits, after_fraction, exponent_of, numeral_of};
ghost use Rattle.fixed_core.specs.Parts.{numeral_in};

// The sign, the digits before and after the point, whether the exponent is negative, and its digits.
#[derive(Drop)]
pub struct Parts<'a> {
    pub negative: bool,
    pub whole: &'a [u8],
    pub fraction: &'a [u8],
    pub lowers: bool,
    pub exponent: &'a [u8],
    // The low 64 bits of the number of the digits before and after the point.
    pub low: u64,
}

// How many digits are in front, and the low 64 bits of their number after the digits of `start`.
#[inline(always)]
fn count_digits(text: &[u8], start: u64) -> (usize, u64)
    ensures len { result.0 ≡ digits_len text.now }
    ensures within { result.0 ≤ length text.now }
    ensures low { result.1 ≡ digits_value_after 10 start (front_digits text.now) % 2 ^ 64 }
{
    let mut low = start;
    for (k, c) in text.iter().enumerate() {
        if !c.is_ascii_digit() {
            return (k, low);
        }
        low = low.wrapping_mul(10).wrapping_add(u64::from(*c - b'0'));
    }
    (text.len(), low)
}

// Whether all are digits.
fn all_digits(text: &[u8]) -> bool
    ensures { result ≡ list_all is_ascii_digit text.now }
{
    text.iter().all(|c| c.is_ascii_digit())
}

// The digits at the front, the rest, and the low 64 bits of the digits' number after `start`.
#[inline(always)]
fn split_digits(text: &[u8], start: u64) -> (&[u8], &[u8], u64)
    ensures digits { result.0.now ≡ front_digits text.now }
    ensures rest { result.1.now ≡ after_digits text.now }
    ensures all { AllDigits 10 result.0.now }
    ensures low { result.2 ≡ digits_value_after 10 start result.0.now % 2 ^ 64 }
{
    let (len, low) = count_digits(text, start);
    let (digits, rest) = text.split_at(len);
    (digits, rest, low)
}

// Whether a `-` is in front, and what follows an optional sign.
#[inline(always)]
fn split_sign(text: &[u8]) -> (bool, &[u8])
    ensures sign { result.0 ≡ is_minus text.now }
    ensures rest { result.1.now ≡ after_sign text.now }
{
    match text {
        [b'-', rest @ ..] => (true, rest),
        [b'+', rest @ ..] => (false, rest),
        _ => (false, text),
    }
}

// The digits after a point, the rest, and the low 64 bits of the digits' number after `start`.
#[inline(always)]
fn split_fraction(text: &[u8], start: u64) -> (&[u8], &[u8], u64)
    ensures digits { result.0.now ≡ fraction_digits text.now }
    ensures rest { result.1.now ≡ after_fraction text.now }
    ensures all { AllDigits 10 result.0.now }
    ensures low { result.2 ≡ digits_value_after 10 start result.0.now % 2 ^ 64 }
{
    match text {
        [b'.', rest @ ..] => split_digits(rest, start),
        _ => (&text[..0], text, start),
    }
}

// The sign and the digits of an exponent, which is all that is left of a text. Most texts have none.
#[inline(always)]
fn exponent_parts(text: &[u8]) -> Option<(bool, &[u8])>
    ensures value { option_map (λ e. (e.0, e.1.now)) result ≡ exponent_of text.now }
    ensures all { IfSome result (λ e. AllDigits 10 e.1.now) }
{
    match text {
        [] => Some((false, text)),
        _ => written_exponent(text),
    }
}

// The sign and the digits of an exponent that is written.
#[inline(never)]
fn written_exponent(text: &[u8]) -> Option<(bool, &[u8])>
    requires { text.now ≢ [] }
    ensures value { option_map (λ e. (e.0, e.1.now)) result ≡ exponent_of text.now }
    ensures all { IfSome result (λ e. AllDigits 10 e.1.now) }
{
    match text {
        [b'e' | b'E', rest @ ..] => {
            let (lowers, digits) = split_sign(rest);
            if !digits.is_empty() && all_digits(digits) {
                Some((lowers, digits))
            } else {
                None
            }
        }
        _ => None,
    }
}

// The parts of a number text, or none if the text spells no numeral.
#[inline(always)]
pub fn parts_of(text: &[u8]) -> Option<Parts<'_>>
    ensures value { option_map numeral_in result ≡ numeral_of text.now }
    ensures whole { IfSome result (λ p. AllDigits 10 p.whole.now) }
    ensures fraction { IfSome result (λ p. AllDigits 10 p.fraction.now) }
    ensures exponent { IfSome result (λ p. AllDigits 10 p.exponent.now) }
    ensures low { IfSome result (λ p. p.low ≡ digits_value 10 (p.whole.now ++ p.fraction.now) % 2 ^ 64) }
{
    let (negative, body) = split_sign(text);
    let (whole, rest, low) = split_digits(body, 0);
    let (fraction, rest, low) = split_fraction(rest, low);
    if whole.is_empty() && fraction.is_empty() {
        return None;
    }
    let (lowers, exponent) = exponent_parts(rest)?;
    Some(Parts {
        negative,
        whole,
        fraction,
        lowers,
        exponent,
        low,
    })
}
