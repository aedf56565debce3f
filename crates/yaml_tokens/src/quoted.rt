//! Scalars in quotes.
ghost use Rattle.std.specs.Prelude.{◌≡◌, ◌==◌, ◌||◌, ◌<◌, ◌≤◌, length, slice_index, IfSome, true, false, option_map};
ghost use Rattle.yaml_tokens.specs.Quotes as spec;
ghost use Rattle.yaml_tokens.specs.Quoted.{ReadsText, EndsAscii, up_to_single, up_to_double, up_to_escape, digits_from};

use crate::fault::TokenFault;
use crate::text::Text;
use std::alloc::Global;

/// The place of the next single quote.
fn next_quote(bytes: &[u8]) -> Option<usize>
    ensures within { IfSome result (λ n. n < length bytes.now) }
    ensures quote { IfSome result (λ n. slice_index bytes.now n ≡ 39) }
    ensures value { spec.single_from false bytes.now ≡ up_to_single bytes.now result }
{
    for at in 0..bytes.len() {
        if bytes[at] == b'\'' {
            return Some(at);
        }
    }
    None
}

/// Whether a single quote comes first.
fn is_quote_first(bytes: &[u8]) -> bool
    ensures { result ≡ spec.is_quote_first bytes.now }
{
    !bytes.is_empty() && bytes[0] == b'\''
}

/// The text of a single-quoted scalar and how many bytes it takes, from behind its opening quote.
pub fn single_quoted(alloc: Global, rest: &str) -> Result<(Text, usize), TokenFault>
    ensures { ReadsText rest.now result (spec.single_from false rest.now) }
{
    let mut text = String::new(alloc);
    let mut left = rest;
    for _turn in 0..rest.len() {
        let Some(len) = next_quote(left.as_bytes()) else {
            return Err(TokenFault::Form);
        };
        text.push_str(&left[..len])?;
        left = &left[len + 1..];
        if !is_quote_first(left.as_bytes()) {
            return Ok((Text::from_string(text), rest.len() - left.len()));
        }
        text.push_str("'")?;
        left = &left[1..];
    }
    Err(TokenFault::Form)
}

/// Whether a byte is a double quote or a backslash.
pub fn is_mark(b: u8) -> bool
    ensures { result ≡ (b == 34 || b == 92) }
{
    b == b'"' || b == b'\\'
}

/// The place of the next double quote or backslash.
fn next_mark(bytes: &[u8]) -> Option<usize>
    ensures within { IfSome result (λ n. n < length bytes.now) }
    ensures mark { IfSome result (λ n. (slice_index bytes.now n == 34 || slice_index bytes.now n == 92) ≡ true) }
    ensures value { spec.double_from spec.in_text bytes.now ≡ up_to_double bytes.now result }
{
    for at in 0..bytes.len() {
        if is_mark(bytes[at]) {
            return Some(at);
        }
    }
    None
}

/// The value of a hexadecimal digit.
fn hex_value(b: u8) -> Option<u32>
    ensures value { result ≡ spec.hex_value b }
    ensures below { IfSome result (λ h. h < 16) }
    ensures ascii { IfSome result (λ _. b < 128) }
{
    match b {
        b'0'..=b'9' => Some(u32::from(b - b'0')),
        b'a'..=b'f' => Some(u32::from(b - b'a') + 10),
        b'A'..=b'F' => Some(u32::from(b - b'A') + 10),
        _ => None,
    }
}

/// How many hexadecimal digits follow `\x`, `\u` and `\U`; none after another character.
fn hex_count(b: u8) -> usize
    ensures count { result ≡ spec.hex_count b }
    ensures few { result ≤ 8 }
{
    match b {
        b'x' => 2,
        b'u' => 4,
        b'U' => 8,
        _ => 0,
    }
}

/// The character that an escape of one character means.
fn simple_escape(b: u8) -> Option<char>
    ensures value { result ≡ spec.simple_escape b }
    ensures ascii { IfSome result (λ _. b < 128) }
{
    match b {
        b'0' => Some('\0'),
        b'a' => Some('\u{7}'),
        b'b' => Some('\u{8}'),
        b't' => Some('\t'),
        b'n' => Some('\n'),
        b'v' => Some('\u{b}'),
        b'f' => Some('\u{c}'),
        b'r' => Some('\r'),
        b'e' => Some('\u{1b}'),
        b'"' => Some('"'),
        b'/' => Some('/'),
        b'\\' => Some('\\'),
        b' ' => Some(' '),
        b'N' => Some('\u{85}'),
        b'_' => Some('\u{a0}'),
        b'L' => Some('\u{2028}'),
        b'P' => Some('\u{2029}'),
        _ => None,
    }
}

/// The character with this number, unless it is a surrogate or none has it.
fn character(value: u32) -> Option<char>
    ensures { result ≡ spec.character value }
{
    char::from_u32(value)
}

/// The character whose number is in the first `count` hexadecimal digits.
fn hex_character(bytes: &[u8], count: usize) -> Option<char>
    requires some { 0 < count }
    requires few { count ≤ 8 }
    ensures value { spec.double_from (spec.in_number count 0) bytes.now
        ≡ up_to_escape bytes.now (option_map (λ c. (c, count)) result) }
    ensures ascii { IfSome result (λ _. EndsAscii bytes.now count) }
{
    let mut value = 0;
    for at in 0..count {
        let digit = hex_value(*bytes.get(at)?)?;
        value = value * 16 + digit;
    }
    character(value)
}

/// The character that an escape means, and how many bytes it takes, from behind its backslash.
fn escape(bytes: &[u8]) -> Option<(char, usize)>
    ensures value { spec.double_from spec.in_escape bytes.now ≡ up_to_escape bytes.now result }
    ensures ascii { IfSome result (λ p. EndsAscii bytes.now p.1) }
{
    let first = *bytes.first()?;
    let count = hex_count(first);
    if count == 0 {
        return Some((simple_escape(first)?, 1));
    }
    Some((hex_character(&bytes[1..], count)?, 1 + count))
}

/// The text of a double-quoted scalar and how many bytes it takes, from behind its opening quote.
pub fn double_quoted(alloc: Global, rest: &str) -> Result<(Text, usize), TokenFault>
    ensures { ReadsText rest.now result (spec.double_from spec.in_text rest.now) }
{
    let mut text = String::new(alloc);
    let mut left = rest;
    for _turn in 0..rest.len() {
        let Some(len) = next_mark(left.as_bytes()) else {
            return Err(TokenFault::Form);
        };
        text.push_str(&left[..len])?;
        let is_end = left.as_bytes()[len] == b'"';
        left = &left[len + 1..];
        if is_end {
            return Ok((Text::from_string(text), rest.len() - left.len()));
        }
        let Some((c, taken)) = escape(left.as_bytes()) else {
            return Err(TokenFault::Form);
        };
        text.push(c)?;
        left = &left[taken..];
    }
    Err(TokenFault::Form)
}
