//! Plain scalars.
ghost use Rattle.std.specs.Prelude.{◌≡◌, ◌<◌, ◌≤◌, length, take, drop, slice_index, option_map, IfSome, false};
ghost use Rattle.yaml_tokens.specs.Lexer.{LexesPlain};
ghost use Rattle.yaml_tokens.specs.Tokens as spec;

use crate::bytes::{is_blank_at, is_hash_at, is_separated_at};
use crate::fault::TokenFault;
use crate::text::Text;
use crate::token::Token;
use std::alloc::Global;

/// Whether no plain scalar may begin with the byte, whatever follows it.
fn is_indicator(b: u8) -> bool
    ensures { result ≡ spec.is_indicator b }
{
    b == b','
        || b == b']'
        || b == b'{'
        || b == b'}'
        || b == b'#'
        || b == b'&'
        || b == b'*'
        || b == b'!'
        || b == b'|'
        || b == b'>'
        || b == b'%'
        || b == b'@'
        || b == b'`'
        || b == b'\''
        || b == b'"'
        || b == b'\t'
}

/// Whether a plain scalar ends before the byte `b`, which the bytes from `at` on follow.
fn ends_plain(depth: usize, b: u8, bytes: &[u8], at: usize) -> bool
    ensures { result ≡ spec.ends_plain depth b (drop at bytes.now) }
{
    if b == b' ' && is_hash_at(bytes, at) {
        return true;
    }
    if depth == 0 {
        b == b':' && is_blank_at(bytes, at)
    } else {
        b == b',' || b == b'[' || b == b']'
    }
}

/// Whether no plain scalar may hold the byte `b`, which the bytes from `at` on follow.
fn breaks_plain(depth: usize, b: u8, bytes: &[u8], at: usize) -> bool
    ensures { result ≡ spec.breaks_plain depth b (drop at bytes.now) }
{
    b == b'\t'
        || (0 < depth
            && (b == b'{' || b == b'}' || (b == b':' && is_separated_at(depth, bytes, at))))
}

/// Whether a plain scalar may begin with the byte `b`, which the bytes from `at` on follow.
pub fn begins_plain(depth: usize, b: u8, bytes: &[u8], at: usize) -> bool
    ensures { result ≡ spec.begins_plain depth b (drop at bytes.now) }
{
    !(is_indicator(b)
        || ((b == b'-' || b == b'?' || b == b':') && is_separated_at(depth, bytes, at)))
}

/// How many bytes a plain scalar has, with the spaces after it.
fn plain_len(depth: usize, bytes: &[u8]) -> Option<usize>
    ensures within { IfSome result (λ n. n ≤ length bytes.now) }
    ensures some { spec.ends_plain depth (slice_index bytes.now 0) (drop 1 bytes.now) ≡ false → 0 < length bytes.now
        → IfSome result (λ n. 0 < n) }
    ensures ends { IfSome result (λ n. n < length bytes.now → slice_index bytes.now n < 128) }
    ensures value { spec.plain depth bytes.now ≡ option_map (λ n. (take n bytes.now, drop n bytes.now)) result }
{
    for at in 0..bytes.len() {
        if ends_plain(depth, bytes[at], bytes, at + 1) {
            return Some(at);
        }
        if breaks_plain(depth, bytes[at], bytes, at + 1) {
            return None;
        }
    }
    Some(bytes.len())
}

/// How many bytes are left without the spaces at the end.
fn trimmed_len(bytes: &[u8]) -> usize
    ensures within { result ≤ length bytes.now }
    ensures ends { result < length bytes.now → slice_index bytes.now result ≡ 32 }
    ensures value { spec.without_end bytes.now ≡ take result bytes.now }
{
    let mut len = bytes.len();
    while len > 0 && bytes[len - 1] == b' ' {
        len -= 1;
    }
    len
}

/// The plain scalar that `rest` begins with, and how many bytes it takes.
pub fn plain_token(alloc: Global, depth: usize, rest: &str) -> Result<(Token, usize), TokenFault>
    requires some { 0 < length rest.now }
    requires begins { spec.ends_plain depth (slice_index rest.now 0) (drop 1 rest.now) ≡ false }
    ensures { LexesPlain depth rest.now result }
{
    let Some(len) = plain_len(depth, rest.as_bytes()) else {
        return Err(TokenFault::Form);
    };
    let piece = &rest[..len];
    let text = &piece[..trimmed_len(piece.as_bytes())];
    Ok((Token::Plain(Text::of(alloc, text)?), len))
}
