//! The names of anchors and aliases.
ghost use Rattle.std.specs.Prelude.{◌≡◌, ◌&&◌, ℕ, ◌<◌, ◌≤◌, nat_lt, length, take, drop, slice_index};
ghost use Rattle.yaml_tokens.specs.TokenKinds as kinds;
ghost use Rattle.yaml_tokens.specs.Tokens as spec;

use crate::bytes::{is_blank_at, is_end_at};
use crate::text::Text;
use crate::token::Token;

/// What a name is for: a node that it is given to, or the node that has it.
#[derive(Clone, Copy)]
pub enum NameKind {
    Anchor,
    Alias,
}

/// Whether a byte may be part of a name.
fn is_name(b: u8) -> bool
    ensures { result ≡ spec.is_name b }
{
    (b'0' <= b && b <= b'9')
        || (b'A' <= b && b <= b'Z')
        || (b'a' <= b && b <= b'z')
        || b == b'_'
        || b == b'-'
}

/// How many bytes the name at the front has.
pub fn name_len(bytes: &[u8]) -> usize
    ensures within { result ≤ length bytes.now }
    ensures ascii { (k : ℕ) → k < result → slice_index bytes.now k < 128 }
    ensures value { spec.name_at bytes.now ≡ (take result bytes.now, drop result bytes.now) }
{
    for at in 0..bytes.len() {
        if !is_name(bytes[at]) {
            return at;
        }
    }
    bytes.len()
}

/// Whether a name may end before `at`.
fn ends_name(depth: usize, bytes: &[u8], at: usize) -> bool
    ensures { result ≡ spec.ends_name depth (drop at bytes.now) }
{
    is_blank_at(bytes, at) || (0 < depth && is_end_at(bytes, at))
}

/// Whether a name of so many bytes has any, and may end there.
pub fn is_whole(depth: usize, bytes: &[u8], len: usize) -> bool
    ensures { result ≡ (nat_lt 0 len && spec.ends_name depth (drop len bytes.now)) }
{
    0 < len && ends_name(depth, bytes, len)
}

/// The token of a name.
pub fn named(kind: NameKind, name: Text) -> Token
    ensures { result ≡ kinds.named kind name }
{
    match kind {
        NameKind::Anchor => Token::Anchor(name),
        NameKind::Alias => Token::Alias(name),
    }
}
