//! From a line to its tokens.
ghost use Rattle.std.specs.Prelude.{◌≡◌, ◌≢◌, ◌==◌, ◌&&◌, ◌+◌, ◌<◌, ◌≤◌, length, take, drop, slice_index, option_map, IfSome, Some, IfOk, false, true};
ghost use Rattle.yaml_tokens.specs.Lexer.{Lexes, LexesAs, Takes, IsRising};
ghost use Rattle.yaml_tokens.specs.Quotes as quotes;
ghost use Rattle.yaml_tokens.specs.Results.{Gives};
ghost use Rattle.yaml_tokens.specs.TokenKinds as kinds;
ghost use Rattle.yaml_tokens.specs.Tokens as spec;

use crate::bytes::{is_blank_at, is_colon_at, is_end_at};
use crate::fault::TokenFault;
use crate::line::Line;
use crate::name::{NameKind, is_whole, name_len, named};
use crate::plain::{begins_plain, plain_token};
use crate::quoted::{double_quoted, single_quoted};
use crate::text::Text;
use crate::token::{Before, Placed, Token};
use std::alloc::Global;

/// The most brackets that are open at once.
const MOST_OPEN: usize = 64;

/// Whether a quoted scalar may end before `at`.
fn ends_quoted(depth: usize, bytes: &[u8], at: usize) -> bool
    ensures { result ≡ spec.ends_quoted depth (drop at bytes.now) }
{
    if is_blank_at(bytes, at) {
        return true;
    }
    if depth == 0 {
        is_colon_at(bytes, at)
    } else {
        is_end_at(bytes, at)
    }
}

/// The token of a quoted scalar that takes so many bytes, if it may end there.
fn quoted_token(
    depth: usize,
    rest: &str,
    text: Text,
    taken: usize,
) -> Result<(Token, usize, usize), TokenFault>
    requires { Takes rest.now taken }
    ensures { LexesAs rest.now result (spec.quoted_token depth (Some (text, drop taken rest.now))) }
{
    if ends_quoted(depth, rest.as_bytes(), taken) {
        Ok((Token::Quoted(text), taken, depth))
    } else {
        Err(TokenFault::Form)
    }
}

/// The token of a single-quoted scalar.
fn single_token(
    alloc: Global,
    depth: usize,
    rest: &str,
) -> Result<(Token, usize, usize), TokenFault>
    requires some { 0 < length rest.now }
    requires quote { slice_index rest.now 0 ≡ 39 }
    ensures { LexesAs rest.now result (spec.quoted_token depth (quotes.single_from false (drop 1 rest.now))) }
{
    let (text, taken) = single_quoted(alloc, &rest[1..])?;
    quoted_token(depth, rest, text, taken + 1)
}

/// The token of a double-quoted scalar.
fn double_token(
    alloc: Global,
    depth: usize,
    rest: &str,
) -> Result<(Token, usize, usize), TokenFault>
    requires some { 0 < length rest.now }
    requires quote { slice_index rest.now 0 ≡ 34 }
    ensures { LexesAs rest.now result (spec.quoted_token depth (quotes.double_from quotes.in_text (drop 1 rest.now))) }
{
    let (text, taken) = double_quoted(alloc, &rest[1..])?;
    quoted_token(depth, rest, text, taken + 1)
}

/// The token of a bracket that opens a list. No tree has a list inside [`MOST_OPEN`] others.
fn open_token(depth: usize, rest: &str) -> Result<(Token, usize, usize), TokenFault>
    requires some { 0 < length rest.now }
    requires opened { slice_index rest.now 0 ≡ 91 }
    ensures { LexesAs rest.now result (spec.open_token depth (drop 1 rest.now)) }
{
    if depth < MOST_OPEN {
        Ok((Token::Open, 1, depth + 1))
    } else {
        Err(TokenFault::Form)
    }
}

/// The token of an anchor or an alias, whose name begins after the first byte.
fn name_token(
    alloc: Global,
    depth: usize,
    kind: NameKind,
    rest: &str,
) -> Result<(Token, usize, usize), TokenFault>
    requires some { 0 < length rest.now }
    requires ascii { slice_index rest.now 0 < 128 }
    ensures { LexesAs rest.now result (spec.name_token (kinds.named kind) depth (spec.name_at (drop 1 rest.now))) }
{
    let after = &rest[1..];
    let len = name_len(after.as_bytes());
    if !is_whole(depth, after.as_bytes(), len) {
        return Err(TokenFault::Form);
    }
    let name = Text::of(alloc, &after[..len])?;
    Ok((named(kind, name), len + 1, depth))
}

/// The token of a plain scalar, if one may begin here.
fn scalar_token(
    alloc: Global,
    depth: usize,
    rest: &str,
) -> Result<(Token, usize, usize), TokenFault>
    requires some { 0 < length rest.now }
    requires spaced { slice_index rest.now 0 ≢ 32 }
    requires unopened { slice_index rest.now 0 ≢ 91 }
    ensures { LexesAs rest.now result (kinds.scalar_at depth (slice_index rest.now 0) (drop 1 rest.now)) }
{
    let bytes = rest.as_bytes();
    if !begins_plain(depth, bytes[0], bytes, 1) {
        return Err(TokenFault::Form);
    }
    let (token, taken) = plain_token(alloc, depth, rest)?;
    Ok((token, taken, depth))
}

/// The token that `rest` begins with outside of brackets: a dash, a colon or a plain scalar.
fn block_token(
    alloc: Global,
    before: Before,
    rest: &str,
) -> Result<(Token, usize, usize), TokenFault>
    requires some { 0 < length rest.now }
    requires spaced { slice_index rest.now 0 ≢ 32 }
    requires unopened { slice_index rest.now 0 ≢ 91 }
    ensures { LexesAs rest.now result (spec.block_token before (slice_index rest.now 0) (drop 1 rest.now)) }
{
    let bytes = rest.as_bytes();
    let b = bytes[0];
    if b == b'-' && is_blank_at(bytes, 1) && before == Before::Nothing {
        return Ok((Token::Dash, 1, 0));
    }
    if b == b':' && is_blank_at(bytes, 1) && before == Before::Scalar {
        return Ok((Token::Colon, 1, 0));
    }
    scalar_token(alloc, 0, rest)
}

/// The token that `rest` begins with inside brackets: their end, a comma or a plain scalar.
fn bracket_token(
    alloc: Global,
    depth: usize,
    rest: &str,
) -> Result<(Token, usize, usize), TokenFault>
    requires inside { 0 < depth }
    requires some { 0 < length rest.now }
    requires spaced { slice_index rest.now 0 ≢ 32 }
    requires unopened { slice_index rest.now 0 ≢ 91 }
    ensures { LexesAs rest.now result (spec.bracket_token depth (slice_index rest.now 0) (drop 1 rest.now)) }
{
    let b = rest.as_bytes()[0];
    if b == b']' {
        return Ok((Token::Close, 1, depth - 1));
    }
    if b == b',' {
        return Ok((Token::Comma, 1, depth));
    }
    scalar_token(alloc, depth, rest)
}

/// The token that `rest` begins with, how many bytes it takes, and the bracket depth after it.
fn token_at(
    alloc: Global,
    depth: usize,
    before: Before,
    rest: &str,
) -> Result<(Token, usize, usize), TokenFault>
    requires some { 0 < length rest.now }
    requires spaced { slice_index rest.now 0 ≢ 32 }
    ensures { Lexes depth before rest.now result }
{
    let b = rest.as_bytes()[0];
    if b == b'\'' {
        return single_token(alloc, depth, rest);
    }
    if b == b'"' {
        return double_token(alloc, depth, rest);
    }
    if b == b'&' {
        return name_token(alloc, depth, NameKind::Anchor, rest);
    }
    if b == b'*' {
        return name_token(alloc, depth, NameKind::Alias, rest);
    }
    if b == b'[' {
        return open_token(depth, rest);
    }
    if depth == 0 {
        block_token(alloc, before, rest)
    } else {
        bracket_token(alloc, depth, rest)
    }
}

/// What comes before the token after this one. A line may begin with several dashes.
fn seen(before: Before, token: &Token) -> Before
    ensures { result ≡ spec.seen before token.now }
{
    match token {
        Token::Dash => before,
        Token::Plain(_) => Before::Scalar,
        Token::Quoted(_) => Before::Scalar,
        _ => Before::Other,
    }
}

/// Whether a byte begins a comment; `spaced` says that it is the first of its line or follows a space.
fn begins_comment(spaced: bool, b: u8) -> bool
    ensures { result ≡ (b == 35 && spaced) }
{
    b == b'#' && spaced
}

/// The tokens of a line that begins at the bracket depth `start`, and the depth at its end.
pub fn tokens_of(alloc: Global, start: usize, line: &str) -> Result<(Line, usize), TokenFault>
    ensures tokens { Gives result
        (spec.tokens_from (length line.now) (length line.now) true start Before.Nothing line.now) }
    ensures rising { IfOk result (λ p. IsRising p.0) }
{
    let mut tokens = Line::new(alloc);
    let mut depth = start;
    let mut before = Before::Nothing;
    let mut spaced = true;
    let mut rest = line;
    for _turn in 0..line.len() {
        if rest.is_empty() {
            return Ok((tokens, depth));
        }
        if rest.as_bytes()[0] == b' ' {
            spaced = true;
            rest = &rest[1..];
            continue;
        }
        if begins_comment(spaced, rest.as_bytes()[0]) {
            return Ok((tokens, depth));
        }
        let column = line.len() - rest.len();
        let (token, taken, after) = token_at(alloc, depth, before, rest)?;
        before = seen(before, &token);
        tokens = tokens.push(Placed { column, token })?;
        depth = after;
        spaced = false;
        rest = &rest[taken..];
    }
    Ok((tokens, depth))
}
