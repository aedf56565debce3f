//! From a text to the tokens of its lines.
ghost use Rattle.std.specs.Prelude.{◌≡◌, ◌∷◌, IfOk, IfSome};
ghost use Rattle.std.specs.List.{list_any};
ghost use Rattle.yaml_tokens.specs.Lexer.{GivesLine, IsRising};
ghost use Rattle.yaml_tokens.specs.Results.{Gives};
ghost use Rattle.yaml_tokens.specs.Tokens as spec;

use crate::bytes::is_blank_at;
use crate::fault::TokenFault;
use crate::lexer::tokens_of;
use crate::line::Line;
use std::alloc::Global;

/// Whether there is nothing but spaces and a comment.
fn is_spaces_or_comment(bytes: &[u8]) -> bool
    ensures { result ≡ spec.is_spaces_or_comment bytes.now }
{
    for b in bytes {
        if *b == b'#' {
            return true;
        }
        if *b != b' ' {
            return false;
        }
    }
    true
}

/// Whether a line is `---` with nothing but spaces and a comment after it.
fn is_start(bytes: &[u8]) -> bool
    ensures { result ≡ spec.is_start bytes.now }
{
    match bytes {
        [a, b, c, rest @ ..] => {
            *a == b'-'
                && *b == b'-'
                && *c == b'-'
                && is_blank_at(rest, 0)
                && is_spaces_or_comment(rest)
        }
        _ => false,
    }
}

/// Whether a line is `---` or `...`, alone or before a space.
fn is_marker(bytes: &[u8]) -> bool
    ensures { result ≡ spec.is_marker bytes.now }
{
    match bytes {
        [a, b, c, rest @ ..] => {
            ((*a == b'-' && *b == b'-' && *c == b'-') || (*a == b'.' && *b == b'.' && *c == b'.'))
                && is_blank_at(rest, 0)
        }
        _ => false,
    }
}

/// Whether the line of these tokens counts, which aren't none. The first that counts may be the start of
/// a document, and is dropped; no other may be a marker.
fn is_kept(is_first: bool, line: &[u8]) -> Result<bool, TokenFault>
    ensures { Gives result (spec.kept is_first line.now) }
{
    if is_first && is_start(line) {
        return Ok(false);
    }
    if is_marker(line) {
        return Err(TokenFault::Form);
    }
    Ok(true)
}

/// The tokens of a line without control characters, and the bracket depth at its end.
fn line_tokens(alloc: Global, depth: usize, line: &str) -> Result<(Line, usize), TokenFault>
    ensures tokens { Gives result (spec.line_tokens depth line.now) }
    ensures rising { IfOk result (λ p. IsRising p.0) }
{
    if has_refused(line.as_bytes()) {
        return Err(TokenFault::Form);
    }
    tokens_of(alloc, depth, line)
}

/// Whether a byte is refused anywhere in a line.
fn is_refused(b: u8) -> bool
    ensures { result ≡ spec.is_refused b }
{
    (b < 32 && b != b'\t') || b == 127
}

/// Whether some byte is refused anywhere in a line.
fn has_refused(bytes: &[u8]) -> bool
    ensures { result ≡ list_any spec.is_refused bytes.now }
{
    bytes.iter().any(|b| is_refused(*b))
}

/// Whether the text begins with a byte order mark, U+FEFF.
fn has_mark(bytes: &[u8]) -> bool
    ensures { result ≡ spec.has_mark bytes.now }
{
    match bytes {
        [a, b, c, ..] => *a == 239 && *b == 187 && *c == 191,
        _ => false,
    }
}

/// The text without a byte order mark at its front.
pub fn without_mark(text: &str) -> &str
    ensures { result.now ≡ spec.without_mark text.now }
{
    if has_mark(text.as_bytes()) {
        &text[3..]
    } else {
        text
    }
}

/// How far the lines of a text were read.
#[derive(Clone, Copy)]
pub struct Reached {
    /// No line with tokens came before.
    pub is_first: bool,
    /// The bracket depth.
    pub depth: usize,
}

/// The tokens of the next line, if it has any and isn't the start of a document, and how far the lines
/// were read then.
pub fn next_tokens(
    alloc: Global,
    reached: Reached,
    line: &str,
) -> Result<(Option<Line>, Reached), TokenFault>
    ensures tokens { GivesLine result (λ ls. spec.lines_tokens reached.is_first reached.depth (line.now ∷ ls)) }
    ensures rising { IfOk result (λ p. IfSome p.0 IsRising) }
{
    let Reached { is_first, depth } = reached;
    let (tokens, depth) = line_tokens(alloc, depth, line)?;
    if tokens.is_empty() {
        return Ok((None, Reached { is_first, depth }));
    }
    let is_kept = is_kept(is_first, line.as_bytes())?;
    let reached = Reached {
        is_first: false,
        depth,
    };
    if is_kept {
        Ok((Some(tokens), reached))
    } else {
        Ok((None, reached))
    }
}
