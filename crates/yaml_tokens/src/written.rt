//! Texts written in double quotes.
ghost use Rattle.std.specs.Prelude.{◌≡◌, ◌<◌, ◌||◌, [], ◌∷◌, ◌++◌, true, List, ℕ, drop, Some};
ghost use Rattle.std.specs.List.{flat_map};
ghost use Rattle.lists_core.specs.Puts.{Puts};
ghost use Rattle.yaml_tokens.specs.Quotes.{double_from, in_text};
ghost use Rattle.yaml_tokens.specs.Written.{is_mark, is_control, hex_digit, spelled, quoted_text};

use crate::quoted::is_mark;
use std::alloc::AllocError;

/// Whether a byte is a control character of ASCII.
fn is_control(b: u8) -> bool
    ensures { result ≡ is_control b }
{
    b < b' ' || b == 127
}

/// Whether a byte is not written as itself.
fn needs_escape(b: u8) -> bool
    ensures { result ≡ (is_mark b || is_control b) }
{
    is_mark(b) || is_control(b)
}

/// A hexadecimal digit, in upper case.
fn hex_digit(n: u8) -> u8
    requires { n < 16 }
    ensures { result ≡ hex_digit n }
{
    if n < 10 { b'0' + n } else { b'A' + (n - 10) }
}

/// Appends bytes as they are.
fn put_plain(bytes: &[u8], out: &mut Vec<u8>) -> Result<(), AllocError>
    ensures { Puts out.old.items out.new.items result bytes.now }
{
    out.extend_from_slice(bytes)
}

/// Appends the escape of a byte that is not written as itself.
fn put_escape(b: u8, out: &mut Vec<u8>) -> Result<(), AllocError>
    requires { (is_mark b || is_control b) ≡ true }
    ensures { Puts out.old.items out.new.items result (spelled b) }
{
    if is_mark(b) {
        put_plain(&[b'\\', b], out)
    } else {
        put_plain(&[b'\\', b'x', hex_digit(b / 16), hex_digit(b % 16)], out)
    }
}

/// Appends bytes as they are and the escape of the byte behind them.
fn put_run(run: &[u8], behind: u8, out: &mut Vec<u8>) -> Result<(), AllocError>
    requires { (is_mark behind || is_control behind) ≡ true }
    ensures { Puts out.old.items out.new.items result (run.now ++ spelled behind) }
{
    put_plain(run, out)?;
    put_escape(behind, out)
}

/// Appends what goes between the quotes, each run of bytes without an escape at once.
fn put_spelled(bytes: &[u8], out: &mut Vec<u8>) -> Result<(), AllocError>
    ensures { Puts out.old.items out.new.items result (flat_map spelled bytes.now) }
{
    let mut done = 0;
    for at in 0..bytes.len() {
        let b = bytes[at];
        if needs_escape(b) {
            put_run(&bytes[done..at], b, out)?;
            done = at + 1;
        }
    }
    put_plain(&bytes[done..], out)
}

/// Appends a text in double quotes, in one spelling: a backslash before a double quote and a
/// backslash, `\x` and two upper-case hexadecimal digits for each character below U+0020 and for
/// U+007F, and every other character as it is. If memory runs out, part of it is appended.
pub fn put_quoted(text: &str, out: &mut Vec<u8>) -> Result<(), AllocError>
    ensures text { Puts out.old.items out.new.items result (quoted_text text.now) }
{
    put_plain(b"\"", out)?;
    put_spelled(text.as_bytes(), out)?;
    put_plain(b"\"", out)
}

/// A law, with no code: from behind its opening quote a text in double quotes reads as the text,
/// whatever follows it.
pub fn quoted_text_reads_back(text: &str)
    ensures { (rest : List ℕ) → double_from in_text (drop 1 (quoted_text text.now ++ rest)) ≡ Some (text.now, rest) }
{}
