//! Appending lines.
ghost use Rattle.std.specs.Prelude.{◌≡◌, ◌≤◌, ◌^◌, OnOk, unsigned_abs};
ghost use Rattle.std.specs.Str.{IsUtf8};
ghost use Rattle.fixed_core.specs.Spelling.{spelling};
ghost use Rattle.lists_core.specs.Puts.{Puts};
ghost use Rattle.yaml_tokens.specs.Written.{quoted_text};
ghost use Rattle.problem_text_core.specs.Parts.{key_row};

use fixed_core::{Fixed, put_fixed};
use std::alloc::AllocError;
use written_core::put_text;
use yaml_core::put_quoted;

/// Appends a line: its key, with what is around it, and a word.
pub fn put_word_line(key: &str, word: &str, out: &mut Vec<u8>) -> Result<(), AllocError>
    ensures { Puts out.old.items out.new.items result (key_row key.now word.now) }
{
    put_text(key, out)?;
    put_text(word, out)?;
    put_text("\n", out)
}

/// Appends a line: its key, with what is around it, and a number.
pub fn put_number_line(key: &str, number: Fixed, out: &mut Vec<u8>) -> Result<(), AllocError>
    ensures text { Puts out.old.items out.new.items result (key_row key.now (spelling number)) }
    ensures range { OnOk result (unsigned_abs number ≤ 10 ^ 36) }
{
    put_text(key, out)?;
    put_fixed(number, out)?;
    put_text("\n", out)
}

/// Appends a line: its key, with what is around it, and a text in double quotes.
pub fn put_quoted_line(key: &str, text: &str, out: &mut Vec<u8>) -> Result<(), AllocError>
    ensures text { Puts out.old.items out.new.items result (key_row key.now (quoted_text text.now)) }
    ensures utf8 { IsUtf8 text.now }
{
    put_text(key, out)?;
    put_quoted(text, out)?;
    put_text("\n", out)
}
