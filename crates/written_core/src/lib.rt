//! Documents as they are written, and the tree that reading finds in them, in definitions and laws; and appending their
//! texts.
#![tactic(auto)]

mod put;

ghost use Rattle.std.specs.Prelude.{◌≡◌, ℕ, List, map, Some, option_map};
ghost use Rattle.yaml_core.specs.Read.{reading, within_limit};
ghost use Rattle.yaml_tokens.specs.Tokens.{text_tokens};
ghost use Rattle.yaml_core.specs.Tree.{text_measured};
ghost use Rattle.written_core.specs.Document.{DocLine, document_text, tokens_in, AreGoodLines};
ghost use Rattle.written_core.specs.Outline.{Outline, IsOutline, IsUtf8Outline, outline_lines, outline_measured};

pub use put::{put_comma, put_number, put_text};

/// A law, with no code: the tokens of a written document are the tokens of its lines.
pub fn written_lines_are_read()
    ensures { (ls : List DocLine) → AreGoodLines ls → text_tokens (document_text ls) ≡ Some (map tokens_in ls) }
{}

/// A law: the tree of a written outline is what the outline means.
pub fn written_outlines_are_read()
    ensures { (o : Outline) → IsOutline o → text_measured (document_text (outline_lines 0 o)) ≡ outline_measured o }
{}

/// A law: the bytes of a written outline whose quoted texts are UTF-8 read as its tree, unless that has too many nodes.
pub fn written_bytes_are_read()
    ensures { (o : Outline) → IsOutline o → IsUtf8Outline o
        → reading (document_text (outline_lines 0 o)) ≡ within_limit (option_map (λ m. m.node) (outline_measured o)) }
{}
