//! The tokens of a line, which are taken from the front.
ghost use Rattle.std.specs.Prelude.{◌≡◌, [], ◌∷◌, ◌++◌, drop, length, ◌↔◌, IsTrue, IfOk, MatchOption};
ghost use Rattle.yaml_tokens.specs.Packed.{first_column, first_kind, second_kind, kind_of, text_in};

use crate::packed::{Packed, PackedTokens, behind};
use crate::token::{Placed, TokenKind, token_of};
use std::alloc::{AllocError, Global};
use std::marker::Model;
use std::str;

/// The tokens of a line that are left, in the order of the text. The column of the first of a whole line
/// is the indentation. A token costs 5 bytes, and one with a text 4 bytes more and the bytes of the text.
#[derive(Drop)]
pub struct Line {
    tokens: PackedTokens,
    texts: Vec<u8>,
    read: usize,
}

impl Model for Line {
    ghost use Rattle.std.specs.Prelude.{List, drop, length, ◌≤◌};
    ghost use Rattle.std.specs.Coded.{coded_list};
    ghost use Rattle.yaml_tokens.specs.declared.token.Placed.{Placed};
    ghost use Rattle.yaml_tokens.specs.contracts.token.Placed as the_placed;
    ghost use Rattle.yaml_tokens.specs.Packed.{unpacked, ArePacked};

    ghost Value = { List Placed };

    ghost coded = { coded_list the_placed.the_row.coded };

    ghost view = { λ line. unpacked line.tokens (drop line.read line.texts.items) };

    ghost invariant = { λ line. (line.read ≤ length line.texts.items)
        × ArePacked line.tokens (drop line.read line.texts.items) };
}

/// A token without its text. Out of memory if its column or the length of its text does not fit into 32 bits,
/// which does not occur in a text of 64 MiB.
fn without_text(placed: &Placed) -> Result<Packed, AllocError>
    ensures column { IfOk result (λ p. p.column ≡ placed.now.column) }
    ensures kind { IfOk result (λ p. p.kind ≡ kind_of placed.now.token) }
    ensures len { IfOk result (λ p. p.len ≡ length (text_in placed.now.token)) }
{
    let Ok(column) = u32::try_from(placed.column) else {
        return Err(AllocError);
    };
    let Ok(len) = u32::try_from(placed.token.text().len()) else {
        return Err(AllocError);
    };
    Ok(Packed {
        column,
        kind: placed.token.kind(),
        len,
    })
}

impl Line {
    /// No token. Takes no memory.
    pub fn new(alloc: Global) -> Self
        ensures { result ≡ [] }
    {
        Line {
            tokens: PackedTokens::new(alloc),
            texts: Vec::new(alloc),
            read: 0,
        }
    }

    /// How many are left.
    pub fn len(&self) -> usize
        ensures { result ≡ length self.now }
    {
        self.tokens.len()
    }

    /// Whether none is left.
    pub fn is_empty(&self) -> bool
        ensures { IsTrue result ↔ (self.now ≡ []) }
    {
        self.len() == 0
    }

    /// Where the first begins, and 0 if none is left.
    pub fn column(&self) -> usize
        ensures { result ≡ first_column self.now }
    {
        match self.tokens.first() {
            Some(first) => first.column as usize,
            None => 0,
        }
    }

    /// What the first is.
    pub fn first_kind(&self) -> Option<TokenKind>
        ensures { result ≡ first_kind self.now }
    {
        self.tokens.kind(0)
    }

    /// What the second is.
    pub fn second_kind(&self) -> Option<TokenKind>
        ensures { result ≡ second_kind self.now }
    {
        self.tokens.kind(1)
    }

    /// The line with one more token at the end.
    pub fn push(self, placed: Placed) -> Result<Line, AllocError>
        ensures { IfOk result (λ line. line ≡ self ++ placed ∷ []) }
    {
        let Line {
            tokens,
            mut texts,
            read,
        } = self;
        let tokens = tokens.push(without_text(&placed)?)?;
        texts.extend_from_slice(placed.token.text().as_bytes())?;
        Ok(Line {
            tokens,
            texts,
            read,
        })
    }

    /// Takes the first token off, in constant time but for its text.
    pub fn next(&mut self, alloc: Global) -> Result<Option<Placed>, AllocError>
        ensures { IfOk result (λ first. MatchOption first ((self.old ≡ []) × (self.new ≡ []))
            (λ token. self.old ≡ token ∷ self.new)) }
    {
        let Some(Packed { column, kind, len }) = self.tokens.first() else {
            return Ok(None);
        };
        let end = self.read + len as usize;
        let Ok(text) = str::from_utf8(&self.texts[self.read..end]) else {
            unreachable!();
        };
        let token = token_of(alloc, kind, text)?;
        self.tokens.skip();
        self.read = end;
        Ok(Some(Placed {
            column: column as usize,
            token,
        }))
    }

    /// Drops the first token, if one is left. Takes no memory.
    pub fn skip(&mut self)
        ensures { self.new ≡ drop 1 self.old }
    {
        let Some(first) = self.tokens.first() else {
            return;
        };
        self.tokens.skip();
        self.read += first.len as usize;
    }

    /// The line with the tokens of `more` at the end.
    pub fn append(self, more: Line) -> Result<Line, AllocError>
        ensures { IfOk result (λ line. line ≡ self ++ more) }
    {
        let Line {
            tokens,
            mut texts,
            read,
        } = self;
        let tokens = tokens.append(more.tokens)?;
        texts.extend_from_slice(behind(&more.texts, more.read))?;
        Ok(Line {
            tokens,
            texts,
            read,
        })
    }
}
