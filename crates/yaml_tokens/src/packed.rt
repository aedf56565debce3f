//! Tokens without their texts.
ghost use Rattle.std.specs.Prelude.{◌≡◌, ◌∷◌, [], ◌++◌, ◌≤◌, drop, length, map, false, IfOk, MatchOption};
ghost use Rattle.std.specs.List.{slice_get};
ghost use Rattle.yaml_tokens.specs.Arrays.{lens_of};
ghost use Rattle.yaml_tokens.specs.Packed.{has_text};

use crate::token::TokenKind;
use std::alloc::{AllocError, Global};
use std::marker::Model;

/// A token without its text: where in its line it begins, what it is, and how many bytes its text has.
#[derive(Clone, Copy, Debug)]
pub struct Packed {
    pub column: u32,
    pub kind: TokenKind,
    pub len: u32,
}

// A kind takes one byte.
const _: () = prove!(size_of::<TokenKind>() == 1);

/// Tokens without their texts, which are taken from the front. A token takes 5 bytes, and 4 more if its
/// kind has a text.
#[derive(Drop)]
pub struct PackedTokens {
    columns: Vec<u32>,
    kinds: Vec<TokenKind>,
    lens: Vec<u32>,
    taken: usize,
    lens_taken: usize,
}

impl Model for PackedTokens {
    ghost use Rattle.std.specs.Prelude.{List, drop};
    ghost use Rattle.yaml_tokens.specs.declared.packed.Packed.{Packed};
    ghost use Rattle.yaml_tokens.specs.Arrays.{packed, AreArrays};

    ghost Value = { List Packed };

    ghost view = { λ t. packed (drop t.taken t.columns.items) (drop t.taken t.kinds.items)
        (drop t.lens_taken t.lens.items) };

    ghost invariant = { λ t. AreArrays t.columns.items t.kinds.items t.lens.items t.taken t.lens_taken };
}

/// What is from a place on.
pub fn behind<T>(all: &[T], at: usize) -> &[T]
    requires { at ≤ length all.now }
    ensures { result.now ≡ drop at all.now }
{
    &all[at..]
}

/// The lengths with that of a token at the end, if its kind has a text.
fn with_len(mut lens: Vec<u32>, token: Packed) -> Result<Vec<u32>, AllocError>
    ensures { IfOk result (λ longer. longer.items ≡ lens.items ++ lens_of token) }
{
    if token.kind.has_text() {
        lens.push(token.len)?;
    }
    Ok(lens)
}

impl PackedTokens {
    /// No token. Takes no memory.
    pub fn new(alloc: Global) -> Self
        ensures { result ≡ [] }
    {
        PackedTokens {
            columns: Vec::new(alloc),
            kinds: Vec::new(alloc),
            lens: Vec::new(alloc),
            taken: 0,
            lens_taken: 0,
        }
    }

    /// How many are left.
    pub fn len(&self) -> usize
        ensures { result ≡ length self.now }
    {
        self.kinds.len() - self.taken
    }

    /// What the token at a place is, from 0.
    pub fn kind(&self, at: usize) -> Option<TokenKind>
        ensures { result ≡ slice_get (map (λ p. p.kind) self.now) at }
    {
        behind(&self.kinds, self.taken).get(at).copied()
    }

    /// The first token.
    pub fn first(&self) -> Option<Packed>
        ensures { MatchOption result (self.now ≡ []) (λ first. self.now ≡ first ∷ drop 1 self.now) }
    {
        if self.taken == self.kinds.len() {
            return None;
        }
        let kind = self.kinds[self.taken];
        let len = if kind.has_text() {
            self.lens[self.lens_taken]
        } else {
            0
        };
        Some(Packed {
            column: self.columns[self.taken],
            kind,
            len,
        })
    }

    /// The tokens with one more at the end.
    pub fn push(self, token: Packed) -> Result<PackedTokens, AllocError>
        requires { has_text token.kind ≡ false → token.len ≡ 0 }
        ensures { IfOk result (λ tokens. tokens ≡ self ++ token ∷ []) }
    {
        let PackedTokens {
            mut columns,
            mut kinds,
            lens,
            taken,
            lens_taken,
        } = self;
        columns.push(token.column)?;
        kinds.push(token.kind)?;
        Ok(PackedTokens {
            columns,
            kinds,
            lens: with_len(lens, token)?,
            taken,
            lens_taken,
        })
    }

    /// Drops the first token, if one is left. Takes no memory.
    pub fn skip(&mut self)
        ensures { self.new ≡ drop 1 self.old }
    {
        if self.taken == self.kinds.len() {
            return;
        }
        self.lens_taken += usize::from(self.kinds[self.taken].has_text());
        self.taken += 1;
    }

    /// The tokens with those of `more` at the end.
    pub fn append(self, more: PackedTokens) -> Result<PackedTokens, AllocError>
        ensures { IfOk result (λ tokens. tokens ≡ self ++ more) }
    {
        let PackedTokens {
            mut columns,
            mut kinds,
            mut lens,
            taken,
            lens_taken,
        } = self;
        columns.extend_from_slice(behind(&more.columns, more.taken))?;
        kinds.extend_from_slice(behind(&more.kinds, more.taken))?;
        lens.extend_from_slice(behind(&more.lens, more.lens_taken))?;
        Ok(PackedTokens {
            columns,
            kinds,
            lens,
            taken,
            lens_taken,
        })
    }
}
