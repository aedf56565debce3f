//! The tokens of a line.
ghost use Rattle.std.specs.Prelude.{◌≡◌, IfOk};
ghost use Rattle.yaml_tokens.specs.Packed.{has_text, kind_of, text_in, token_of};

use crate::text::Text;
use std::alloc::{AllocError, Global};

/// A token of a line.
#[derive(Debug, Drop)]
pub enum Token {
    Dash,
    Colon,
    Open,
    Close,
    Comma,
    Plain(Text),
    Quoted(Text),
    Anchor(Text),
    Alias(Text),
}

/// What a token is, whatever its text.
#[derive(Clone, Copy, Debug, PartialEq, Eq)]
pub enum TokenKind {
    Dash,
    Colon,
    Open,
    Close,
    Comma,
    Plain,
    Quoted,
    Anchor,
    Alias,
}

/// A token, and where in its line it begins.
#[derive(Debug, Drop)]
pub struct Placed {
    pub column: usize,
    pub token: Token,
}

/// What comes before on the line: nothing, a scalar, or something else.
#[derive(Clone, Copy, Debug, PartialEq, Eq)]
pub enum Before {
    Nothing,
    Scalar,
    Other,
}

impl TokenKind {
    /// Whether a token of the kind has a text.
    pub(crate) fn has_text(self) -> bool
        ensures { result ≡ has_text self }
    {
        match self {
            TokenKind::Dash => false,
            TokenKind::Colon => false,
            TokenKind::Open => false,
            TokenKind::Close => false,
            TokenKind::Comma => false,
            TokenKind::Plain => true,
            TokenKind::Quoted => true,
            TokenKind::Anchor => true,
            TokenKind::Alias => true,
        }
    }
}

impl Token {
    /// What the token is.
    pub(crate) fn kind(&self) -> TokenKind
        ensures { result ≡ kind_of self.now }
    {
        match self {
            Token::Dash => TokenKind::Dash,
            Token::Colon => TokenKind::Colon,
            Token::Open => TokenKind::Open,
            Token::Close => TokenKind::Close,
            Token::Comma => TokenKind::Comma,
            Token::Plain(_) => TokenKind::Plain,
            Token::Quoted(_) => TokenKind::Quoted,
            Token::Anchor(_) => TokenKind::Anchor,
            Token::Alias(_) => TokenKind::Alias,
        }
    }

    /// The text of the token, which is empty if it has none.
    pub(crate) fn text(&self) -> &str
        ensures { result.now ≡ text_in self.now }
    {
        match self {
            Token::Plain(text) => text.as_str(),
            Token::Quoted(text) => text.as_str(),
            Token::Anchor(name) => name.as_str(),
            Token::Alias(name) => name.as_str(),
            _ => "",
        }
    }
}

/// The token of a kind with a text, which is left out if the kind has none.
pub(crate) fn token_of(alloc: Global, kind: TokenKind, text: &str) -> Result<Token, AllocError>
    ensures { IfOk result (λ token. token ≡ token_of kind text.now) }
{
    match kind {
        TokenKind::Dash => Ok(Token::Dash),
        TokenKind::Colon => Ok(Token::Colon),
        TokenKind::Open => Ok(Token::Open),
        TokenKind::Close => Ok(Token::Close),
        TokenKind::Comma => Ok(Token::Comma),
        TokenKind::Plain => Ok(Token::Plain(Text::of(alloc, text)?)),
        TokenKind::Quoted => Ok(Token::Quoted(Text::of(alloc, text)?)),
        TokenKind::Anchor => Ok(Token::Anchor(Text::of(alloc, text)?)),
        TokenKind::Alias => Ok(Token::Alias(Text::of(alloc, text)?)),
    }
}
