//! The tokens of each line of a YAML text, and texts in double quotes.
#![tactic(auto)]

mod bytes;
mod fault;
mod lexer;
mod line;
mod lines;
mod name;
mod packed;
mod plain;
mod quoted;
mod text;
mod token;
mod written;

pub use fault::TokenFault;
pub use line::Line;
pub use lines::{Reached, next_tokens, without_mark};
pub use text::Text;
pub use token::{Placed, Token, TokenKind};
pub use written::{put_quoted, quoted_text_reads_back};
