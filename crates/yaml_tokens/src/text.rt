//! Texts that contracts see as their bytes.
ghost use Rattle.std.specs.Prelude.{◌≡◌, IfOk, string_bytes};

use std::alloc::{AllocError, Global};
use std::marker::Model;
use std::rc::RcStr;

/// A text, which contracts see as the list of its UTF-8 bytes. A clone is the same text.
#[derive(Clone, Debug, Drop)]
pub struct Text {
    held: Held,
}

/// How a text is held: alone, or in memory that counts who shares it.
#[derive(Clone, Debug, Drop)]
enum Held {
    Own(String),
    Shared(RcStr),
}

impl Model for Text {
    ghost use Rattle.std.specs.Prelude.{List, ℕ};
    ghost use Rattle.yaml_tokens.specs.Texts.{held_bytes};

    ghost Value = { List ℕ };

    ghost view = { λ t. held_bytes t.held };
}

impl Text {
    /// A copy of `text`.
    pub fn of(alloc: Global, text: &str) -> Result<Text, AllocError>
        ensures { IfOk result (λ t. t ≡ text.now) }
    {
        Ok(Text::from_string(String::from_str(alloc, text)?))
    }

    /// A string as a text.
    pub(crate) fn from_string(text: String) -> Text
        ensures { result ≡ string_bytes text }
    {
        Text {
            held: Held::Own(text),
        }
    }

    /// The same text again, which shares its memory with all that are made from it in turn. If this text came from
    /// `again` itself, no byte is copied; otherwise its bytes are copied once.
    pub fn again(&self, alloc: Global) -> Result<Text, AllocError>
        ensures { IfOk result (λ t. t ≡ self.now) }
    {
        let shared = match &self.held {
            Held::Own(text) => RcStr::from_str(alloc, text.as_str())?,
            Held::Shared(text) => text.clone()?,
        };
        Ok(Text {
            held: Held::Shared(shared),
        })
    }

    /// The text that was put in.
    pub fn as_str(&self) -> &str
        ensures { result.now ≡ self.now }
    {
        match &self.held {
            Held::Own(text) => text.as_str(),
            Held::Shared(text) => text.as_str(),
        }
    }
}
