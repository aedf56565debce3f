//! The positions of the command line: the words that are no options, nor values of options.
ghost use Rattle.std.specs.Prelude.{◌≡◌, ◌<◌, ◌^◌, slice_get};
ghost use Rattle.line_core.specs.Number.{most_of};
ghost use Rattle.line_core.specs.Position.{fits, position, number_at};
ghost use Rattle.line_core.specs.Texts.{texts};

use crate::number::{Quantity, quantity_in};
use crate::options::{is_option, value_part};

/// What the word at a position has to be.
#[derive(Clone, Copy)]
pub(crate) enum Kind {
    /// The name of a file: any word.
    File,
    /// A number in the range of this quantity.
    Number(Quantity),
}

/// The kind at this place of the positions, from 0, if there is one.
pub(crate) fn kind_at(kinds: &[Kind], place: usize) -> Option<Kind>
    ensures { result ≡ slice_get kinds.now place }
{
    kinds.get(place).copied()
}

/// Whether the word is of this kind.
pub(crate) fn fits(kind: Kind, word: &str) -> bool
    ensures { result ≡ fits kind word.now }
{
    match kind {
        Kind::File => true,
        Kind::Number(quantity) => quantity_in(quantity, word).is_some(),
    }
}

/// The word at this place of the positions, from 0, or an empty text. The first of `words` may be the
/// value of an option.
pub(crate) fn position(words: &[String], is_value: bool, place: usize) -> &str
    ensures { result.now ≡ position (texts words.now) is_value place }
{
    let [word, more @ ..] = words else {
        return "";
    };
    if is_value {
        return position(more, false, place);
    }
    if is_option(word.as_str()) {
        return position(more, value_part(word.as_str()).is_none(), place);
    }
    if place == 0 {
        return word.as_str();
    }
    position(more, false, place - 1)
}

/// The number at this place of the positions, or 0.
pub(crate) fn number_at(quantity: Quantity, words: &[String], place: usize) -> u64
    ensures { result ≡ number_at quantity (texts words.now) place }
{
    quantity_in(quantity, position(words, false, place)).unwrap_or(0)
}

/// The same of a quantity that 32 bits can hold.
pub(crate) fn count_at(quantity: Quantity, words: &[String], place: usize) -> u32
    requires { most_of quantity < 2 ^ 32 }
    ensures { result ≡ number_at quantity (texts words.now) place }
{
    number_at(quantity, words, place) as u32
}
