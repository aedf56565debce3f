//! The walk over the words of a command, from left to right: its first fault, or the values of its options.
ghost use Rattle.std.specs.Prelude.{◌≡◌, ◌+◌, ◌<◌, ◌≤◌, ◌^◌, length};
ghost use Rattle.line_core.specs.Texts.{texts};
ghost use Rattle.line_core.specs.Walk.{stored, option_step, position_step, step, ended, walk};

use crate::fault::LineFault;
use crate::options::{
    Offer, OptionName, OptionValues, all_given, is_given, is_offered, is_option, name_part,
    option_named, value_part, with_value,
};
use crate::position::{Kind, fits, kind_at};

/// The state of the walk after the words so far.
#[derive(Clone, Copy)]
pub(crate) struct Progress {
    /// How many positions are filled.
    pub(crate) filled: usize,
    /// The values of the options that are given.
    pub(crate) values: OptionValues,
    /// The option whose value is the next word.
    pub(crate) awaited: Option<OptionName>,
}

// The text is the value of this option, whose word has this number.
fn stored(
    progress: Progress,
    name: OptionName,
    number: u64,
    text: &str,
) -> Result<Progress, LineFault>
    ensures { result ≡ stored progress name number text.now }
{
    let values = with_value(progress.values, name, number, text)?;
    Ok(Progress {
        filled: progress.filled,
        values,
        awaited: None,
    })
}

fn option_step(
    offers: &[Offer],
    progress: Progress,
    number: u64,
    word: &str,
) -> Result<Progress, LineFault>
    ensures { result ≡ option_step offers.now progress number word.now }
{
    let Some(name) = option_named(name_part(word)) else {
        return Err(LineFault::UnknownOption(number));
    };
    if !is_offered(offers, name) {
        return Err(LineFault::UnknownOption(number));
    }
    if is_given(progress.values, name) {
        return Err(LineFault::Twice(number));
    }
    match value_part(word) {
        Some(value) => stored(progress, name, number, value),
        None => Ok(Progress {
            awaited: Some(name),
            ..progress
        }),
    }
}

fn position_step(
    kinds: &[Kind],
    progress: Progress,
    number: u64,
    word: &str,
) -> Result<Progress, LineFault>
    ensures { result ≡ position_step kinds.now progress number word.now }
{
    let Some(kind) = kind_at(kinds, progress.filled) else {
        return Err(LineFault::Extra(number));
    };
    if !fits(kind, word) {
        return Err(LineFault::BadNumber(number));
    }
    Ok(Progress {
        filled: progress.filled + 1,
        ..progress
    })
}

fn step(
    kinds: &[Kind],
    offers: &[Offer],
    progress: Progress,
    number: u64,
    word: &str,
) -> Result<Progress, LineFault>
    requires { 1 ≤ number }
    ensures { result ≡ step kinds.now offers.now progress number word.now }
{
    if let Some(name) = progress.awaited {
        return stored(progress, name, number - 1, word);
    }
    if is_option(word) {
        option_step(offers, progress, number, word)
    } else {
        position_step(kinds, progress, number, word)
    }
}

// What is missing at the end, of which the next word would have this number.
fn ended(
    kinds: &[Kind],
    offers: &[Offer],
    progress: Progress,
    number: u64,
) -> Result<OptionValues, LineFault>
    requires { 1 ≤ number }
    ensures { result ≡ ended kinds.now offers.now progress number }
{
    if progress.awaited.is_some() {
        return Err(LineFault::Missing(number - 1));
    }
    if progress.filled < kinds.len() || !all_given(offers, progress.values) {
        return Err(LineFault::Missing(number));
    }
    Ok(progress.values)
}

/// The values of the options, or the first fault of the words, of which the first has this number.
pub(crate) fn walk(
    kinds: &[Kind],
    offers: &[Offer],
    progress: Progress,
    number: u64,
    words: &[String],
) -> Result<OptionValues, LineFault>
    requires first { 1 ≤ number }
    requires within { number + length words.now < 2 ^ 64 }
    ensures { result ≡ walk kinds.now offers.now progress number (texts words.now) }
{
    let [word, more @ ..] = words else {
        return ended(kinds, offers, progress, number);
    };
    let next = step(kinds, offers, progress, number, word.as_str())?;
    walk(kinds, offers, next, number + 1, more)
}
