//! The options of the command line.
ghost use Rattle.std.specs.Prelude.{◌≡◌};
ghost use Rattle.std.specs.Option.{option_copied};
ghost use Rattle.line_core.specs.Options.{is_option, name_part, value_part, option_named, encoding_named, is_same};
ghost use Rattle.line_core.specs.Options.{is_offered, is_given, all_given, with_value};

use crate::fault::LineFault;
use crate::number::{Quantity, quantity_in};
use literals_core::Encoding;

/// An option.
#[derive(Clone, Copy)]
pub(crate) enum OptionName {
    Encoding,
    MaxConflicts,
    RandomSeed,
}

/// An option that a command has.
#[derive(Clone, Copy)]
pub(crate) struct Offer {
    pub(crate) name: OptionName,
    pub(crate) required: bool,
}

/// The values of the options that are given.
#[derive(Clone, Copy)]
pub(crate) struct OptionValues {
    pub(crate) encoding: Option<Encoding>,
    pub(crate) max_conflicts: Option<u64>,
    pub(crate) random_seed: Option<u64>,
}

/// Whether a word is an option: it begins with `--`.
pub(crate) fn is_option(word: &str) -> bool
    ensures { result ≡ is_option word.now }
{
    word.as_bytes().starts_with(b"--")
}

/// The part of an option before its first `=`, or all of it.
#[tactic(auto, using(std::proofs::lemmas::Str::Pattern::split_once_first))]
pub(crate) fn name_part(word: &str) -> &str
    ensures { result.now ≡ name_part word.now }
{
    match word.split_once('=') {
        Some((name, _)) => name,
        None => word,
    }
}

/// The part of an option after its first `=`, if it has one.
#[tactic(auto, using(std::proofs::lemmas::Str::Pattern::split_once_first))]
pub(crate) fn value_part(word: &str) -> Option<&str>
    ensures { option_copied result ≡ value_part word.now }
{
    match word.split_once('=') {
        Some((_, value)) => Some(value),
        None => None,
    }
}

/// The option of this name.
pub(crate) fn option_named(name: &str) -> Option<OptionName>
    ensures { result ≡ option_named name.now }
{
    if name == "--encoding" {
        return Some(OptionName::Encoding);
    }
    if name == "--max-conflicts" {
        return Some(OptionName::MaxConflicts);
    }
    if name == "--random-seed" {
        return Some(OptionName::RandomSeed);
    }
    None
}

// The encoding of this name.
fn encoding_named(name: &str) -> Option<Encoding>
    ensures { result ≡ encoding_named name.now }
{
    if name == "coalitions" {
        return Some(Encoding::Coalitions);
    }
    if name == "separation" {
        return Some(Encoding::Separation);
    }
    None
}

fn is_same(a: OptionName, b: OptionName) -> bool
    ensures { result ≡ is_same a b }
{
    match (a, b) {
        (OptionName::Encoding, OptionName::Encoding) => true,
        (OptionName::MaxConflicts, OptionName::MaxConflicts) => true,
        (OptionName::RandomSeed, OptionName::RandomSeed) => true,
        _ => false,
    }
}

/// Whether the option is one of these.
pub(crate) fn is_offered(offers: &[Offer], name: OptionName) -> bool
    ensures { result ≡ is_offered offers.now name }
{
    offers.iter().any(|offer| is_same(offer.name, name))
}

/// Whether the option is given.
pub(crate) fn is_given(values: OptionValues, name: OptionName) -> bool
    ensures { result ≡ is_given values name }
{
    match name {
        OptionName::Encoding => values.encoding.is_some(),
        OptionName::MaxConflicts => values.max_conflicts.is_some(),
        OptionName::RandomSeed => values.random_seed.is_some(),
    }
}

/// Whether each required option is given.
pub(crate) fn all_given(offers: &[Offer], values: OptionValues) -> bool
    ensures { result ≡ all_given offers.now values }
{
    offers
        .iter()
        .all(|offer| !offer.required || is_given(values, offer.name))
}

/// The values with that of one more option, whose word has this number, or the fault of its value.
pub(crate) fn with_value(
    values: OptionValues,
    name: OptionName,
    number: u64,
    text: &str,
) -> Result<OptionValues, LineFault>
    ensures { result ≡ with_value values name number text.now }
{
    match name {
        OptionName::Encoding => match encoding_named(text) {
            Some(encoding) => Ok(OptionValues {
                encoding: Some(encoding),
                ..values
            }),
            None => Err(LineFault::BadWord(number)),
        },
        OptionName::MaxConflicts => match quantity_in(Quantity::Conflicts, text) {
            Some(most) => Ok(OptionValues {
                max_conflicts: Some(most),
                ..values
            }),
            None => Err(LineFault::BadNumber(number)),
        },
        OptionName::RandomSeed => match quantity_in(Quantity::Seed, text) {
            Some(seed) => Ok(OptionValues {
                random_seed: Some(seed),
                ..values
            }),
            None => Err(LineFault::BadNumber(number)),
        },
    }
}
