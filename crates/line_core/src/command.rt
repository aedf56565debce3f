//! The commands: their words, what their positions take, and their options. A further command is a further line in
//! each table.
ghost use Rattle.std.specs.Prelude.{◌≡◌};
ghost use Rattle.std.specs.Option.{option_copied};
ghost use Rattle.line_core.specs.Commands.{first_word, second_word, verbs, kinds_of, offers_of};

use crate::number::Quantity;
use crate::options::{Offer, OptionName};
use crate::position::Kind;
use literals_core::Encoding;

/// What a command line asks for: the names of files as they came, and the defaults of the options that
/// are not given. Files are named in the order in which they are read.
#[derive(Clone, Copy, Debug, PartialEq, Eq)]
pub enum Job<'a> {
    /// `classify PROBLEM MODEL TABLE`
    Classify {
        problem: &'a str,
        model: &'a str,
        table: &'a str,
    },
    /// `classification-accuracy PROBLEM MODEL TABLE`
    Accuracy {
        problem: &'a str,
        model: &'a str,
        table: &'a str,
    },
    /// `learn classification-model PROBLEM TABLE`, with at most `most` conflicts
    Learn {
        problem: &'a str,
        table: &'a str,
        encoding: Encoding,
        most: u64,
    },
    /// `encode PROBLEM TABLE --encoding ENCODING`
    Encode {
        problem: &'a str,
        table: &'a str,
        encoding: Encoding,
    },
    /// `check-refutation PROBLEM TABLE REFUTATION`
    CheckRefutation {
        problem: &'a str,
        table: &'a str,
        refutation: &'a str,
    },
    /// `describe problem PROBLEM`
    DescribeProblem {
        problem: &'a str,
    },
    /// `describe model PROBLEM MODEL`
    DescribeModel {
        problem: &'a str,
        model: &'a str,
    },
    /// `describe alternatives PROBLEM TABLE`
    DescribeTable {
        problem: &'a str,
        table: &'a str,
    },
    /// `generate classification-problem CRITERIA CATEGORIES --random-seed SEED`
    GenerateProblem {
        criteria: u32,
        categories: u32,
        seed: u64,
    },
    /// `generate classification-model PROBLEM --random-seed SEED`
    GenerateModel {
        problem: &'a str,
        seed: u64,
    },
    /// `generate classified-alternatives PROBLEM MODEL ROWS --random-seed SEED`
    GenerateTable {
        problem: &'a str,
        model: &'a str,
        rows: u32,
        seed: u64,
    },
    /// `rehearse CRITERIA CATEGORIES ROWS SEED`
    Rehearse {
        criteria: u32,
        categories: u32,
        rows: u32,
        seed: u64,
    },
}

/// A command without its files and options.
#[derive(Clone, Copy)]
pub(crate) enum Verb {
    Classify,
    Accuracy,
    Learn,
    Encode,
    CheckRefutation,
    DescribeProblem,
    DescribeModel,
    DescribeTable,
    GenerateProblem,
    GenerateModel,
    GenerateTable,
    Rehearse,
}

/// All commands.
pub(crate) fn verbs() -> &'static [Verb]
    ensures { result.now ≡ verbs }
{
    &[
        Verb::Classify,
        Verb::Accuracy,
        Verb::Learn,
        Verb::Encode,
        Verb::CheckRefutation,
        Verb::DescribeProblem,
        Verb::DescribeModel,
        Verb::DescribeTable,
        Verb::GenerateProblem,
        Verb::GenerateModel,
        Verb::GenerateTable,
        Verb::Rehearse,
    ]
}

/// The word that a command begins with.
pub(crate) fn first_word(verb: Verb) -> &'static str
    ensures { result.now ≡ first_word verb }
{
    match verb {
        Verb::Classify => "classify",
        Verb::Accuracy => "classification-accuracy",
        Verb::Learn => "learn",
        Verb::Encode => "encode",
        Verb::CheckRefutation => "check-refutation",
        Verb::DescribeProblem => "describe",
        Verb::DescribeModel => "describe",
        Verb::DescribeTable => "describe",
        Verb::GenerateProblem => "generate",
        Verb::GenerateModel => "generate",
        Verb::GenerateTable => "generate",
        Verb::Rehearse => "rehearse",
    }
}

/// The second word of a command of two words.
pub(crate) fn second_word(verb: Verb) -> Option<&'static str>
    ensures { option_copied result ≡ second_word verb }
{
    match verb {
        Verb::Learn => Some("classification-model"),
        Verb::DescribeProblem => Some("problem"),
        Verb::DescribeModel => Some("model"),
        Verb::DescribeTable => Some("alternatives"),
        Verb::GenerateProblem => Some("classification-problem"),
        Verb::GenerateModel => Some("classification-model"),
        Verb::GenerateTable => Some("classified-alternatives"),
        _ => None,
    }
}

/// What the positions of a command take, in order.
pub(crate) fn kinds_of(verb: Verb) -> &'static [Kind]
    ensures { result.now ≡ kinds_of verb }
{
    match verb {
        Verb::Classify => &[Kind::File, Kind::File, Kind::File],
        Verb::Accuracy => &[Kind::File, Kind::File, Kind::File],
        Verb::Learn => &[Kind::File, Kind::File],
        Verb::Encode => &[Kind::File, Kind::File],
        Verb::CheckRefutation => &[Kind::File, Kind::File, Kind::File],
        Verb::DescribeProblem => &[Kind::File],
        Verb::DescribeModel => &[Kind::File, Kind::File],
        Verb::DescribeTable => &[Kind::File, Kind::File],
        Verb::GenerateProblem => {
            &[
                Kind::Number(Quantity::Criteria),
                Kind::Number(Quantity::Categories),
            ]
        }
        Verb::GenerateModel => &[Kind::File],
        Verb::GenerateTable => &[Kind::File, Kind::File, Kind::Number(Quantity::TableRows)],
        Verb::Rehearse => &[
            Kind::Number(Quantity::Criteria),
            Kind::Number(Quantity::Categories),
            Kind::Number(Quantity::RehearsalRows),
            Kind::Number(Quantity::Seed),
        ],
    }
}

/// The options of a command, and whether each is required.
pub(crate) fn offers_of(verb: Verb) -> &'static [Offer]
    ensures { result.now ≡ offers_of verb }
{
    match verb {
        Verb::Learn => &[
            Offer {
                name: OptionName::Encoding,
                required: false,
            },
            Offer {
                name: OptionName::MaxConflicts,
                required: false,
            },
        ],
        Verb::Encode => &[Offer {
            name: OptionName::Encoding,
            required: true,
        }],
        Verb::GenerateProblem | Verb::GenerateModel | Verb::GenerateTable => {
            &[Offer {
                name: OptionName::RandomSeed,
                required: true,
            }]
        }
        _ => &[],
    }
}
