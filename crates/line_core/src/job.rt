//! The job of a command line.
ghost use Rattle.std.specs.Prelude.{◌≡◌, ◌≤◌, ◌+◌, ◌<◌, ◌^◌, ℕ, List, length, Ok};
ghost use Rattle.std.specs.Option.{option_copied};
ghost use Rattle.line_core.specs.Texts.{texts};
ghost use Rattle.line_core.specs.Command.{Command, command_of, read_as, HasItsRanges};
ghost use Rattle.line_core.specs.Line.{follows, begins, verb_in, begins_some, command_from, rest_gives, after_first};
ghost use Rattle.line_core.specs.Line.{line_gives};

use crate::command::{Job, Verb, first_word, kinds_of, offers_of, second_word, verbs};
use crate::fault::LineFault;
use crate::number::Quantity;
use crate::options::OptionValues;
use crate::position::{count_at, number_at, position};
use crate::walk::{Progress, walk};
use literals_core::Encoding;

// Whether the words begin with the second word of a command, if it has one.
fn follows(second: Option<&str>, words: &[String]) -> bool
    ensures { result ≡ follows (option_copied second.entry) (texts words.now) }
{
    match (second, words) {
        (None, _) => true,
        (Some(second), [word, ..]) => word.as_str() == second,
        (Some(_), []) => false,
    }
}

// Whether the words begin with those of a command.
fn begins(verb: Verb, words: &[String]) -> bool
    ensures { result ≡ begins verb (texts words.now) }
{
    let [first, more @ ..] = words else {
        return false;
    };
    first.as_str() == first_word(verb) && follows(second_word(verb), more)
}

// The command whose words these begin with.
fn verb_in(verbs: &[Verb], words: &[String]) -> Option<Verb>
    ensures { result ≡ verb_in verbs.now (texts words.now) }
{
    verbs.iter().copied().find(|verb| begins(*verb, words))
}

// Whether some command begins with this word.
fn begins_some(verbs: &[Verb], word: &str) -> bool
    ensures { result ≡ begins_some verbs.now word.now }
{
    verbs.iter().any(|verb| first_word(*verb) == word)
}

// The job of a command whose words have no fault, from the words after its own.
fn job_from(verb: Verb, values: OptionValues, words: &[String]) -> Job<'_>
    ensures { command_of result ≡ command_from verb values (texts words.now) }
{
    match verb {
        Verb::Classify => Job::Classify {
            problem: position(words, false, 0),
            model: position(words, false, 1),
            table: position(words, false, 2),
        },
        Verb::Accuracy => Job::Accuracy {
            problem: position(words, false, 0),
            model: position(words, false, 1),
            table: position(words, false, 2),
        },
        Verb::Learn => Job::Learn {
            problem: position(words, false, 0),
            table: position(words, false, 1),
            encoding: values.encoding.unwrap_or(Encoding::Separation),
            most: values.max_conflicts.unwrap_or(100_000),
        },
        Verb::Encode => Job::Encode {
            problem: position(words, false, 0),
            table: position(words, false, 1),
            encoding: values.encoding.unwrap_or(Encoding::Separation),
        },
        Verb::CheckRefutation => Job::CheckRefutation {
            problem: position(words, false, 0),
            table: position(words, false, 1),
            refutation: position(words, false, 2),
        },
        Verb::DescribeProblem => Job::DescribeProblem {
            problem: position(words, false, 0),
        },
        Verb::DescribeModel => Job::DescribeModel {
            problem: position(words, false, 0),
            model: position(words, false, 1),
        },
        Verb::DescribeTable => Job::DescribeTable {
            problem: position(words, false, 0),
            table: position(words, false, 1),
        },
        Verb::GenerateProblem => Job::GenerateProblem {
            criteria: count_at(Quantity::Criteria, words, 0),
            categories: count_at(Quantity::Categories, words, 1),
            seed: values.random_seed.unwrap_or(0),
        },
        Verb::GenerateModel => Job::GenerateModel {
            problem: position(words, false, 0),
            seed: values.random_seed.unwrap_or(0),
        },
        Verb::GenerateTable => Job::GenerateTable {
            problem: position(words, false, 0),
            model: position(words, false, 1),
            rows: count_at(Quantity::TableRows, words, 2),
            seed: values.random_seed.unwrap_or(0),
        },
        Verb::Rehearse => Job::Rehearse {
            criteria: count_at(Quantity::Criteria, words, 0),
            categories: count_at(Quantity::Categories, words, 1),
            rows: count_at(Quantity::RehearsalRows, words, 2),
            seed: number_at(Quantity::Seed, words, 3),
        },
    }
}

/// The job of a command, from the words after its own, of which the first has this number.
pub(crate) fn read_rest(verb: Verb, number: u64, words: &[String]) -> Result<Job<'_>, LineFault>
    requires first { 1 ≤ number }
    requires within { number + length words.now < 2 ^ 64 }
    ensures { read_as result ≡ rest_gives verb number (texts words.now) }
{
    let progress = Progress {
        filled: 0,
        values: OptionValues {
            encoding: None,
            max_conflicts: None,
            random_seed: None,
        },
        awaited: None,
    };
    match walk(kinds_of(verb), offers_of(verb), progress, number, words) {
        Ok(values) => Ok(job_from(verb, values, words)),
        Err(fault) => Err(fault),
    }
}

// The job of a command, from the words after the first.
fn read_command(verb: Verb, more: &[String]) -> Result<Job<'_>, LineFault>
    requires { 3 + length more.now < 2 ^ 64 }
    ensures { read_as result ≡ after_first verb (texts more.now) }
{
    if second_word(verb).is_none() {
        return read_rest(verb, 2, more);
    }
    match more {
        [_, rest @ ..] => read_rest(verb, 3, rest),
        [] => Err(LineFault::UnknownCommand(2)),
    }
}

/// The job of the words after the program's name, or their first fault from left to right. It takes no
/// memory. Options may be anywhere between the positions, with their value after `=` or as the next
/// word.
pub fn read_line(words: &[String]) -> Result<Job<'_>, LineFault>
    ensures { read_as result ≡ line_gives (texts words.now) }
{
    let [first, more @ ..] = words else {
        return Err(LineFault::NoCommand(1));
    };
    match verb_in(verbs(), words) {
        Some(verb) => read_command(verb, more),
        None if begins_some(verbs(), first.as_str()) => Err(LineFault::UnknownCommand(2)),
        None => Err(LineFault::UnknownCommand(1)),
    }
}

/// A law, with no code: the numbers of a job are within the ranges of its command.
pub fn numbers_of_a_job_are_in_their_ranges()
    ensures { (words : List (List ℕ)) (command : Command) → line_gives words ≡ Ok command → HasItsRanges command }
{}
