//! Worked command lines, from the rules of the grammar.

use line_core::{Job, LineFault, read_line};
use literals_core::Encoding;
use std::alloc::{AllocError, Global};
use std::test::Fail;

/// The words of a line.
fn words_of(alloc: Global, line: &str) -> Result<Vec<String>, AllocError> {
    let mut words = Vec::new(alloc);
    for word in line.split(' ') {
        if !word.is_empty() {
            words.push(String::from_str(alloc, word)?)?;
        }
    }
    Ok(words)
}

/// Whether a line is read as this job or this fault.
fn reads_as(
    alloc: Global,
    line: &str,
    want: Result<Job<'_>, LineFault>,
) -> Result<bool, AllocError> {
    let words = words_of(alloc, line)?;
    Ok(read_line(&words) == want)
}

#[test]
fn a_line_begins_with_a_command(rt: HostRuntime) -> Result<(), Fail> {
    let job = Job::Classify {
        problem: "P",
        model: "-",
        table: "-x",
    };
    for (line, want) in [
        ("classify P - -x", Ok(job)),
        ("", Err(LineFault::NoCommand(1))),
        ("Classify P M A", Err(LineFault::UnknownCommand(1))),
        ("rehearsal 1 2 3 4", Err(LineFault::UnknownCommand(1))),
        ("classify", Err(LineFault::Missing(2))),
        ("classify P M", Err(LineFault::Missing(4))),
        ("classify P M A B", Err(LineFault::Extra(5))),
        ("classify --x P", Err(LineFault::UnknownOption(2))),
        ("classify --encoding", Err(LineFault::UnknownOption(2))),
    ] {
        assert!(rt; reads_as(rt.alloc(), line, want)?, "{line}");
    }
    Ok(())
}

#[test]
fn words_after_a_command_give_its_job_or_their_first_fault(rt: HostRuntime) -> Result<(), Fail> {
    let learn = |encoding: Encoding, most: u64| Job::Learn {
        problem: "P",
        table: "A",
        encoding,
        most,
    };
    for (line, want) in [
        (
            "learn classification-model P A",
            Ok(learn(Encoding::Separation, 100_000)),
        ),
        (
            "learn classification-model --encoding coalitions P --max-conflicts=007 A",
            Ok(learn(Encoding::Coalitions, 7)),
        ),
        (
            "learn classification-model P A --max-conflicts 0",
            Err(LineFault::BadNumber(5)),
        ),
        (
            "learn classification-model P A --max-conflicts 1000001",
            Err(LineFault::BadNumber(5)),
        ),
        (
            "learn classification-model P A --random-seed 1",
            Err(LineFault::UnknownOption(5)),
        ),
        ("encode P A", Err(LineFault::Missing(4))),
        ("encode P A --encoding", Err(LineFault::Missing(4))),
        ("encode P --encoding=x A", Err(LineFault::BadWord(3))),
        (
            "encode P A --encoding=separation=",
            Err(LineFault::BadWord(4)),
        ),
        (
            "encode P --encoding separation --encoding x A",
            Err(LineFault::Twice(5)),
        ),
        (
            "encode P A --encoding --encoding",
            Err(LineFault::BadWord(4)),
        ),
        (
            "describe alternatives P A",
            Ok(Job::DescribeTable {
                problem: "P",
                table: "A",
            }),
        ),
        (
            "generate classification-problem 16 2 --random-seed 18446744073709551615",
            Ok(Job::GenerateProblem {
                criteria: 16,
                categories: 2,
                seed: 18_446_744_073_709_551_615,
            }),
        ),
        (
            "generate classification-problem 17 2 --random-seed 1",
            Err(LineFault::BadNumber(3)),
        ),
        (
            "generate classification-problem 1 +2 --random-seed 1",
            Err(LineFault::BadNumber(4)),
        ),
        (
            "generate classification-problem 1 2",
            Err(LineFault::Missing(5)),
        ),
        (
            "generate classification-problem 1 2 --random-seed 18446744073709551616",
            Err(LineFault::BadNumber(5)),
        ),
        (
            "generate classified-alternatives --random-seed=0 P M 100000",
            Ok(Job::GenerateTable {
                problem: "P",
                model: "M",
                rows: 100_000,
                seed: 0,
            }),
        ),
        (
            "rehearse 1 10 10000 0007",
            Ok(Job::Rehearse {
                criteria: 1,
                categories: 10,
                rows: 10_000,
                seed: 7,
            }),
        ),
        ("rehearse 1 2 3 4 5", Err(LineFault::Extra(6))),
    ] {
        assert!(rt; reads_as(rt.alloc(), line, want)?, "{line}");
    }
    Ok(())
}
