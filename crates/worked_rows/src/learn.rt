//! Worked rows of `learn`.
use crate::session::{
    MODEL, PROBLEM, PROBLEM_OF_THREE, PROBLEM_OF_TWO, end_of, output, output_to_file, runs, shelf,
};
use lincs_top::Status;
use std::alloc::{AllocError, Global};
use std::process::Abort;
use std::test::Fail;

const ENCODINGS: [&str; 2] = ["separation", "coalitions"];

/// The row that is at least as good on each criterion is in the worse category.
const BETTER_IS_BAD: &str = "name,U,V,category\ng,1,0,Good\nb,1,1,Bad\n";

/// The text of a learned model of one criterion.
fn learned(alloc: Global, thresholds: &str, coalitions: &str) -> Result<String, AllocError> {
    format!(in alloc;
        "kind: ncs-classification-model
format_version: 1
accepted_values:
  - kind: thresholds
    thresholds: {thresholds}
sufficient_coalitions:
  - &coalitions
    kind: roots
{coalitions}"
    )
}

/// Learns this model from a table by this encoding.
fn learns(
    rt: &impl Abort,
    alloc: Global,
    problem: &str,
    table: &str,
    encoding: &str,
    learned: &str,
) -> Result<(), Fail> {
    let line = format!(in alloc;
        "learn classification-model P.yml A.csv --encoding {encoding} --max-conflicts 1"
    )?;
    let mut shelf = shelf(alloc, problem, MODEL, table)?;
    let want = (Status::Done, learned, "");
    runs(rt, alloc, line.as_str(), &mut shelf, want)
}

#[test]
fn the_one_model_of_a_table_is_learned_by_either_encoding(rt: HostRuntime) -> Result<(), Fail> {
    for (problem, table, thresholds, coalitions) in [
        (
            PROBLEM,
            "name,Speed,category\na,3,Bad\nb,7,Good\n",
            "[7]",
            "    upset_roots:\n      - [0]\n",
        ),
        (
            PROBLEM,
            "name,Speed,category\n",
            "[null]",
            "    upset_roots: []\n",
        ),
        (
            PROBLEM_OF_THREE,
            "name,Speed,category\na,5,Mid\n",
            "[5, null]",
            "    upset_roots:\n      - [0]\n  - *coalitions\n",
        ),
    ] {
        let want = learned(rt.alloc(), thresholds, coalitions)?;
        for encoding in ENCODINGS {
            learns(&rt, rt.alloc(), problem, table, encoding, want.as_str())?;
        }
    }
    Ok(())
}

/// Learns from a table by this encoding, and runs a second command line over the file of what is written.
fn learns_for(
    rt: &impl Abort,
    alloc: Global,
    table: &str,
    encoding: &str,
    file: (&str, Status),
    second: (&str, &str),
) -> Result<(), Fail> {
    let line = format!(in alloc; "learn classification-model P.yml A.csv --encoding {encoding}")?;
    let mut shelf = shelf(alloc, PROBLEM_OF_TWO, MODEL, table)?;
    output_to_file(rt, alloc, line.as_str(), &mut shelf, file.1, file.0)?;
    runs(
        rt,
        alloc,
        second.0,
        &mut shelf,
        (Status::Done, second.1, ""),
    )
}

#[test]
fn a_learned_model_restores_every_example(rt: HostRuntime) -> Result<(), Fail> {
    let table = "name,U,V,category\na,0,0,Bad\nb,1,0,Bad\nc,1,1,Good\nd,0,1,Good\n";
    let second = ("classification-accuracy P.yml L.yml A.csv", "4/4\n");
    for encoding in ENCODINGS {
        let file = ("L.yml", Status::Done);
        learns_for(&rt, rt.alloc(), table, encoding, file, second)?;
    }
    Ok(())
}

#[test]
fn a_learned_refutation_is_accepted(rt: HostRuntime) -> Result<(), Fail> {
    let second = ("check-refutation P.yml A.csv R.txt", "accepted\n");
    for encoding in ENCODINGS {
        let file = ("R.txt", Status::No);
        learns_for(&rt, rt.alloc(), BETTER_IS_BAD, encoding, file, second)?;
    }
    Ok(())
}

/// The number of lines of a text.
fn lines(text: &[u8]) -> usize {
    text.iter().filter(|byte| **byte == b'\n').count()
}

// Unit propagation alone refutes nothing here, so that the first lemma reaches the limit.
#[test]
fn the_lemmas_at_the_limit_are_written(rt: HostRuntime) -> Result<(), Fail> {
    let mut shelf = shelf(rt.alloc(), PROBLEM_OF_TWO, MODEL, BETTER_IS_BAD)?;
    let line = "learn classification-model P.yml A.csv --max-conflicts 1";
    let ended = end_of(rt.alloc(), line, &mut shelf, 0, 0)?;
    let said = "lincs: limit of 1 reached\n".as_bytes();
    let out = ended.out.bytes();
    assert_eq!(rt;
        (ended.status, ended.err.bytes(), lines(out)),
        (Status::Limit, said, 2)
    );
    assert!(rt; out.starts_with(b"lincs-refutation 1 separation\n7 "));
    Ok(())
}

/// A problem of 13 criteria, and a table of no rows for it.
fn files_of_13_criteria(alloc: Global) -> Result<(String, String), AllocError> {
    let mut problem = String::from_str(
        alloc,
        "kind: classification-problem\nformat_version: 1\ncriteria:\n",
    )?;
    let mut table = String::from_str(alloc, "name")?;
    for i in 0..13 {
        let criterion = format!(in alloc;
            "  - name: Speed{i}
    value_type: integer
    preference_direction: increasing
    min_value: 0
    max_value: 10
"
        )?;
        problem.push_str(criterion.as_str())?;
        let column = format!(in alloc; ",Speed{i}")?;
        table.push_str(column.as_str())?;
    }
    problem.push_str("ordered_categories:\n  - name: Bad\n  - name: Good\n")?;
    table.push_str(",category\n")?;
    Ok((problem, table))
}

#[test]
fn coalitions_of_13_criteria_are_too_wide(rt: HostRuntime) -> Result<(), Fail> {
    let (problem, table) = files_of_13_criteria(rt.alloc())?;
    let mut shelf = shelf(rt.alloc(), problem.as_str(), MODEL, table.as_str())?;
    let line = "learn classification-model P.yml A.csv --encoding coalitions";
    let wide = "lincs: too wide: 13 criteria\n";
    runs(
        &rt,
        rt.alloc(),
        line,
        &mut shelf,
        (Status::TooLarge, "", wide),
    )?;
    let line = "learn classification-model P.yml A.csv --encoding separation";
    output(&rt, rt.alloc(), line, &mut shelf, Status::Done)?;
    Ok(())
}
