//! Worked rows of `generate` and `rehearse`.
use crate::session::{output, output_to_file, runs};
use edge_core::MemShelf;
use lincs_top::Status;
use std::test::Fail;

/// One criterion that takes one value only.
const PROBLEM_OF_ONE_VALUE: &str = "kind: classification-problem
format_version: 1
criteria:
  - name: Speed
    value_type: integer
    preference_direction: increasing
    min_value: 5
    max_value: 5
ordered_categories:
  - name: Bad
  - name: Good
";

const MODEL_OF_ONE_VALUE: &str = "kind: ncs-classification-model
format_version: 1
accepted_values:
  - kind: thresholds
    thresholds: [5]
sufficient_coalitions:
  - &coalitions
    kind: roots
    upset_roots:
      - [0]
";

#[test]
fn drawn_rows_of_a_single_value_are_known_for_any_seed(rt: HostRuntime) -> Result<(), Fail> {
    for seed in ["0", "9", "18446744073709551615"] {
        let mut shelf = MemShelf::new(rt.alloc());
        shelf.add("P.yml", PROBLEM_OF_ONE_VALUE.as_bytes())?;
        shelf.add("M.yml", MODEL_OF_ONE_VALUE.as_bytes())?;
        let line = format!(in rt.alloc();
            "generate classified-alternatives P.yml M.yml 2 --random-seed {seed}"
        )?;
        let table = "name,Speed,category\nAlternative 1,5,Good\nAlternative 2,5,Good\n";
        runs(
            &rt,
            rt.alloc(),
            line.as_str(),
            &mut shelf,
            (Status::Done, table, ""),
        )?;
    }
    Ok(())
}

// Each text that is drawn is read by the next command.
#[test]
fn a_drawn_model_restores_the_table_that_it_sorts(rt: HostRuntime) -> Result<(), Fail> {
    let mut shelf = MemShelf::new(rt.alloc());
    let line = "generate classification-problem 16 10 --random-seed 7";
    output_to_file(&rt, rt.alloc(), line, &mut shelf, Status::Done, "P.yml")?;
    let line = "generate classification-model P.yml --random-seed 8";
    output_to_file(&rt, rt.alloc(), line, &mut shelf, Status::Done, "M.yml")?;
    let line = "generate classified-alternatives P.yml M.yml 100 --random-seed 9";
    let table = output_to_file(&rt, rt.alloc(), line, &mut shelf, Status::Done, "A.csv")?;
    let line = "classification-accuracy P.yml M.yml A.csv";
    runs(
        &rt,
        rt.alloc(),
        line,
        &mut shelf,
        (Status::Done, "100/100\n", ""),
    )?;
    let sorted = output(
        &rt,
        rt.alloc(),
        "classify P.yml M.yml A.csv",
        &mut shelf,
        Status::Done,
    )?;
    assert!(rt; sorted.bytes() == table.bytes(), "sorting changes nothing");
    Ok(())
}

#[test]
fn a_rehearsal_without_rows_has_the_one_model(rt: HostRuntime) -> Result<(), Fail> {
    let mut shelf = MemShelf::new(rt.alloc());
    let summary = "criteria 1
categories 2
rows 0
variables 0
clauses 0
restored 0/0
kind: ncs-classification-model
format_version: 1
accepted_values:
  - kind: thresholds
    thresholds: [null]
sufficient_coalitions:
  - &coalitions
    kind: roots
    upset_roots: []
";
    let want = (Status::Done, summary, "");
    runs(&rt, rt.alloc(), "rehearse 1 2 0 5", &mut shelf, want)
}

#[test]
fn a_rehearsal_restores_every_row(rt: HostRuntime) -> Result<(), Fail> {
    for (line, begin) in [
        (
            "rehearse 4 3 20 41",
            "criteria 4\ncategories 3\nrows 20\nvariables 828\nclauses 1738\nrestored 20/20\n",
        ),
        (
            "rehearse 4 3 200 41",
            "criteria 4\ncategories 3\nrows 200\nvariables 69458\nclauses 155329\nrestored 200/200\n",
        ),
    ] {
        let mut shelf = MemShelf::new(rt.alloc());
        let summary = output(&rt, rt.alloc(), line, &mut shelf, Status::Done)?;
        assert!(rt; summary.bytes().starts_with(begin.as_bytes()), "{line}");
    }
    Ok(())
}
