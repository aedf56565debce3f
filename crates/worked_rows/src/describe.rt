//! Worked rows of the commands that describe.
use crate::session::{MODEL, PROBLEM, runs, shelf};
use lincs_top::Status;
use std::test::Fail;

#[test]
fn a_problem_a_model_and_a_table_are_described(rt: HostRuntime) -> Result<(), Fail> {
    let table = "name,Speed,category\na,3,Bad\nb,7,Good\nc,5,Good\nd,9,\n";
    for (line, text) in [
        (
            "describe problem P.yml",
            "problem: 1 criteria, 2 categories
criterion 0: \"Speed\", integer, increasing, from 0 to 10
category 0: \"Bad\"
category 1: \"Good\"
",
        ),
        (
            "describe model P.yml M.yml",
            "model: 1 criteria, 1 boundaries
criterion 0 boundary 1: at least 7
boundary 1: roots [[0]]
",
        ),
        (
            "describe alternatives P.yml A.csv",
            "alternatives: 4\nclassified: 3\ncategory 0: 1\ncategory 1: 2\n",
        ),
    ] {
        let mut shelf = shelf(rt.alloc(), PROBLEM, MODEL, table)?;
        runs(&rt, rt.alloc(), line, &mut shelf, (Status::Done, text, ""))?;
    }
    Ok(())
}

#[test]
fn a_table_with_a_refused_row_is_not_described(rt: HostRuntime) -> Result<(), Fail> {
    let mut shelf = shelf(rt.alloc(), PROBLEM, MODEL, "name,Speed\na,3\nb,11\n")?;
    let line = "describe alternatives P.yml A.csv";
    let want = (Status::Refused, "", "lincs: A.csv: row 2: 2 at 0: 3\n");
    runs(&rt, rt.alloc(), line, &mut shelf, want)
}
