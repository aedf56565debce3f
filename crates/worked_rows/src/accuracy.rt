//! Worked rows of `classification-accuracy`.
use crate::session::{MODEL, PROBLEM, Want, runs, shelf};
use lincs_top::Status;
use std::alloc::Global;
use std::process::Abort;
use std::test::Fail;

/// Counts the examples of a table with these rows.
fn counts(rt: &impl Abort, alloc: Global, rows: &str, want: Want<'_>) -> Result<(), Fail> {
    let line = "classification-accuracy P.yml M.yml A.csv";
    let table = format!(in alloc; "name,Speed,category\n{rows}")?;
    let mut shelf = shelf(alloc, PROBLEM, MODEL, table.as_str())?;
    runs(rt, alloc, line, &mut shelf, want)
}

#[test]
fn examples_that_the_model_restores_are_counted(rt: HostRuntime) -> Result<(), Fail> {
    for (rows, want) in [
        (
            "a,3,Bad\nb,7,Good\nc,5,Good\nd,9,\n",
            (Status::Done, "2/3\n", ""),
        ),
        ("", (Status::Done, "0/0\n", "")),
        (
            "a,3,Bad\nb,11,\n",
            (Status::Refused, "", "lincs: A.csv: row 2: 2 at 0: 3\n"),
        ),
    ] {
        counts(&rt, rt.alloc(), rows, want)?;
    }
    Ok(())
}
