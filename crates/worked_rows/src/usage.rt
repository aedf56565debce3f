//! Command lines that are no job, as whole runs with their error lines.
use crate::session::{MODEL, PROBLEM, TABLE, runs, shelf};
use lincs_top::Status;
use std::test::Fail;

#[test]
fn a_line_that_is_no_job_opens_no_file_and_names_its_word(rt: HostRuntime) -> Result<(), Fail> {
    for (line, cause) in [
        ("", "lincs: usage 1 at word 1\n"),
        ("sort P.yml", "lincs: usage 2 at word 1\n"),
        ("describe P.yml", "lincs: usage 2 at word 2\n"),
        ("generate 1 2", "lincs: usage 2 at word 2\n"),
        (
            "learn classification-model P.yml A.csv --max-conflicts 0",
            "lincs: usage 7 at word 5\n",
        ),
        ("classify P.yml M.yml", "lincs: usage 3 at word 4\n"),
        (
            "classify P.yml M.yml A.csv B.csv",
            "lincs: usage 4 at word 5\n",
        ),
        ("classify P.yml --fast M.yml", "lincs: usage 5 at word 3\n"),
    ] {
        let mut shelf = shelf(rt.alloc(), PROBLEM, MODEL, TABLE)?;
        runs(
            &rt,
            rt.alloc(),
            line,
            &mut shelf,
            (Status::Usage, "", cause),
        )?;
    }
    Ok(())
}
