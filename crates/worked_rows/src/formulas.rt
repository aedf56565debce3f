//! Worked rows of `encode` and `check-refutation`.
use crate::session::{MODEL, PROBLEM, PROBLEM_OF_THREE, PROBLEM_OF_TWO, Want, runs, shelf};
use lincs_top::Status;
use std::alloc::Global;
use std::process::Abort;
use std::test::Fail;

/// The worse of two rows is in the better category.
const WORSE_IS_GOOD: &str = "name,Speed,category\ng,3,Good\nb,7,Bad\n";

/// Two rows with the same grade in two categories.
const SAME_GRADE: &str = "name,Speed,category\na,5,Bad\nb,5,Good\n";

/// Writes the formula of a table by this encoding.
fn encodes(
    rt: &impl Abort,
    alloc: Global,
    problem: &str,
    table: &str,
    encoding: &str,
    formula: &str,
) -> Result<(), Fail> {
    let mut shelf = shelf(alloc, problem, MODEL, table)?;
    let line = format!(in alloc; "encode P.yml A.csv --encoding {encoding}")?;
    let want = (Status::Done, formula, "");
    runs(rt, alloc, line.as_str(), &mut shelf, want)
}

#[test]
fn the_formula_of_examples_is_written(rt: HostRuntime) -> Result<(), Fail> {
    for (problem, table, encoding, formula) in [
        (
            PROBLEM,
            WORSE_IS_GOOD,
            "separation",
            "p cnf 3 4\n-1 2 0\n-3 1 0\n-3 -2 0\n3 0\n",
        ),
        (
            PROBLEM,
            SAME_GRADE,
            "separation",
            "p cnf 2 3\n-2 1 0\n-2 -1 0\n2 0\n",
        ),
        (
            PROBLEM,
            "name,Speed,category\na,3,Bad\nb,7,Good\n",
            "coalitions",
            "p cnf 4 6\n-1 2 0\n-3 4 0\n-3 0\n-1 -4 0\n4 0\n2 3 0\n",
        ),
        (
            PROBLEM_OF_TWO,
            "name,U,V,category\ng,1,0,Good\nb,1,1,Bad\n",
            "separation",
            "p cnf 5 6\n-2 3 0\n-4 1 0\n-4 -1 0\n-5 2 0\n-5 -3 0\n4 5 0\n",
        ),
        (
            PROBLEM_OF_THREE,
            "name,Speed,category\na,5,Mid\n",
            "separation",
            "p cnf 3 4\n-2 1 0\n-3 1 0\n-3 -2 0\n3 0\n",
        ),
    ] {
        encodes(&rt, rt.alloc(), problem, table, encoding, formula)?;
    }
    Ok(())
}

#[test]
fn a_formula_that_is_too_large_is_named_by_its_literals(rt: HostRuntime) -> Result<(), Fail> {
    let mut table = String::from_str(rt.alloc(), "name,Speed,category\n")?;
    for _ in 0..2_591 {
        table.push_str("g,5,Good\nb,5,Bad\n")?;
    }
    let mut shelf = shelf(rt.alloc(), PROBLEM, MODEL, table.as_str())?;
    let large = "lincs: too large: 33566405 literals\n";
    let line = "encode P.yml A.csv --encoding separation";
    runs(
        &rt,
        rt.alloc(),
        line,
        &mut shelf,
        (Status::TooLarge, "", large),
    )
}

/// Judges a refutation of the formula of this table, from the text after its first word.
fn judges(
    rt: &impl Abort,
    alloc: Global,
    table: &str,
    log: &str,
    want: Want<'_>,
) -> Result<(), Fail> {
    let text = format!(in alloc; "lincs-refutation {log}")?;
    let mut shelf = shelf(alloc, PROBLEM, MODEL, table)?;
    shelf.add("R.txt", text.as_bytes())?;
    let line = "check-refutation P.yml A.csv R.txt";
    runs(rt, alloc, line, &mut shelf, want)
}

/// Judges a refutation with this second line. The error line of a rejection begins with its words.
fn judges_second_line(
    rt: &impl Abort,
    alloc: Global,
    second: &str,
    want: Want<'_>,
) -> Result<(), Fail> {
    let (status, out, cause) = want;
    let log = format!(in alloc; "1 separation\n{second}")?;
    let cause = match status {
        Status::No => format!(in alloc; "lincs: refutation rejected: {cause}")?,
        _ => String::from_str(alloc, cause)?,
    };
    let want = (status, out, cause.as_str());
    judges(rt, alloc, SAME_GRADE, log.as_str(), want)
}

// The second line of a refutation of the formula of the same grade in two categories.
#[test]
fn each_second_line_is_judged_by_its_first_fault(rt: HostRuntime) -> Result<(), Fail> {
    let refused = "lincs: R.txt: log 2 at line 2\n";
    for (second, status, out, cause) in [
        ("4 0 3 1 2 0\n", Status::Done, "accepted\n", ""),
        ("4 0 1 3 1 2 0\n", Status::No, "", "4 at line 2\n"),
        ("5 0 3 1 2 0\n", Status::No, "", "1 at line 2\n"),
        ("4 3 0 3 0\n", Status::No, "", "2 at line 2\n"),
        ("4 0 4 0\n", Status::No, "", "3 at line 2\n"),
        ("4 0 3 1 0\n", Status::No, "", "4 at line 2\n"),
        ("4 0 4294967295 0\n", Status::No, "", "3 at line 2\n"),
        ("4 2147483647 0 3 0\n", Status::No, "", "2 at line 2\n"),
        ("", Status::No, "", "5\n"),
        ("4 0 4294967296 0\n", Status::Refused, "", refused),
        ("4 2147483648 0 3 0\n", Status::Refused, "", refused),
        ("4 0 3 1 2 0", Status::Refused, "", refused),
        ("4 0 3 1 2\n", Status::Refused, "", refused),
    ] {
        judges_second_line(&rt, rt.alloc(), second, (status, out, cause))?;
    }
    Ok(())
}

#[test]
fn a_refutation_is_accepted_rejected_or_refused(rt: HostRuntime) -> Result<(), Fail> {
    for (log, want) in [
        (
            "1 separation\n5 0 4 2 1 3 0\n",
            (Status::Done, "accepted\n", ""),
        ),
        (
            "1 coalitions\n5 0 4 2 1 3 0\n",
            (Status::No, "", "lincs: refutation rejected: 1 at line 2\n"),
        ),
        (
            "1 separation\n",
            (Status::No, "", "lincs: refutation rejected: 5\n"),
        ),
        (
            "2 separation\n",
            (Status::Refused, "", "lincs: R.txt: log 1\n"),
        ),
        (
            "1 separation\n5 0 4\n",
            (Status::Refused, "", "lincs: R.txt: log 2 at line 2\n"),
        ),
    ] {
        judges(&rt, rt.alloc(), WORSE_IS_GOOD, log, want)?;
    }
    Ok(())
}
