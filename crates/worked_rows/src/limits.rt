//! Each limit of a problem, at the limit and one past it.
use crate::session::{MODEL, PROBLEM, TABLE, edited, ends_with, refuses_edit};
use lincs_top::Status;
use std::alloc::{AllocError, Global};
use std::process::Abort;
use std::test::Fail;

// A name of so many bytes.
fn long_name(alloc: Global, bytes: usize) -> Result<String, AllocError> {
    let mut name = String::new(alloc);
    for _ in 0..bytes {
        name.push('n')?;
    }
    Ok(name)
}

// The first lines of a list, and so many entries more.
fn with_entries(
    alloc: Global,
    first: &str,
    more: usize,
    entry: &str,
) -> Result<String, AllocError> {
    let mut list = String::from_str(alloc, first)?;
    for number in 0..more {
        let name = format!(in alloc; "  - name: N{number}\n{entry}")?;
        list.push_str(name.as_str())?;
    }
    Ok(list)
}

// That a problem is accepted shows in the refusal of the next file, which is made for another problem.
#[test]
fn a_problem_has_at_most_16_criteria_and_10_categories(rt: HostRuntime) -> Result<(), Fail> {
    let entry = "    value_type: real\n    preference_direction: decreasing\n";
    for (more, cause) in [(15, "M.yml: model 4"), (16, "P.yml: problem 5")] {
        let list = with_entries(rt.alloc(), "criteria:\n", more, entry)?;
        let edit = ("criteria:\n", list.as_str(), cause);
        refuses_edit(&rt, rt.alloc(), "P.yml", PROBLEM, edit)?;
    }
    for (more, cause) in [(8, "M.yml: model 6 at 0"), (9, "P.yml: problem 13")] {
        let list = with_entries(rt.alloc(), "ordered_categories:\n", more, "")?;
        let edit = ("ordered_categories:\n", list.as_str(), cause);
        refuses_edit(&rt, rt.alloc(), "P.yml", PROBLEM, edit)?;
    }
    Ok(())
}

/// Gives a criterion, and then a value of a scale, a name of so many bytes: each run is refused with its
/// cause.
fn refuses_long_name(
    rt: &impl Abort,
    alloc: Global,
    bytes: usize,
    criterion: &str,
    value: &str,
) -> Result<(), Fail> {
    let name = long_name(alloc, bytes)?;
    let named = ("Speed", name.as_str(), criterion);
    refuses_edit(rt, alloc, "P.yml", PROBLEM, named)?;
    let scale = format!(in alloc; "enumerated\n    ordered_values: [x, {name}]")?;
    let valued = ("integer", scale.as_str(), value);
    refuses_edit(rt, alloc, "P.yml", PROBLEM, valued)
}

/// Gives a category a name of so many bytes, which is written.
fn accepts_long_category(rt: &impl Abort, alloc: Global, bytes: usize) -> Result<(), Fail> {
    let name = long_name(alloc, bytes)?;
    let problem = edited(rt, alloc, PROBLEM, "Bad", name.as_str())?;
    let sorted = format!(in alloc; "name,Speed,category\na,3,{name}\nb,7,Good\n")?;
    let files = (problem.as_str(), MODEL, TABLE);
    ends_with(rt, alloc, files, (Status::Done, sorted.as_str(), ""))
}

#[test]
fn a_name_has_at_most_200_bytes(rt: HostRuntime) -> Result<(), Fail> {
    for (bytes, criterion, value) in [
        (200, "A.csv: table 3 at 1", "M.yml: model 7 at 0"),
        (201, "P.yml: problem 7 at 0", "P.yml: problem 11 at 0"),
    ] {
        refuses_long_name(&rt, rt.alloc(), bytes, criterion, value)?;
    }
    accepts_long_category(&rt, rt.alloc(), 200)?;
    let longer = long_name(rt.alloc(), 201)?;
    let named = ("Bad", longer.as_str(), "P.yml: problem 14 at 0");
    refuses_edit(&rt, rt.alloc(), "P.yml", PROBLEM, named)
}
