//! Each refusal of a file by its cause, as a whole run with its error line.
ghost use Rattle.std.specs.Prelude.{◌≡◌, IfOk, vec_len};

use crate::session::{MODEL, PROBLEM, PROBLEM_OF_THREE, TABLE, ends_with, refuses, refuses_edit};
use lincs_top::Status;
use std::alloc::{AllocError, Global};
use std::process::Abort;
use std::test::Fail;

#[test]
fn each_fault_of_a_problem(rt: HostRuntime) -> Result<(), Fail> {
    for edit in [
        (PROBLEM, "- no map", "P.yml: problem 1"),
        (
            "kind: classification-problem",
            "kind: problem",
            "P.yml: problem 2",
        ),
        ("format_version: 1", "format_version: 2", "P.yml: problem 3"),
        ("criteria:", "criterions:", "P.yml: problem 4"),
        ("criteria:\n", "criteria: []\nothers:\n", "P.yml: problem 5"),
        ("- name: Speed", "- title: Speed", "P.yml: problem 6 at 0"),
        ("name: Speed", "name: category", "P.yml: problem 7 at 0"),
        ("integer", "whole", "P.yml: problem 8 at 0"),
        ("increasing", "single-peaked", "P.yml: problem 9 at 0"),
        ("max_value: 10", "max_value: -1", "P.yml: problem 10 at 0"),
        ("integer", "enumerated", "P.yml: problem 11 at 0"),
        ("ordered_categories:", "categories:", "P.yml: problem 12"),
        ("  - name: Good\n", "", "P.yml: problem 13"),
        ("name: Good", "name: Bad", "P.yml: problem 14 at 1"),
    ] {
        refuses_edit(&rt, rt.alloc(), "P.yml", PROBLEM, edit)?;
    }
    Ok(())
}

#[test]
fn each_fault_of_a_model(rt: HostRuntime) -> Result<(), Fail> {
    for edit in [
        (MODEL, "- no map", "M.yml: model 1"),
        (
            "kind: ncs-classification-model",
            "kind: model",
            "M.yml: model 2",
        ),
        ("format_version: 1", "format_version: 2", "M.yml: model 3"),
        ("accepted_values:", "values:", "M.yml: model 4"),
        ("kind: thresholds", "kind: marks", "M.yml: model 5 at 0"),
        ("[7]", "[7, 8]", "M.yml: model 6 at 0"),
        ("[7]", "[11]", "M.yml: model 7 at 0"),
        ("sufficient_coalitions:", "coalitions:", "M.yml: model 9"),
        ("kind: roots", "kind: root", "M.yml: model 10 at 1"),
        (
            "roots\n    upset_roots: [[0]]",
            "weights\n    criterion_weights: [-1]",
            "M.yml: model 11 at 1",
        ),
        ("[[0]]", "[[1]]", "M.yml: model 12 at 1"),
    ] {
        refuses_edit(&rt, rt.alloc(), "M.yml", MODEL, edit)?;
    }
    let worse = "kind: ncs-classification-model
format_version: 1
accepted_values:
  - kind: thresholds
    thresholds: [7, 3]
sufficient_coalitions: []
";
    ends_with(
        &rt,
        rt.alloc(),
        (PROBLEM_OF_THREE, worse, TABLE),
        (Status::Refused, "", "lincs: M.yml: model 8 at 0\n"),
    )
}

#[test]
fn each_fault_of_a_table(rt: HostRuntime) -> Result<(), Fail> {
    for (text, cause) in [
        ("", "A.csv: table 2"),
        ("Speed\n3\n", "A.csv: table 3 at 0"),
        ("name\na\n", "A.csv: table 3 at 1"),
        ("name,Speed,Mass\n", "A.csv: table 4 at 3"),
        ("name,Speed,name\n", "A.csv: table 5 at 3"),
    ] {
        refuses(&rt, rt.alloc(), "A.csv", text.as_bytes(), cause)?;
    }
    refuses(
        &rt,
        rt.alloc(),
        "A.csv",
        b"name,Speed\n\xff,3\n",
        "A.csv: table 1",
    )
}

/// Refuses a table whose rows after a good one are these.
fn refuses_rows(rt: &impl Abort, alloc: Global, rows: &str, cause: &str) -> Result<(), Fail> {
    let table = format!(in alloc; "name,Speed,category\na,3,\n{rows}")?;
    let line = format!(in alloc; "lincs: A.csv: {cause}\n")?;
    let files = (PROBLEM, MODEL, table.as_str());
    let sorted = "name,Speed,category\na,3,Bad\n";
    ends_with(rt, alloc, files, (Status::Refused, sorted, line.as_str()))
}

#[test]
fn each_fault_of_a_row(rt: HostRuntime) -> Result<(), Fail> {
    for (rows, cause) in [
        ("b\n", "row 2: 1"),
        ("b,1,,2\n", "row 2: 1"),
        ("b,x,\n", "row 2: 2 at 0: 1"),
        ("b,7.5,\n", "row 2: 2 at 0: 2"),
        ("b,11,\n", "row 2: 2 at 0: 3"),
        ("b,7,Ugly\n", "row 2: 3"),
    ] {
        refuses_rows(&rt, rt.alloc(), rows, cause)?;
    }
    Ok(())
}

#[test]
fn a_grade_that_is_no_name_of_its_scale(rt: HostRuntime) -> Result<(), Fail> {
    let problem = "kind: classification-problem
format_version: 1
criteria:
  - name: Mark
    value_type: enumerated
    ordered_values: [c, b, a]
ordered_categories:
  - name: Bad
  - name: Good
";
    let model = "kind: ncs-classification-model
format_version: 1
accepted_values:
  - kind: thresholds
    thresholds: [b]
sufficient_coalitions:
  - kind: roots
    upset_roots: [[0]]
";
    ends_with(
        &rt,
        rt.alloc(),
        (problem, model, "name,Mark\nx,b\ny,d\n"),
        (
            Status::Refused,
            "name,Mark,category\nx,b,Good\n",
            "lincs: A.csv: row 2: 2 at 0: 4\n",
        ),
    )
}

#[test]
fn each_fault_of_yaml(rt: HostRuntime) -> Result<(), Fail> {
    refuses(&rt, rt.alloc(), "P.yml", b"kind: \xff\n", "P.yml: yaml 1")?;
    refuses(&rt, rt.alloc(), "M.yml", b"a: [x\n", "M.yml: yaml 2")?;
    let twice = (
        "kind:",
        "kind: classification-problem\nkind:",
        "P.yml: yaml 2",
    );
    refuses_edit(&rt, rt.alloc(), "P.yml", PROBLEM, twice)?;
    // Six levels of 16 aliases each, the last of which stands for 16^6 nodes and more.
    let many = "l0: &l0 [x, x, x, x, x, x, x, x, x, x, x, x, x, x, x, x]
l1: &l1 [*l0, *l0, *l0, *l0, *l0, *l0, *l0, *l0, *l0, *l0, *l0, *l0, *l0, *l0, *l0, *l0]
l2: &l2 [*l1, *l1, *l1, *l1, *l1, *l1, *l1, *l1, *l1, *l1, *l1, *l1, *l1, *l1, *l1, *l1]
l3: &l3 [*l2, *l2, *l2, *l2, *l2, *l2, *l2, *l2, *l2, *l2, *l2, *l2, *l2, *l2, *l2, *l2]
l4: &l4 [*l3, *l3, *l3, *l3, *l3, *l3, *l3, *l3, *l3, *l3, *l3, *l3, *l3, *l3, *l3, *l3]
l5: &l5 [*l4, *l4, *l4, *l4, *l4, *l4, *l4, *l4, *l4, *l4, *l4, *l4, *l4, *l4, *l4, *l4]
";
    refuses(&rt, rt.alloc(), "P.yml", many.as_bytes(), "P.yml: yaml 3")
}

// So many bytes that are no UTF-8, so that what is read is refused at once.
fn filled(alloc: Global, count: usize) -> Result<Vec<u8>, AllocError>
    ensures { IfOk result (λ bytes. vec_len bytes ≡ count) }
{
    Vec::from_elem(alloc, 0xff, count)
}

#[test]
fn a_file_of_64_mib_is_read_and_one_byte_more_is_too_long(rt: HostRuntime) -> Result<(), Fail> {
    let bytes = filled(rt.alloc(), 67_108_865)?;
    refuses(&rt, rt.alloc(), "A.csv", &bytes[1..], "A.csv: table 1")?;
    refuses(&rt, rt.alloc(), "A.csv", &bytes, "A.csv: too long")
}
