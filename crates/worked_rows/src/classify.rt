//! Worked rows of `classify`.
use crate::session::{MODEL, PROBLEM, PROBLEM_OF_THREE, edited, ends_with, model};
use lincs_top::Status;
use std::alloc::{AllocError, Global};
use std::process::Abort;
use std::test::Fail;

#[test]
fn a_tie_at_the_threshold_is_accepted(rt: HostRuntime) -> Result<(), Fail> {
    let want = "name,Speed,category\na,3,Bad\nb,7,Good\n";
    ends_with(
        &rt,
        rt.alloc(),
        (PROBLEM, MODEL, "name,Speed\na,3\nb,7\n"),
        (Status::Done, want, ""),
    )
}

#[test]
fn a_header_alone_is_a_table_and_an_empty_file_is_not(rt: HostRuntime) -> Result<(), Fail> {
    let want = "name,Speed,category\n";
    ends_with(
        &rt,
        rt.alloc(),
        (PROBLEM, MODEL, "name,Speed\n"),
        (Status::Done, want, ""),
    )?;
    ends_with(
        &rt,
        rt.alloc(),
        (PROBLEM, MODEL, ""),
        (Status::Refused, "", "lincs: A.csv: table 2\n"),
    )
}

#[test]
fn no_root_accepts_nothing_and_an_empty_root_everything(rt: HostRuntime) -> Result<(), Fail> {
    let none = model(rt.alloc(), "[7]", "  - kind: roots\n    upset_roots: []\n")?;
    let all = model(
        rt.alloc(),
        "[7]",
        "  - kind: roots\n    upset_roots: [[]]\n",
    )?;
    let table = "name,Speed\na,3\nb,7\n";
    ends_with(
        &rt,
        rt.alloc(),
        (PROBLEM, &none, table),
        (Status::Done, "name,Speed,category\na,3,Bad\nb,7,Bad\n", ""),
    )?;
    ends_with(
        &rt,
        rt.alloc(),
        (PROBLEM, &all, table),
        (
            Status::Done,
            "name,Speed,category\na,3,Good\nb,7,Good\n",
            "",
        ),
    )
}

#[test]
fn rows_before_a_refused_one_go_out(rt: HostRuntime) -> Result<(), Fail> {
    let want = "name,Speed,category\na,3,Bad\n";
    ends_with(
        &rt,
        rt.alloc(),
        (PROBLEM, MODEL, "name,Speed\na,3\nb,11\n"),
        (Status::Refused, want, "lincs: A.csv: row 2: 2 at 0: 3\n"),
    )
}

#[test]
fn cells_are_copied_and_columns_stand_in_the_order_of_the_problem(
    rt: HostRuntime,
) -> Result<(), Fail> {
    let table = "# made by hand\ncategory,Speed,name\r\n,7,\"a, b\"\r\n";
    let want = "name,Speed,category\n\"a, b\",7,Good\n";
    ends_with(
        &rt,
        rt.alloc(),
        (PROBLEM, MODEL, table),
        (Status::Done, want, ""),
    )
}

#[test]
fn on_a_falling_scale_a_tie_is_accepted(rt: HostRuntime) -> Result<(), Fail> {
    let problem = "kind: classification-problem
format_version: 1
criteria:
  - name: Speed
    value_type: real
    preference_direction: decreasing
    min_value: 0
    max_value: 10
ordered_categories:
  - name: Bad
  - name: Good
";
    let model = model(
        rt.alloc(),
        "[2.50]",
        "  - kind: roots\n    upset_roots: [[0]]\n",
    )?;
    let table = "name,Speed\na,2.5\nb,2.51\nc,2.50\n";
    let want = "name,Speed,category\na,2.5,Good\nb,2.51,Bad\nc,2.50,Good\n";
    ends_with(
        &rt,
        rt.alloc(),
        (problem, &model, table),
        (Status::Done, want, ""),
    )
}

#[test]
fn the_greatest_boundary_decides_though_a_lower_one_is_not_reached(
    rt: HostRuntime,
) -> Result<(), Fail> {
    let coalitions = "  - kind: roots
    upset_roots: []
  - kind: roots
    upset_roots: [[]]
";
    let model = model(rt.alloc(), "[3, 7]", coalitions)?;
    let want = "name,Speed,category\na,0,High\n";
    ends_with(
        &rt,
        rt.alloc(),
        (PROBLEM_OF_THREE, &model, "name,Speed\na,0\n"),
        (Status::Done, want, ""),
    )
}

#[test]
fn an_alias_stands_for_the_coalitions_of_another_boundary(rt: HostRuntime) -> Result<(), Fail> {
    let coalitions = "  - &coalitions
    kind: roots
    upset_roots: [[0]]
  - *coalitions
";
    let model = model(rt.alloc(), "[3, 7]", coalitions)?;
    let want = "name,Speed,category\na,2,Low\nb,3,Mid\nc,7,High\n";
    ends_with(
        &rt,
        rt.alloc(),
        (PROBLEM_OF_THREE, &model, "name,Speed\na,2\nb,3\nc,7\n"),
        (Status::Done, want, ""),
    )
}

#[test]
fn files_as_people_write_them_are_read(rt: HostRuntime) -> Result<(), Fail> {
    let problem = "# by hand\r
---\r
kind: 'classification-problem'
format_version: \"1\"
criteria:
- name: \"Speed\"   # in knots
  value_type: integer
  preference_direction: increasing
  min_value: 0
  max_value: 10

ordered_categories:
- name: Bad
- name: 'Good'
";
    let model = "kind: ncs-classification-model
format_version: 1
accepted_values:
- kind: thresholds
  thresholds: [
    7,  # the least that is good
    ]
sufficient_coalitions:
- &all
  kind: roots
  upset_roots: [[0]]
";
    let table = "name,Speed\na,3\nb,7\n";
    ends_with(
        &rt,
        rt.alloc(),
        (problem, model, table),
        (Status::Done, "name,Speed,category\na,3,Bad\nb,7,Good\n", ""),
    )
}

/// A problem of three criteria.
fn problem_of_three_criteria(alloc: Global) -> Result<String, AllocError> {
    let criterion = "    value_type: integer\n    preference_direction: increasing\n";
    format!(in alloc;
        "kind: classification-problem
format_version: 1
criteria:
  - name: A\n{criterion}  - name: B\n{criterion}  - name: C\n{criterion}ordered_categories:
  - name: Bad
  - name: Good
"
    )
}

/// Sorts two rows by a model of three criteria.
fn sorts_two_rows(rt: &impl Abort, alloc: Global, model: &str, sorted: &str) -> Result<(), Fail> {
    let problem = problem_of_three_criteria(alloc)?;
    let table = "name,A,B,C\na,7,7,7\nb,7,7,6\n";
    let files = (problem.as_str(), model, table);
    ends_with(rt, alloc, files, (Status::Done, sorted, ""))
}

#[test]
fn weights_that_sum_to_exactly_1_are_enough_and_null_accepts_nothing(
    rt: HostRuntime,
) -> Result<(), Fail> {
    let model = "kind: ncs-classification-model
format_version: 1
accepted_values:
  - kind: thresholds
    thresholds: [7]
  - kind: thresholds
    thresholds: [7]
  - kind: thresholds
    thresholds: [7]
sufficient_coalitions:
  - kind: weights
    criterion_weights: [0.3, 0.3, 0.4]
";
    let sorted = "name,A,B,C,category\na,7,7,7,Good\nb,7,7,6,Bad\n";
    sorts_two_rows(&rt, rt.alloc(), model, sorted)?;
    let null = edited(&rt, rt.alloc(), model, "[7]", "[null]")?;
    let sorted = "name,A,B,C,category\na,7,7,7,Bad\nb,7,7,6,Bad\n";
    sorts_two_rows(&rt, rt.alloc(), null.as_str(), sorted)
}
