//! The commands of README.md, as docs/tutorial-tests.py writes them.
use crate::steps::{Step, follow};
use std::test::Fail;

const FILES: [(&str, &str); 6] = [
    (
        "assigned.csv",
        "name,Price,Range,Comfort,category
Alba,29900,410,poor,Buy
Brio,45000,400.5,good,
Corsa,31000,260,fair,Consider
Dart,52000,180,good,Reject
Eos,39000,300,good,Buy
",
    ),
    (
        "cars.csv",
        "name,Price,Range,Comfort
Alba,29900,410,poor
Brio,45000,400.5,good
Corsa,31000,260,fair
Dart,52000,180,good
",
    ),
    (
        "disputed.csv",
        "name,Price,Range,Comfort,category
Alba,29900,410,poor,Buy
Corsa,31000,260,fair,Consider
Dart,52000,180,good,Reject
Eos,39000,300,good,Buy
Falk,38500,320,good,Consider
",
    ),
    (
        "model.yml",
        "kind: ncs-classification-model
format_version: 1
accepted_values:
  - kind: thresholds
    thresholds: [40000, 30000]
  - kind: thresholds
    thresholds: [250, 400.5]
  - kind: thresholds
    thresholds: [fair, good]
sufficient_coalitions:
  - kind: roots
    upset_roots: [[0, 1], [1, 2]]
  - kind: roots
    upset_roots: [[0, 1], [1, 2]]
",
    ),
    (
        "problem.yml",
        "kind: classification-problem
format_version: 1
criteria:
  - name: Price
    value_type: integer
    preference_direction: decreasing
    min_value: 0
    max_value: 100000
  - name: Range
    value_type: real
    preference_direction: increasing
    min_value: 0
    max_value: 1000
  - name: Comfort
    value_type: enumerated
    ordered_values: [poor, fair, good]
ordered_categories:
  - name: Reject
  - name: Consider
  - name: Buy
",
    ),
    (
        "weights.yml",
        "kind: ncs-classification-model
format_version: 1
accepted_values:
  - kind: thresholds
    thresholds: [40000, 30000]
  - kind: thresholds
    thresholds: [250, 400.5]
  - kind: thresholds
    thresholds: [fair, good]
sufficient_coalitions:
  - &coalitions
    kind: weights
    criterion_weights: [0.4, 0.6, 0.4]
  - *coalitions
",
    ),
];

const STEPS: [Step<'_>; 5] = [
    Step {
        line: "classify problem.yml weights.yml cars.csv",
        target: "",
        screen: true,
        shown: "name,Price,Range,Comfort,category
Alba,29900,410,poor,Buy
Brio,45000,400.5,good,Buy
Corsa,31000,260,fair,Consider
Dart,52000,180,good,Reject
",
    },
    Step {
        line: "learn classification-model problem.yml assigned.csv",
        target: "learned.yml",
        screen: false,
        shown: "",
    },
    Step {
        line: "describe model problem.yml learned.yml",
        target: "",
        screen: true,
        shown: "model: 3 criteria, 2 boundaries
criterion 0 boundary 1: at most 39000
criterion 0 boundary 2: at most 39000
criterion 1 boundary 1: at least 260
criterion 1 boundary 2: at least 300
criterion 2 boundary 1: nothing
criterion 2 boundary 2: nothing
boundary 1: roots [[0, 1]]
boundary 2: roots [[0, 1]]
",
    },
    Step {
        line: "learn classification-model problem.yml disputed.csv",
        target: "refutation.txt",
        screen: true,
        shown: "lincs-refutation 1 separation
118 -52 0 93 92 15 0
119 -53 0 95 94 0
120 0 118 119 96 91 90 6 0
",
    },
    Step {
        line: "check-refutation problem.yml disputed.csv refutation.txt",
        target: "",
        screen: true,
        shown: "accepted
",
    },
];

#[test]
fn the_commands_of_readme_write_what_it_shows(rt: HostRuntime) -> Result<(), Fail> {
    follow(&rt, rt.alloc(), &FILES, &STEPS)
}
