//! What no clause says: that models are written if memory is ample, and worked texts.
use crate::files::{problem_of, tree_of};
use model_core::read_model;
use model_text_core::write_model;
use problem_core::Problem;
use std::alloc::Global;
use std::test::Fail;

/// Names with quotes, a backslash and letters beyond ASCII; three categories.
const MARKS: &str = "kind: classification-problem
format_version: 1
criteria:
  - name: Mark
    value_type: enumerated
    ordered_values: ['say \"no\"', 'a\\b', \u{e9}t\u{e9}]
  - name: Price
    value_type: real
    preference_direction: decreasing
ordered_categories:
  - name: Bad
  - name: Fair
  - name: Good
";

/// The text of the model that a text is read as.
fn rewritten(alloc: Global, problem: &Problem, text: &str) -> Result<Vec<u8>, Fail> {
    let tree = tree_of(alloc, text)?;
    let model = read_model(alloc, problem, &tree)?;
    let mut out = Vec::new(alloc);
    write_model(problem, &model, &mut out)?;
    Ok(out)
}

/// What a model begins with.
const HEAD: &str = "kind: ncs-classification-model\nformat_version: 1\naccepted_values:\n";

#[test]
fn a_model_is_written_as_it_is_read(rt: HostRuntime) -> Result<(), Fail> {
    let problem = problem_of(rt.alloc(), MARKS)?;
    for text in [
        "  - kind: thresholds
    thresholds: [\"say \\\"no\\\"\", \"a\\\\b\"]
  - kind: thresholds
    thresholds: [-0.5, null]
sufficient_coalitions:
  - &coalitions
    kind: roots
    upset_roots:
      - [0, 1]
      - []
  - *coalitions
",
        "  - kind: thresholds
    thresholds: [\"\u{e9}t\u{e9}\", null]
  - kind: thresholds
    thresholds: [null, null]
sufficient_coalitions:
  - kind: weights
    criterion_weights: [0.5, 1]
  - kind: roots
    upset_roots: []
",
    ] {
        let text = format!(in rt.alloc(); "{HEAD}{text}")?;
        let written = rewritten(rt.alloc(), &problem, text.as_str())?;
        assert_eq!(rt; written.as_slice(), text.as_bytes());
    }
    Ok(())
}
