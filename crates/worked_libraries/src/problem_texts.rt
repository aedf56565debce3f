//! What no clause says: that problems are written if memory is ample, and worked texts.
use crate::files::problem_of;
use problem_text_core::write_problem;
use std::alloc::Global;
use std::test::Fail;

/// The text of the problem that a text is read as.
fn rewritten(alloc: Global, text: &str) -> Result<Vec<u8>, Fail> {
    let problem = problem_of(alloc, text)?;
    let mut out = Vec::new(alloc);
    write_problem(&problem, &mut out)?;
    Ok(out)
}

/// What a problem begins with.
const HEAD: &str = "kind: classification-problem\nformat_version: 1\ncriteria:\n";

/// A whole scale and a scale of names.
const SPEED: &str = "  - name: \"Speed\"
    value_type: integer
    preference_direction: increasing
    min_value: 0
    max_value: 10
  - name: \"Mark\"
    value_type: enumerated
    ordered_values: [\"c\", \"b\", \"a\"]
ordered_categories:
  - name: \"Bad\"
  - name: \"Good\"
";

/// Both directions of both types of numbers, with bounds of either sign, with a fraction, and at the ends.
const NUMBERS: &str = "  - name: \"Criterion 1\"
    value_type: real
    preference_direction: increasing
    min_value: 0
    max_value: 1
  - name: \"Criterion 2\"
    value_type: real
    preference_direction: decreasing
    min_value: -0.5
    max_value: 0.000000000000000001
  - name: \"Criterion 3\"
    value_type: integer
    preference_direction: decreasing
    min_value: -1000000000000000000
    max_value: 1000000000000000000
  - name: \"Criterion 4\"
    value_type: integer
    preference_direction: increasing
    min_value: -7
    max_value: -7
ordered_categories:
  - name: \"Category 1\"
  - name: \"Category 2\"
  - name: \"Category 3\"
";

/// Names that would be something else without their quotes, and names with quotes, a backslash and letters beyond
/// ASCII.
const NAMES: &str = "  - name: \"say \\\"no\\\": a\\\\b\"
    value_type: enumerated
    ordered_values: [\"null\", \"~\", \"- x\", \", ]\", \"# 1\", \"'\", \"*k\", \"&k\", \"1\"]
  - name: \"beyond ASCII\"
    value_type: enumerated
    ordered_values: [\"\u{e9}t\u{e9}\", \"\u{85}\", \"\u{feff}\", \"\u{1f600}\"]
ordered_categories:
  - name: \"---\"
  - name: \" \"
";

#[test]
fn a_problem_is_written_as_it_is_read(rt: HostRuntime) -> Result<(), Fail> {
    for text in [SPEED, NUMBERS, NAMES] {
        let text = format!(in rt.alloc(); "{HEAD}{text}")?;
        let written = rewritten(rt.alloc(), text.as_str())?;
        assert_eq!(rt; written.as_slice(), text.as_bytes());
    }
    Ok(())
}

/// The first of these problems with its keys in another order, plain names, other words and numbers, and more keys.
const FREE: &str = "ordered_categories: # from the worst
- name: Bad
- note: the best
  name: 'Good'
format_version: '1'
criteria:
- name: Speed
  unit: km/h
  max_value: 1e1
  min_value: -0.0
  preference_direction: isotone
  value_type: integer
- value_type: enumerated
  name: Mark
  ordered_values:
  - c
  - \"\\x62\"
  - a
kind: classification-problem
";

#[test]
fn a_problem_has_one_text(rt: HostRuntime) -> Result<(), Fail> {
    let text = format!(in rt.alloc(); "{HEAD}{SPEED}")?;
    let written = rewritten(rt.alloc(), FREE)?;
    assert_eq!(rt; written.as_slice(), text.as_bytes());
    Ok(())
}

/// A scale whose bounds are missing.
const OPEN: &str = "  - name: \"Price\"
    value_type: real
    preference_direction: decreasing
ordered_categories:
  - name: \"Bad\"
  - name: \"Good\"
";

/// The same scale with the bounds that stand for missing ones.
const CLOSED: &str = "  - name: \"Price\"
    value_type: real
    preference_direction: decreasing
    min_value: -1000000000000000000
    max_value: 1000000000000000000
ordered_categories:
  - name: \"Bad\"
  - name: \"Good\"
";

#[test]
fn missing_bounds_are_written(rt: HostRuntime) -> Result<(), Fail> {
    let open = format!(in rt.alloc(); "{HEAD}{OPEN}")?;
    let closed = format!(in rt.alloc(); "{HEAD}{CLOSED}")?;
    let written = rewritten(rt.alloc(), open.as_str())?;
    assert_eq!(rt; written.as_slice(), closed.as_bytes());
    Ok(())
}
