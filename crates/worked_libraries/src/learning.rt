//! What no clause says: that learning comes to each of its results with ample memory.
use crate::files::{examples_of, problem_of};
use encoders_core::Encoding;
use learn_core::{Answer, learn};
use std::alloc::Global;
use std::test::Fail;

/// Two criteria of whole numbers from 0 to 10, two categories.
const TWO: &str = "kind: classification-problem
format_version: 1
criteria:
  - name: U
    value_type: integer
    preference_direction: increasing
    min_value: 0
    max_value: 10
  - name: V
    value_type: integer
    preference_direction: increasing
    min_value: 0
    max_value: 10
ordered_categories:
  - name: Bad
  - name: Good
";

/// What learning from the table of a text ends with, in an encoding. With one lemma some tables come to the limit.
fn learned(alloc: Global, encoding: Encoding, text: &str, one: bool) -> Result<Answer, Fail> {
    let problem = problem_of(alloc, TWO)?;
    let own = examples_of(alloc, &problem, text)?;
    let most = if one { 1 } else { 1_000 };
    learn(alloc, &problem, &own, encoding, most).map_err(|_| "no answer".into())
}

/// The name of an answer.
fn name_of(answer: &Answer) -> &'static str {
    match answer {
        Answer::Found(_) => "found",
        Answer::Refuted(_) => "refuted",
        Answer::Limit(_) => "limit",
    }
}

#[test]
fn each_answer_comes(rt: HostRuntime) -> Result<(), Fail> {
    let apart = "name,U,V,category\na,3,5,Bad\nb,7,5,Good\n";
    let same = "name,U,V,category\na,5,5,Bad\nb,5,5,Good\n";
    let worse = "name,U,V,category\ng,1,0,Good\nb,1,1,Bad\n";
    for (encoding, text, one, want) in [
        (Encoding::Separation, apart, true, "found"),
        (Encoding::Coalitions, apart, true, "found"),
        (Encoding::Separation, same, false, "refuted"),
        (Encoding::Separation, worse, true, "limit"),
    ] {
        let answer = learned(rt.alloc(), encoding, text, one)?;
        assert_eq!(rt; name_of(&answer), want, "at {text}");
    }
    Ok(())
}
