//! What no clause says: that formulas are made with ample memory.
use crate::files::problem_of;
use chain_core::put_dimacs;
use encoders_core::{Encoding, encode};
use problem_core::{Grade, Problem};
use ranks_core::{EncodeFault, Ranks, fits_problem};
use std::alloc::{AllocError, Global};
use std::test::Fail;
use table_core::Examples;

/// A problem of two categories and so many criteria, with whole numbers from 0 to 10.
fn problem_of_criteria(alloc: Global, criteria: u32) -> Result<Problem, Fail> {
    let mut file = format!(in alloc;
        "kind: classification-problem\nformat_version: 1\ncriteria:\n"
    )?;
    for k in 0..criteria {
        let lines = format!(in alloc;
            "  - name: C{k}\n    value_type: integer\n    preference_direction: increasing\n    min_value: 0\n    max_value: 10\n"
        )?;
        file.push_str(lines.as_str())?;
    }
    file.push_str("ordered_categories:\n  - name: Bad\n  - name: Good\n")?;
    problem_of(alloc, file.as_str())
}

/// The text of the formula of examples, or the fault.
fn text(
    alloc: Global,
    encoding: Encoding,
    problem: &Problem,
    examples: &Examples,
) -> Result<Vec<u8>, EncodeFault> {
    if !fits_problem(problem, examples) {
        return Err(EncodeFault::NoMemory);
    }
    let ranks = Ranks::of(alloc, problem, examples)?;
    let formula = encode(alloc, encoding, problem, examples, &ranks)?;
    let mut out = Vec::new(alloc);
    put_dimacs(&formula, &mut out)?;
    Ok(out)
}

/// Two examples, of which the worse one is in the better category.
fn crossed(alloc: Global) -> Result<Examples, AllocError> {
    let mut examples = Examples::empty(alloc);
    examples.push(&[Grade::place(1), Grade::place(0)], 1)?;
    examples.push(&[Grade::place(1), Grade::place(1)], 0)?;
    Ok(examples)
}

/// The text of the formula of these two examples.
fn crossed_text(alloc: Global, encoding: Encoding) -> Result<Vec<u8>, Fail> {
    let problem = problem_of_criteria(alloc, 2)?;
    let examples = crossed(alloc)?;
    Ok(text(alloc, encoding, &problem, &examples)?)
}

#[test]
fn worse_on_each_criterion_in_the_better_category(rt: HostRuntime) -> Result<(), Fail> {
    let separation = crossed_text(rt.alloc(), Encoding::Separation)?;
    let clauses = "p cnf 5 6\n-2 3 0\n-4 1 0\n-4 -1 0\n-5 2 0\n-5 -3 0\n4 5 0\n";
    assert_eq!(rt; separation.as_slice(), clauses.as_bytes());
    let coalitions = crossed_text(rt.alloc(), Encoding::Coalitions)?;
    let clauses =
        "p cnf 7 13\n-2 3 0\n-4 5 0\n-4 6 0\n-5 7 0\n-6 7 0\n-4 0\n-1 -5 0\n-3 -6 0\n-1 -3 -7 0\n7 0\n1 6 0\n2 5 0\n1 2 4 0\n";
    assert_eq!(rt; coalitions.as_slice(), clauses.as_bytes());
    Ok(())
}

/// One example of thirteen grades.
fn thirteen(alloc: Global) -> Result<Examples, AllocError> {
    let mut examples = Examples::empty(alloc);
    examples.push(&[Grade::place(0); 13], 1)?;
    Ok(examples)
}

/// The text of the formula of this one example; nothing if its criteria are too many.
fn text_of_thirteen(alloc: Global, encoding: Encoding) -> Result<Option<Vec<u8>>, Fail> {
    let problem = problem_of_criteria(alloc, 13)?;
    let examples = thirteen(alloc)?;
    match text(alloc, encoding, &problem, &examples) {
        Ok(text) => Ok(Some(text)),
        Err(EncodeFault::Wide) => Ok(None),
        Err(fault) => Err(fault.into()),
    }
}

#[test]
fn thirteen_criteria_are_too_many_for_coalitions_alone(rt: HostRuntime) -> Result<(), Fail> {
    let narrow = text_of_thirteen(rt.alloc(), Encoding::Separation)?.ok_or("too wide")?;
    assert_eq!(rt; narrow.as_slice(), "p cnf 13 0\n".as_bytes());
    let wide = text_of_thirteen(rt.alloc(), Encoding::Coalitions)?;
    assert!(rt; wide.is_none());
    Ok(())
}
