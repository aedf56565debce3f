//! Worked logs, each fault once: what the calls that take memory return with ample memory.

use crate::clauses::has_higher;
use chain_core::{
    CheckFault, Encoding, Formula, Literal, LogFault, MOST_BYTES, MOST_CLAUSES, check, put_dimacs,
    read_log, write_log,
};
use std::alloc::Global;
use std::test::Fail;

#[derive(Clone, Copy, Debug, PartialEq, Eq)]
enum Answer {
    Accepted,
    Unread(LogFault),
    Refused(CheckFault),
}

fn add_clause(alloc: Global, formula: &mut Formula, numbers: &[i32]) -> Result<(), Fail> {
    let mut clause = Vec::new(alloc);
    for number in numbers {
        clause.push(Literal::of(*number).ok_or("no literal")?)?;
    }
    if has_higher(clause.as_slice(), formula.variables()) || formula.count() >= MOST_CLAUSES {
        return Err("no room".into());
    }
    formula.add(clause.as_slice())?;
    Ok(())
}

/// The formula of a problem in which one value is an example of both of two categories.
fn one_value_in_two_categories(alloc: Global) -> Result<Formula, Fail> {
    let mut formula = Formula::new(alloc, 2);
    add_clause(alloc, &mut formula, &[-2, 1])?;
    add_clause(alloc, &mut formula, &[-2, -1])?;
    add_clause(alloc, &mut formula, &[2])?;
    Ok(formula)
}

fn answer_to(alloc: Global, formula: &Formula, text: &str) -> Result<Answer, Fail> {
    if text.len() > MOST_BYTES {
        return Err("too long".into());
    }
    match read_log(alloc, text.as_bytes()) {
        Err(fault) => Ok(Answer::Unread(fault)),
        Ok((_, log)) => match check(alloc, formula, log) {
            Err(fault) => Ok(Answer::Refused(fault)),
            Ok(_) => Ok(Answer::Accepted),
        },
    }
}

#[test]
fn logs_are_accepted_or_refused_by_their_first_fault(rt: HostRuntime) -> Result<(), Fail> {
    let cases: [(&str, Answer); 9] = [
        (
            "lincs-refutation 1 separation\n4 0 3 1 2 0\n",
            Answer::Accepted,
        ),
        (
            "lincs-refutation 1 coalitions\n4 0 3 1 2 0\n",
            Answer::Accepted,
        ),
        (
            "lincs-refutation 1 other\n4 0 3 1 2 0\n",
            Answer::Unread(LogFault::Header),
        ),
        (
            "lincs-refutation 1 separation\n4 0 3 1 2\n",
            Answer::Unread(LogFault::Shape(2)),
        ),
        (
            "lincs-refutation 1 separation\n5 0 3 1 2 0\n",
            Answer::Refused(CheckFault::Id(2)),
        ),
        (
            "lincs-refutation 1 separation\n4 3 0 3 0\n",
            Answer::Refused(CheckFault::Literal(2)),
        ),
        (
            "lincs-refutation 1 separation\n4 0 4 0\n",
            Answer::Refused(CheckFault::Hint(2)),
        ),
        (
            "lincs-refutation 1 separation\n4 0 1 3 1 2 0\n",
            Answer::Refused(CheckFault::Chain(2)),
        ),
        (
            "lincs-refutation 1 separation\n",
            Answer::Refused(CheckFault::NotEmpty),
        ),
    ];
    let formula = one_value_in_two_categories(rt.alloc())?;
    for (text, answer) in cases.iter() {
        assert_eq!(rt;
            answer_to(rt.alloc(), &formula, text)?,
            *answer,
            "at {text}"
        );
    }
    Ok(())
}

/// The text of the formula of one value in two categories.
fn formula_text(alloc: Global) -> Result<Vec<u8>, Fail> {
    let formula = one_value_in_two_categories(alloc)?;
    let mut text = Vec::new(alloc);
    put_dimacs(&formula, &mut text)?;
    Ok(text)
}

/// The encoding of a log, and its text after it is read.
fn log_text(alloc: Global, text: &[u8]) -> Result<(Encoding, Vec<u8>), Fail> {
    if text.len() > MOST_BYTES {
        return Err("too long".into());
    }
    let (encoding, log) = read_log(alloc, text).ok().ok_or("not read")?;
    let mut written = Vec::new(alloc);
    write_log(encoding, &log, &mut written)?;
    Ok((encoding, written))
}

#[test]
fn texts_are_written(rt: HostRuntime) -> Result<(), Fail> {
    let dimacs = formula_text(rt.alloc())?;
    assert_eq!(rt;
        dimacs.as_slice(),
        b"p cnf 2 3\n-2 1 0\n-2 -1 0\n2 0\n".as_slice()
    );

    let text = b"lincs-refutation 1 coalitions\n7 -4 5 0 1 2 0\n8 0 0\n".as_slice();
    let (encoding, written) = log_text(rt.alloc(), text)?;
    assert_eq!(rt; encoding, Encoding::Coalitions);
    assert_eq!(rt; written.as_slice(), text);
    Ok(())
}
