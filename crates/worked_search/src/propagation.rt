//! Propagation at a concrete type of literals.
ghost use Rattle.std.specs.Prelude.{◌≡◌, ◌≢◌, ◌+◌, ◌*◌, ◌<◌, [], ◌∷◌, ◌++◌, length, OnOk, if◌then◌else◌};
ghost use Rattle.literals_core.specs.Literal.{variable_of};
ghost use Rattle.watch_core.specs.Trail.{empty_trail};

use arena_core::{ClauseId, Lit, SmallLit, Steps};
use std::alloc::{AllocError, Global};
use std::marker::Brand;
use std::process::Abort;
use std::sync::ledger::{Blank, Ledger};
use std::test::Fail;
use watch_core::{Added, Standing, Watched};

/// The literal at a place: an even place is a variable, an odd one its negation.
fn literal(place: u8) -> SmallLit
    ensures { (if result.is_negative then 2 * result.variable + 1 else 2 * result.variable) ≡ place }
{
    SmallLit {
        variable: place / 2,
        is_negative: place % 2 == 1,
    }
}

/// Adds a clause of the literals at two places, while no literal is true.
fn add(watched: &mut Watched<SmallLit>, first: u8, second: u8) -> Result<Added, AllocError>
    requires trail { watched.old.trail ≡ empty_trail 5 }
    requires inside { (first < 10) × (second < 10) }
    requires apart { variable_of first ≢ variable_of second }
    requires few { length watched.old.clauses < 6 }
    ensures trail { watched.new.trail ≡ empty_trail 5 }
    ensures count { OnOk result (length watched.new.clauses ≡ length watched.old.clauses + 1) }
{
    watched.add_clause(&[literal(first), literal(second)])
}

/// Adds the clauses `-2 3`, `-4 1`, `-4 -1`, `-5 2`, `-5 -3` and `4 5`. Returns what is told of the second and the last.
fn add_six(watched: &mut Watched<SmallLit>) -> Result<(Added, Added), AllocError>
    requires trail { watched.old.trail ≡ empty_trail 5 }
    requires none { watched.old.clauses ≡ [] }
    ensures trail { watched.new.trail ≡ empty_trail 5 }
{
    add(watched, 3, 4)?;
    let second = add(watched, 7, 0)?;
    add(watched, 7, 1)?;
    add(watched, 9, 2)?;
    add(watched, 9, 5)?;
    let last = add(watched, 6, 8)?;
    Ok((second, last))
}

/// Decides the fourth variable on an empty trail, and propagates.
fn conflict_of<S: Ledger>(watched: &mut Watched<SmallLit>, looks: &mut Steps<S>) -> Option<ClauseId>
    requires trail { watched.old.trail ≡ empty_trail 5 }
    ensures variables { watched.new.trail.variables ≡ 5 }
{
    watched.decide(literal(6));
    watched.propagate(looks)
}

/// After 4 is decided, one of `-4 1` and `-4 -1` is false.
fn meets_a_false_clause<S: Ledger>(rt: &impl Abort, alloc: Global, blank: Blank) -> Result<(), Fail>
    requires name { blank.name ≡ S.name }
    requires parts { blank.parts ≡ S.parts }
    requires whole { blank.parts ≡ 1 }
{
    let mut looks = Steps::<S>::new(blank);
    let mut watched = Watched::new(alloc, 5)?;
    let (second, last) = add_six(&mut watched)?;
    assert_eq!(rt; (second.standing, last.id.number()), (Standing::Free, 5));
    assert_eq!(rt; conflict_of(&mut watched, &mut looks), Some(second.id));
    assert_eq!(rt; watched.trail().order(), &[literal(6), literal(1)][..]);
    assert_eq!(rt; watched.trail().reason_of(0), Some(ClauseId::numbered(2)));
    watched.undo_to(0);
    assert_eq!(rt; watched.trail().value(literal(6)), None);
    Ok(())
}

#[test]
fn a_decision_meets_a_false_clause(rt: HostRuntime) -> Result<(), Fail> {
    meets_a_false_clause::<Brand>(&rt, rt.alloc(), Blank::new(1))
}
