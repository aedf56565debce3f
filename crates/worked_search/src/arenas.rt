//! The arena and the chains at a concrete type of literals.
ghost use Rattle.std.specs.Prelude.{◌≡◌, ◌+◌, ◌*◌, ◌<◌, false};
ghost use Rattle.arena_core.specs.declared.arena.TheConstants.{MOST_CLAUSES};

use arena_core::{Arena, Chains, ClauseId, Lit, Seat, SmallLit, Steps};
use std::alloc::Global;
use std::marker::Brand;
use std::process::Abort;
use std::sync::ledger::{Blank, Ledger};
use std::test::Fail;

fn positive(variable: u8) -> SmallLit
    ensures { result ≡ record { variable = variable; is_negative = false } }
{
    SmallLit {
        variable,
        is_negative: false,
    }
}

fn right_seat(number: u32) -> Seat
    requires { number < MOST_CLAUSES }
    ensures { result ≡ 2 * number + 1 }
{
    Seat::of(ClauseId::numbered(number), 1)
}

/// Counts the clauses of an arena, and the literals of each.
fn counts_what_was_pushed(rt: &impl Abort, alloc: Global) -> Result<(), Fail> {
    let (x, y, z) = (positive(0), positive(1), positive(2));
    let mut arena = Arena::new(alloc);
    let first = arena.push(&[x, y.negation(), z])?;
    let second = arena.push(&[])?;
    let numbers = (first.number(), second.number());
    let counts = (arena.count(), arena.len(first), arena.len(second));
    assert_eq!(rt; (numbers, counts), ((0, 1), (2, 3, 0)));
    Ok(())
}

/// Reads both clauses of an arena after two literals of the first are exchanged.
fn reads_what_was_pushed<S: Ledger>(
    rt: &impl Abort,
    alloc: Global,
    blank: Blank,
) -> Result<(), Fail>
    requires name { blank.name ≡ S.name }
    requires parts { blank.parts ≡ S.parts }
    requires whole { blank.parts ≡ 1 }
{
    let (x, y, z) = (positive(0), positive(1), positive(2));
    let mut looks = Steps::<S>::new(blank);
    let mut arena = Arena::new(alloc);
    let first = arena.push(&[x, y.negation(), z])?;
    let second = arena.push(&[])?;
    arena.swap(first, 0, 2);
    assert_eq!(rt;
        arena.literals(first, &mut looks),
        &[z, y.negation(), x][..]
    );
    assert_eq!(rt; arena.literals(second, &mut looks), &[][..]);
    Ok(())
}

#[test]
fn an_arena_reads_what_was_pushed(rt: HostRuntime) -> Result<(), Fail> {
    counts_what_was_pushed(&rt, rt.alloc())?;
    reads_what_was_pushed::<Brand>(&rt, rt.alloc(), Blank::new(1))
}

#[test]
fn a_moved_seat_leaves_the_others_in_order(rt: HostRuntime) -> Result<(), Fail> {
    let (x, y) = (positive(3), positive(3).negation());
    let (first, second, third) = (right_seat(0), right_seat(1), right_seat(2));
    let mut chains = Chains::new(rt.alloc(), 4)?;
    chains.reserve(3)?;
    chains.link(first, x);
    chains.link(second, x);
    chains.link(third, x);
    assert_eq!(rt; chains.first(x), Some(third));
    chains.move_seat(second, y);
    assert_eq!(rt; chains.first(x), Some(third));
    assert_eq!(rt; chains.next(third), Some(first));
    assert_eq!(rt; chains.next(first), None);
    assert_eq!(rt; chains.first(y), Some(second));
    assert_eq!(rt; chains.next(second), None);
    Ok(())
}
