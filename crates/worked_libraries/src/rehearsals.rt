//! What no clause says: that rehearsals come to their summaries with ample memory. The counts were worked out apart.
use rehearsal_core::{Rehearsal, rehearse};
use std::alloc::Global;
use std::test::Fail;

/// The summary of a rehearsal of three categories.
fn summary_of(alloc: Global, criteria: u32, rows: u32, seed: u64) -> Option<Vec<u8>> {
    if criteria == 0 || criteria > 16 || rows > 10_000 {
        return None;
    }
    match rehearse(alloc, criteria, 3, rows, seed) {
        Ok(Rehearsal::Learned(text)) => Some(text),
        _ => None,
    }
}

#[test]
fn without_rows_nothing_is_accepted(rt: HostRuntime) -> Result<(), Fail> {
    let Ok(Rehearsal::Learned(text)) = rehearse(rt.alloc(), 1, 2, 0, 5) else {
        return Err("no summary".into());
    };
    let expected = "criteria 1
categories 2
rows 0
variables 0
clauses 0
restored 0/0
kind: ncs-classification-model
format_version: 1
accepted_values:
  - kind: thresholds
    thresholds: [null]
sufficient_coalitions:
  - &coalitions
    kind: roots
    upset_roots: []
";
    assert_eq!(rt; text.as_slice(), expected.as_bytes());
    Ok(())
}

#[test]
fn all_rows_are_restored(rt: HostRuntime) -> Result<(), Fail> {
    let alloc = rt.alloc();
    let text = summary_of(alloc, 4, 20, 41).ok_or("no summary")?;
    let expected = "criteria 4
categories 3
rows 20
variables 828
clauses 1738
restored 20/20
kind: ncs-classification-model
";
    assert!(rt; text.as_slice().starts_with(expected.as_bytes()));
    let text = summary_of(alloc, 4, 200, 41).ok_or("no summary")?;
    let expected = "criteria 4
categories 3
rows 200
variables 69458
clauses 155329
restored 200/200
kind: ncs-classification-model
";
    assert!(rt; text.as_slice().starts_with(expected.as_bytes()));
    Ok(())
}

#[test]
fn after_the_last_seed_comes_the_first(rt: HostRuntime) -> Result<(), Fail> {
    let text = summary_of(rt.alloc(), 2, 6, u64::MAX).ok_or("no summary")?;
    let expected = "criteria 2
categories 3
rows 6
variables 64
clauses 132
restored 6/6
kind: ncs-classification-model
";
    assert!(rt; text.as_slice().starts_with(expected.as_bytes()));
    Ok(())
}
