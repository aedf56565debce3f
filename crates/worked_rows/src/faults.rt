//! Each call of the outside failing in turn.
use crate::session::{
    CLASSIFY, MODEL, PROBLEM, SORTED, TABLE, Want, compare, end_of, runs, shelf, words,
};
use edge_core::{MemSink, SafeShelf};
use lincs_top::{Status, run};
use std::alloc::{AllocError, Global};
use std::process::Abort;
use std::test::Fail;

/// Fails this call of the three files.
fn fails_at_read(rt: &impl Abort, alloc: Global, call: u64, want: Want<'_>) -> Result<(), Fail> {
    let mut shelf = shelf(alloc, PROBLEM, MODEL, TABLE)?;
    shelf.fail_at(call)?;
    runs(rt, alloc, CLASSIFY, &mut shelf, want)
}

#[test]
fn each_failing_read_names_its_file_and_writes_nothing(rt: HostRuntime) -> Result<(), Fail> {
    // Each of three files takes an open, a read with bytes and a read at the end.
    for call in 1..10u64 {
        let line = match call {
            1..=3 => "lincs: cannot read P.yml\n",
            4..=6 => "lincs: cannot read M.yml\n",
            _ => "lincs: cannot read A.csv\n",
        };
        fails_at_read(&rt, rt.alloc(), call, (Status::ReadFault, "", line))?;
    }
    fails_at_read(&rt, rt.alloc(), 10, (Status::Done, SORTED, ""))
}

#[test]
fn a_read_that_fails_late_in_a_long_file_is_no_end_of_it(rt: HostRuntime) -> Result<(), Fail> {
    // The table takes three reads of 65,536 bytes and one of what is left. The second fails.
    let blank = vec![in rt.alloc(); b'\n'; 200_000]?;
    let mut shelf = shelf(rt.alloc(), PROBLEM, MODEL, TABLE)?;
    shelf.add("A.csv", &blank)?;
    shelf.fail_at(9)?;
    let line = "lincs: cannot read A.csv\n";
    runs(
        &rt,
        rt.alloc(),
        CLASSIFY,
        &mut shelf,
        (Status::ReadFault, "", line),
    )
}

#[test]
fn a_file_that_is_not_there_is_named(rt: HostRuntime) -> Result<(), Fail> {
    let mut shelf = shelf(rt.alloc(), PROBLEM, MODEL, TABLE)?;
    let line = "lincs: cannot read \"M\".yml\n";
    let words = "classify P.yml \"M\".yml A.csv";
    runs(
        &rt,
        rt.alloc(),
        words,
        &mut shelf,
        (Status::ReadFault, "", line),
    )
}

/// Fails this write of the output, and returns whether the run made it.
fn fails_at_write(rt: &impl Abort, alloc: Global, call: u64) -> Result<bool, Fail> {
    let mut shelf = shelf(alloc, PROBLEM, MODEL, TABLE)?;
    let ended = end_of(alloc, CLASSIFY, &mut shelf, call, 0)?;
    if ended.status == Status::Done {
        assert_eq!(rt; ended.out.bytes(), SORTED.as_bytes());
        return Ok(false);
    }
    assert_eq!(rt;
        (ended.status, ended.err.bytes()),
        (Status::WriteFault, "lincs: cannot write\n".as_bytes())
    );
    assert!(rt; SORTED.as_bytes().starts_with(ended.out.bytes()));
    Ok(true)
}

#[test]
fn each_failing_write_leaves_a_prefix(rt: HostRuntime) -> Result<(), Fail> {
    let mut without_failure = 0;
    for call in 1..10u64 {
        if !fails_at_write(&rt, rt.alloc(), call)? {
            without_failure = call;
            break;
        }
    }
    // The header is one write, and both rows are one.
    assert_eq!(&rt; without_failure, 3);
    Ok(())
}

#[test]
fn an_error_output_that_fails_changes_nothing_else(rt: HostRuntime) -> Result<(), Fail> {
    let mut shelf = shelf(rt.alloc(), PROBLEM, MODEL, "name,Speed\na,3\nb,11\n")?;
    let ended = end_of(rt.alloc(), CLASSIFY, &mut shelf, 0, 2)?;
    let out = "name,Speed,category\na,3,Bad\n";
    compare(&rt, &ended, (Status::Refused, out, "lincs: "));
    Ok(())
}

/// A safe shelf with the three files.
fn safe_shelf(alloc: Global) -> Result<SafeShelf, AllocError> {
    let mut shelf = SafeShelf::new(alloc);
    shelf.add("P.yml", PROBLEM.as_bytes())?;
    shelf.add("M.yml", MODEL.as_bytes())?;
    shelf.add("A.csv", TABLE.as_bytes())?;
    Ok(shelf)
}

/// Runs `classify` over a safe shelf, and returns its status.
fn status_over(
    alloc: Global,
    shelf: &mut SafeShelf,
    out: &mut MemSink,
    err: &mut MemSink,
) -> Result<Status, AllocError> {
    let words = words(alloc, CLASSIFY)?;
    Ok(run(alloc, &words, shelf, out, err))
}

#[test]
fn a_safe_shelf_holds_the_same_files(rt: HostRuntime) -> Result<(), Fail> {
    let mut shelf = safe_shelf(rt.alloc())?;
    let mut out = MemSink::new(rt.alloc());
    let mut err = MemSink::new(rt.alloc());
    let status = status_over(rt.alloc(), &mut shelf, &mut out, &mut err)?;
    assert_eq!(&rt; (status, out.bytes()), (Status::Done, SORTED.as_bytes()));
    Ok(())
}
