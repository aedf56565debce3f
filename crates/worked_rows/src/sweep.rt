//! Every command, with each call of the outside failing in turn.
use crate::session::{Ended, MODEL, PROBLEM, PROBLEM_OF_TWO, TABLE, end_of, runs};
use edge_core::MemShelf;
use lincs_top::Status;
use std::alloc::{AllocError, Global};
use std::process::Abort;
use std::test::Fail;

/// A command line, the names of its files in the order in which they are read, and the status that it ends with.
type Case<'a> = (&'a str, &'a str, Status);

const CASES: [Case<'_>; 27] = [
    (
        "classify P.yml M.yml A.csv",
        "P.yml M.yml A.csv",
        Status::Done,
    ),
    (
        "classify P.yml M.yml B.csv",
        "P.yml M.yml B.csv",
        Status::Refused,
    ),
    (
        "classification-accuracy P.yml M.yml E.csv",
        "P.yml M.yml E.csv",
        Status::Done,
    ),
    (
        "learn classification-model P.yml E.csv",
        "P.yml E.csv",
        Status::Done,
    ),
    (
        "learn classification-model P.yml W.csv",
        "P.yml W.csv",
        Status::No,
    ),
    (
        "learn classification-model P.yml E.csv --encoding coalitions",
        "P.yml E.csv",
        Status::Done,
    ),
    (
        "learn classification-model Q.yml X.csv --max-conflicts 1",
        "Q.yml X.csv",
        Status::Limit,
    ),
    (
        "encode P.yml E.csv --encoding separation",
        "P.yml E.csv",
        Status::Done,
    ),
    (
        "encode P.yml E.csv --encoding coalitions",
        "P.yml E.csv",
        Status::Done,
    ),
    (
        "check-refutation P.yml W.csv R.txt",
        "P.yml W.csv R.txt",
        Status::Done,
    ),
    (
        "check-refutation P.yml W.csv S.txt",
        "P.yml W.csv S.txt",
        Status::No,
    ),
    (
        "check-refutation P.yml W.csv E.csv",
        "P.yml W.csv E.csv",
        Status::Refused,
    ),
    ("describe problem P.yml", "P.yml", Status::Done),
    ("describe model P.yml M.yml", "P.yml M.yml", Status::Done),
    (
        "describe alternatives P.yml E.csv",
        "P.yml E.csv",
        Status::Done,
    ),
    (
        "generate classification-problem 2 3 --random-seed 4",
        "",
        Status::Done,
    ),
    (
        "generate classification-model P.yml --random-seed 4",
        "P.yml",
        Status::Done,
    ),
    (
        "generate classified-alternatives P.yml M.yml 5 --random-seed 4",
        "P.yml M.yml",
        Status::Done,
    ),
    ("rehearse 2 2 6 7", "", Status::Done),
    (
        "classification-accuracy P.yml M.yml B.csv",
        "P.yml M.yml B.csv",
        Status::Refused,
    ),
    (
        "learn classification-model P.yml B.csv",
        "P.yml B.csv",
        Status::Refused,
    ),
    (
        "encode P.yml B.csv --encoding separation",
        "P.yml B.csv",
        Status::Refused,
    ),
    ("describe problem M.yml", "M.yml", Status::Refused),
    ("describe model P.yml P.yml", "P.yml P.yml", Status::Refused),
    (
        "describe alternatives P.yml B.csv",
        "P.yml B.csv",
        Status::Refused,
    ),
    (
        "generate classification-model M.yml --random-seed 4",
        "M.yml",
        Status::Refused,
    ),
    (
        "generate classified-alternatives P.yml P.yml 5 --random-seed 4",
        "P.yml P.yml",
        Status::Refused,
    ),
];

/// The files of all cases.
fn files(alloc: Global) -> Result<MemShelf, AllocError> {
    let mut shelf = MemShelf::new(alloc);
    for (name, text) in [
        ("P.yml", PROBLEM),
        ("Q.yml", PROBLEM_OF_TWO),
        ("M.yml", MODEL),
        ("A.csv", TABLE),
        ("B.csv", "name,Speed\na,3\nb,11\n"),
        ("E.csv", "name,Speed,category\na,3,Bad\nb,7,Good\n"),
        ("W.csv", "name,Speed,category\ng,3,Good\nb,7,Bad\n"),
        ("X.csv", "name,U,V,category\ng,1,0,Good\nb,1,1,Bad\n"),
        ("R.txt", "lincs-refutation 1 separation\n5 0 4 2 1 3 0\n"),
        ("S.txt", "lincs-refutation 1 separation\n"),
    ] {
        shelf.add(name, text.as_bytes())?;
    }
    Ok(shelf)
}

/// Runs a command line over the files of all cases. Write `failing_out` of the output fails, and write
/// `failing_err` of the error output; 0 is none.
fn end_of_case(
    alloc: Global,
    line: &str,
    failing_out: u64,
    failing_err: u64,
) -> Result<Ended, AllocError> {
    let mut shelf = files(alloc)?;
    end_of(alloc, line, &mut shelf, failing_out, failing_err)
}

/// Fails this call of the files, in which a command reads the file of this name.
fn fail_read(
    rt: &impl Abort,
    alloc: Global,
    line: &str,
    name: &str,
    call: u64,
) -> Result<(), Fail> {
    let want = format!(in alloc; "lincs: cannot read {name}\n")?;
    let mut shelf = files(alloc)?;
    shelf.fail_at(call)?;
    let want = (Status::ReadFault, "", want.as_str());
    runs(rt, alloc, line, &mut shelf, want)
}

/// Fails each call of a command's files in turn. Each file takes an open, a read with bytes and a read
/// at the end.
fn fail_each_read(rt: &impl Abort, alloc: Global, line: &str, names: &str) -> Result<(), Fail> {
    let mut call = 0u64;
    for name in names.split(' ') {
        if name.is_empty() {
            continue;
        }
        for _ in 0..3 {
            call = call.wrapping_add(1);
            fail_read(rt, alloc, line, name, call)?;
        }
    }
    Ok(())
}

/// Runs a command that meets no failure.
fn fail_none(rt: &impl Abort, alloc: Global, line: &str, status: Status) -> Result<(), Fail> {
    let ended = end_of_case(alloc, line, 0, 0)?;
    assert_eq!(rt; ended.status, status, "{line}");
    Ok(())
}

#[test]
fn each_failing_read_of_each_command_names_its_file(rt: HostRuntime) -> Result<(), Fail> {
    for (line, names, status) in CASES {
        fail_each_read(&rt, rt.alloc(), line, names)?;
        fail_none(&rt, rt.alloc(), line, status)?;
    }
    Ok(())
}

/// Fails this write of a command's output, and returns whether the run made it.
fn fail_write(
    rt: &impl Abort,
    alloc: Global,
    line: &str,
    status: Status,
    whole: &[u8],
    call: u64,
) -> Result<bool, Fail> {
    let cut = end_of_case(alloc, line, call, 0)?;
    let out = cut.out.bytes();
    if cut.status == status {
        assert!(rt; out == whole, "{line}");
        return Ok(false);
    }
    assert_eq!(rt;
        (cut.status, cut.err.bytes()),
        (Status::WriteFault, "lincs: cannot write\n".as_bytes()),
        "{line}"
    );
    assert!(rt; whole.starts_with(out) && out.len() < whole.len(), "{line}");
    Ok(true)
}

/// Fails each write of a command's output in turn, until a run meets no failure.
fn fail_each_write(rt: &impl Abort, alloc: Global, line: &str, status: Status) -> Result<(), Fail> {
    let whole = end_of_case(alloc, line, 0, 0)?;
    for call in 1..100u64 {
        if !fail_write(rt, alloc, line, status, whole.out.bytes(), call)? {
            return Ok(());
        }
    }
    assert!(rt; false, "{line} writes too often");
    Ok(())
}

#[test]
fn each_failing_write_of_each_command_leaves_a_prefix(rt: HostRuntime) -> Result<(), Fail> {
    for (line, _, status) in CASES {
        fail_each_write(&rt, rt.alloc(), line, status)?;
    }
    Ok(())
}

/// Fails this write of a command's error output, and returns whether the run made it.
fn fail_word(
    rt: &impl Abort,
    alloc: Global,
    line: &str,
    status: Status,
    whole: &Ended,
    call: u64,
) -> Result<bool, Fail> {
    let cut = end_of_case(alloc, line, 0, call)?;
    let (all, err) = (whole.err.bytes(), cut.err.bytes());
    assert_eq!(rt; cut.status, status, "{line}");
    assert!(rt;
        cut.out.bytes() == whole.out.bytes() && all.starts_with(err),
        "{line}"
    );
    Ok(err.len() != all.len())
}

/// Fails each write of a command's error output in turn, until a run meets no failure.
fn fail_each_word(rt: &impl Abort, alloc: Global, line: &str, status: Status) -> Result<(), Fail> {
    let whole = end_of_case(alloc, line, 0, 0)?;
    for call in 1..100u64 {
        if !fail_word(rt, alloc, line, status, &whole, call)? {
            return Ok(());
        }
    }
    assert!(rt; false, "{line} says too much");
    Ok(())
}

#[test]
fn a_failing_error_output_changes_nothing_else_in_any_command(rt: HostRuntime) -> Result<(), Fail> {
    for (line, _, status) in CASES {
        fail_each_word(&rt, rt.alloc(), line, status)?;
    }
    Ok(())
}
