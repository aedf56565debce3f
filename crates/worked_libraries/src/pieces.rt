//! Whole texts, in one piece and in several, and sinks whose writes fail.

use chain_core::{Encoding, Formula, Literal, Log, MOST_BYTES, put_dimacs, read_log};
use edge_core::{Failed, MemSink};
use std::alloc::Global;
use std::test::Fail;
use stream_core::{send_dimacs, send_log};

/// How many bytes one write has at least, unless it is the last one.
const PIECE: usize = 32_768;

/// A formula of clauses with three literals each, of growing variables and both signs.
fn formula_of(alloc: Global, clauses: u32) -> Result<Formula, Fail> {
    let mut formula = Formula::new(alloc, 2_000_000_000);
    for k in 0..clauses {
        let first = Literal::at(2 + k % 1_000_000);
        let second = Literal::at(3_000_000_001 + k % 7);
        let third = first.negated();
        if first
            .variable()
            .max(second.variable())
            .max(third.variable())
            > formula.variables()
        {
            return Err("variable out of range".into());
        }
        if formula.count() >= 1_000_000 {
            return Err("too many clauses".into());
        }
        formula.add([first, second, third].as_slice())?;
    }
    Ok(formula)
}

/// The text of a log of so many lemmas.
fn text_of_log(alloc: Global, lemmas: u32) -> Result<Vec<u8>, Fail> {
    let mut text = Vec::new(alloc);
    text.extend_from_slice(b"lincs-refutation 1 separation\n")?;
    for id in 1..lemmas.min(1_000_000) + 1 {
        let line = format!(in alloc; "{id} -{id}7 8 0 {id}1 3000000000 0\n")?;
        text.extend_from_slice(line.as_bytes())?;
    }
    Ok(text)
}

fn log_of(alloc: Global, text: &[u8]) -> Result<(Encoding, Log), Fail> {
    if text.len() > MOST_BYTES {
        return Err("too long".into());
    }
    Ok(read_log(alloc, text).ok().ok_or("not read")?)
}

/// Whether a text begins with these bytes.
fn begins_with(text: &[u8], bytes: &[u8]) -> bool {
    text.starts_with(bytes)
}

#[test]
fn texts_of_formulas_go_out_whole(rt: HostRuntime) -> Result<(), Fail> {
    for clauses in [0, 1, 3, 5_000] {
        let formula = formula_of(rt.alloc(), clauses)?;
        let mut text = Vec::new(rt.alloc());
        put_dimacs(&formula, &mut text)?;
        let mut sink = MemSink::new(rt.alloc());
        assert_eq!(rt; send_dimacs(&formula, &mut sink), Ok(()));
        assert!(rt; sink.bytes() == text.as_slice(), "{clauses} clauses");
    }
    Ok(())
}

#[test]
fn texts_of_logs_go_out_whole(rt: HostRuntime) -> Result<(), Fail> {
    for lemmas in [0, 1, 2, 5_000] {
        let text = text_of_log(rt.alloc(), lemmas)?;
        let (encoding, log) = log_of(rt.alloc(), text.as_slice())?;
        let mut sink = MemSink::new(rt.alloc());
        assert_eq!(rt; send_log(encoding, &log, &mut sink), Ok(()));
        assert!(rt; sink.bytes() == text.as_slice(), "{lemmas} lemmas");
    }
    Ok(())
}

#[test]
fn a_small_formula_is_this_text(rt: HostRuntime) -> Result<(), Fail> {
    let mut sink = MemSink::new(rt.alloc());
    assert_eq!(rt; send_dimacs(&formula_of(rt.alloc(), 2)?, &mut sink), Ok(()));
    assert_eq!(rt;
        sink.bytes(),
        b"p cnf 2000000000 2\n1 -1500000000 -1 0\n-1 1500000001 1 0\n".as_slice()
    );
    Ok(())
}

#[test]
fn there_is_one_write_for_each_piece_and_a_last_one(rt: HostRuntime) -> Result<(), Fail> {
    let formula = formula_of(rt.alloc(), 5_000)?;
    let mut text = Vec::new(rt.alloc());
    put_dimacs(&formula, &mut text)?;
    let writes = (text.len() / PIECE) as u64;
    assert!(rt; writes > 2);

    let mut sink = MemSink::new(rt.alloc());
    sink.fail_at(writes + 2)?;
    assert_eq!(rt; send_dimacs(&formula, &mut sink), Ok(()));
    Ok(())
}

#[test]
fn a_failing_write_leaves_a_prefix(rt: HostRuntime) -> Result<(), Fail> {
    let text = text_of_log(rt.alloc(), 5_000)?;
    let (encoding, log) = log_of(rt.alloc(), text.as_slice())?;
    let last = (text.len() / PIECE) as u64;
    for write in 1..last {
        let mut sink = MemSink::new(rt.alloc());
        sink.fail_at(write)?;
        assert_eq!(rt; send_log(encoding, &log, &mut sink), Err(Failed));
        assert!(rt;
            begins_with(text.as_slice(), sink.bytes()),
            "at write {write}"
        );
        assert!(rt; sink.bytes().len() as u64 >= (write - 1) * 32_768);
    }
    Ok(())
}
