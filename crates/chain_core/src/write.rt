//! Writes the texts of formulas and of logs.
ghost use Rattle.std.specs.Prelude.{◌≡◌, [], ◌∷◌, ◌++◌, ◌≤◌, codes, decimal, All, OnOk, Ok};
ghost use Rattle.std.specs.List.{flat_map};
ghost use Rattle.lists_core.specs.Puts.{Puts};
ghost use Rattle.chain_core.specs.Literal.{IsPlace};
ghost use Rattle.chain_core.specs.Lemma.{IsNumbered, IsWritable};
ghost use Rattle.chain_core.specs.Reading.{log_of};
ghost use Rattle.chain_core.specs.declared.number.TheConstants.{MOST_ID};
ghost use Rattle.chain_core.specs.Text.{line_of, sign_text, literal_word, size_words, clause_words, dimacs_text};
ghost use Rattle.chain_core.specs.Text.{lemma_words, header_words, log_text};

use crate::formula::Formula;
use crate::literal::Literal;
use crate::log::{Lemma, Log};
use itoa::Buffer;
use literals_core::Encoding;
use std::alloc::AllocError;

/// Appends the text of a formula in the DIMACS format. If memory runs out, a prefix of the text was appended.
pub fn put_dimacs(formula: &Formula, out: &mut Vec<u8>) -> Result<(), AllocError>
    ensures text { Puts out.old.items out.new.items result (dimacs_text formula.now) }
{
    put_size(formula.variables(), formula.count(), out)?;
    put_clauses(formula, out)
}

/// Appends the text of a log, which reads as that encoding and log. If memory runs out, a prefix of the text was
/// appended.
pub fn write_log(encoding: Encoding, log: &Log, out: &mut Vec<u8>) -> Result<(), AllocError>
    ensures text { Puts out.old.items out.new.items result (log_text encoding log.now) }
    ensures reads_back { OnOk result (log_of (log_text encoding log.now) ≡ Ok (encoding, log.now)) }
{
    put_header(encoding, out)?;
    put_lemmas(log, out)
}

/// Appends the line with the numbers of variables and of clauses.
fn put_size(variables: u32, clauses: u32, out: &mut Vec<u8>) -> Result<(), AllocError>
    ensures { Puts out.old.items out.new.items result (line_of (size_words variables clauses)) }
{
    put_text(b"p cnf ", out)?;
    put_id(variables, out)?;
    put_number(clauses, out)?;
    put_text(b"\n", out)
}

/// Appends the line of each clause.
fn put_clauses(formula: &Formula, out: &mut Vec<u8>) -> Result<(), AllocError>
    ensures { Puts out.old.items out.new.items result
        (flat_map (λ clause. line_of (clause_words clause)) formula.now.clauses) }
{
    for k in 0..formula.count() {
        put_clause(formula.clause(k + 1), out)?;
    }
    Ok(())
}

/// Appends the line of a clause.
fn put_clause(literals: &[Literal], out: &mut Vec<u8>) -> Result<(), AllocError>
    ensures { Puts out.old.items out.new.items result (line_of (clause_words literals.now)) }
{
    put_literals(literals, out)?;
    put_text(b"0\n", out)
}

/// Appends the line that names the encoding.
fn put_header(encoding: Encoding, out: &mut Vec<u8>) -> Result<(), AllocError>
    ensures { Puts out.old.items out.new.items result (line_of (header_words encoding)) }
{
    put_text(header_of(encoding), out)
}

/// The line that names an encoding.
fn header_of(encoding: Encoding) -> &'static [u8]
    ensures { result.now ≡ line_of (header_words encoding) }
{
    match encoding {
        Encoding::Coalitions => b"lincs-refutation 1 coalitions\n",
        Encoding::Separation => b"lincs-refutation 1 separation\n",
    }
}

/// Appends the line of each lemma.
fn put_lemmas(log: &Log, out: &mut Vec<u8>) -> Result<(), AllocError>
    ensures text { Puts out.old.items out.new.items result (flat_map (λ lemma. line_of (lemma_words lemma)) log.now) }
    ensures writable { OnOk result (All IsWritable log.now) }
{
    for k in 0..log.count() {
        put_lemma(log.lemma(k), out)?;
    }
    Ok(())
}

/// Appends the line of a lemma.
fn put_lemma(lemma: &Lemma, out: &mut Vec<u8>) -> Result<(), AllocError>
    requires { IsNumbered lemma.now }
    ensures text { Puts out.old.items out.new.items result (line_of (lemma_words lemma.now)) }
    ensures writable { OnOk result (IsWritable lemma.now) }
{
    put_id(lemma.id, out)?;
    put_literals(lemma.literals.as_slice(), out)?;
    put_text(b"0 ", out)?;
    put_ids(lemma.hints.as_slice(), out)?;
    put_text(b"0\n", out)
}

/// Appends literals, with a space after each.
fn put_literals(literals: &[Literal], out: &mut Vec<u8>) -> Result<(), AllocError>
    ensures text { Puts out.old.items out.new.items result (flat_map (λ l. literal_word l ++ 32 ∷ []) literals.now) }
    ensures reach { OnOk result (All IsPlace literals.now) }
{
    for literal in literals {
        put_literal(*literal, out)?;
    }
    Ok(())
}

/// Appends a literal and a space.
fn put_literal(literal: Literal, out: &mut Vec<u8>) -> Result<(), AllocError>
    ensures text { Puts out.old.items out.new.items result (literal_word literal ++ 32 ∷ []) }
    ensures reach { OnOk result (IsPlace literal) }
{
    put_sign(literal, out)?;
    put_id(literal.variable(), out)
}

/// Appends the `-` of a literal that has one.
fn put_sign(literal: Literal, out: &mut Vec<u8>) -> Result<(), AllocError>
    ensures { Puts out.old.items out.new.items result (sign_text literal) }
{
    if literal.has_minus() {
        put_text(b"-", out)
    } else {
        Ok(())
    }
}

/// Appends ids, with a space after each.
fn put_ids(ids: &[u32], out: &mut Vec<u8>) -> Result<(), AllocError>
    ensures text { Puts out.old.items out.new.items result (flat_map (λ id. decimal id ++ 32 ∷ []) ids.now) }
    ensures reach { OnOk result (All (λ id. id ≤ MOST_ID) ids.now) }
{
    for id in ids {
        put_id(*id, out)?;
    }
    Ok(())
}

/// Appends an id and a space.
fn put_id(id: u32, out: &mut Vec<u8>) -> Result<(), AllocError>
    ensures text { Puts out.old.items out.new.items result (decimal id ++ 32 ∷ []) }
    ensures reach { id ≤ MOST_ID }
{
    put_number(id, out)?;
    put_text(b" ", out)
}

/// Appends a number.
fn put_number(number: u32, out: &mut Vec<u8>) -> Result<(), AllocError>
    ensures { Puts out.old.items out.new.items result (decimal number) }
{
    let mut buffer = Buffer::new();
    put_text(buffer.format(number).as_bytes(), out)
}

/// Appends a text.
fn put_text(text: &[u8], out: &mut Vec<u8>) -> Result<(), AllocError>
    ensures { Puts out.old.items out.new.items result text.now }
{
    out.extend_from_slice(text)
}
