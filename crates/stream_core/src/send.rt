//! Sends the texts of formulas and of logs.
ghost use Rattle.std.specs.Prelude.{◌≡◌, [], ◌∷◌, ◌++◌, ◌≤◌, decimal, length, All, OnOk, Ok};
ghost use Rattle.std.specs.List.{flat_map};
ghost use Rattle.edge_core.specs.Outside.{Sends};
ghost use Rattle.chain_core.specs.Literal.{IsPlace};
ghost use Rattle.chain_core.specs.Lemma.{IsNumbered, IsWritable};
ghost use Rattle.chain_core.specs.Reading.{log_of};
ghost use Rattle.chain_core.specs.declared.number.TheConstants.{MOST_ID};
ghost use Rattle.chain_core.specs.Text.{line_of, literal_word, size_words, clause_words, dimacs_text, lemma_words};
ghost use Rattle.chain_core.specs.Text.{header_words, log_text};
ghost use Rattle.stream_core.specs.Stream.{Streams};

use crate::piece::Piece;
use chain_core::{Encoding, Formula, Lemma, Literal, Log};
use edge_core::{Failed, Sink};

/// Sends the text of a formula in the DIMACS format, in pieces of about 32 KiB. Takes no memory.
///
/// At `Failed` a part of the text went out.
pub fn send_dimacs<O: Sink>(formula: &Formula, sink: &mut O) -> Result<(), Failed>
    ensures sends { Sends (O.state sink.old) (O.state sink.new) (dimacs_text formula.now) result }
{
    let mut piece = Piece::new();
    put_size(formula.variables(), formula.count(), &mut piece, sink)?;
    put_clauses(formula, &mut piece, sink)?;
    piece.send(sink)
}

/// Sends the text of a log, which reads as that encoding and log, in pieces of about 32 KiB. Takes no memory.
///
/// At `Failed` a part of the text went out.
pub fn send_log<O: Sink>(encoding: Encoding, log: &Log, sink: &mut O) -> Result<(), Failed>
    ensures sends { Sends (O.state sink.old) (O.state sink.new) (log_text encoding log.now) result }
    ensures reads_back { OnOk result (log_of (log_text encoding log.now) ≡ Ok (encoding, log.now)) }
{
    let mut piece = Piece::new();
    put_text(header_of(encoding), &mut piece, sink)?;
    put_lemmas(log, &mut piece, sink)?;
    piece.send(sink)
}

/// Puts the line with the numbers of variables and of clauses.
fn put_size<O: Sink>(
    variables: u32,
    clauses: u32,
    piece: &mut Piece,
    sink: &mut O,
) -> Result<(), Failed>
    ensures { Streams (O.state sink.old) (O.state sink.new) piece.old piece.new (line_of (size_words variables clauses))
        result }
{
    put_text(b"p cnf ", piece, sink)?;
    put_id(variables, piece, sink)?;
    piece.make_room(sink)?;
    piece.add_number(clauses);
    piece.add_text(b"\n");
    Ok(())
}

/// Puts the line of each clause.
fn put_clauses<O: Sink>(formula: &Formula, piece: &mut Piece, sink: &mut O) -> Result<(), Failed>
    ensures { Streams (O.state sink.old) (O.state sink.new) piece.old piece.new
        (flat_map (λ clause. line_of (clause_words clause)) formula.now.clauses) result }
{
    for k in 0..formula.count() {
        put_clause(formula.clause(k + 1), piece, sink)?;
    }
    Ok(())
}

/// Puts the line of a clause.
fn put_clause<O: Sink>(literals: &[Literal], piece: &mut Piece, sink: &mut O) -> Result<(), Failed>
    ensures { Streams (O.state sink.old) (O.state sink.new) piece.old piece.new (line_of (clause_words literals.now))
        result }
{
    put_literals(literals, piece, sink)?;
    put_text(b"0\n", piece, sink)
}

/// The line that names an encoding.
fn header_of(encoding: Encoding) -> &'static [u8]
    ensures text { result.now ≡ line_of (header_words encoding) }
    ensures short { length result.now ≤ 64 }
{
    match encoding {
        Encoding::Coalitions => b"lincs-refutation 1 coalitions\n",
        Encoding::Separation => b"lincs-refutation 1 separation\n",
    }
}

/// Puts the line of each lemma.
fn put_lemmas<O: Sink>(log: &Log, piece: &mut Piece, sink: &mut O) -> Result<(), Failed>
    ensures streams { Streams (O.state sink.old) (O.state sink.new) piece.old piece.new
        (flat_map (λ lemma. line_of (lemma_words lemma)) log.now) result }
    ensures writable { OnOk result (All IsWritable log.now) }
{
    for k in 0..log.count() {
        put_lemma(log.lemma(k), piece, sink)?;
    }
    Ok(())
}

/// Puts the line of a lemma.
fn put_lemma<O: Sink>(lemma: &Lemma, piece: &mut Piece, sink: &mut O) -> Result<(), Failed>
    requires { IsNumbered lemma.now }
    ensures streams { Streams (O.state sink.old) (O.state sink.new) piece.old piece.new
        (line_of (lemma_words lemma.now)) result }
    ensures writable { OnOk result (IsWritable lemma.now) }
{
    put_id(lemma.id, piece, sink)?;
    put_literals(lemma.literals.as_slice(), piece, sink)?;
    put_text(b"0 ", piece, sink)?;
    put_ids(lemma.hints.as_slice(), piece, sink)?;
    put_text(b"0\n", piece, sink)
}

/// Puts literals, with a space after each.
fn put_literals<O: Sink>(
    literals: &[Literal],
    piece: &mut Piece,
    sink: &mut O,
) -> Result<(), Failed>
    ensures streams { Streams (O.state sink.old) (O.state sink.new) piece.old piece.new
        (flat_map (λ l. literal_word l ++ 32 ∷ []) literals.now) result }
    ensures reach { OnOk result (All IsPlace literals.now) }
{
    for literal in literals {
        put_literal(*literal, piece, sink)?;
    }
    Ok(())
}

/// Puts a literal and a space.
fn put_literal<O: Sink>(literal: Literal, piece: &mut Piece, sink: &mut O) -> Result<(), Failed>
    ensures streams { Streams (O.state sink.old) (O.state sink.new) piece.old piece.new
        (literal_word literal ++ 32 ∷ []) result }
    ensures reach { OnOk result (IsPlace literal) }
{
    piece.make_room(sink)?;
    piece.add_literal(literal);
    piece.add_byte(b' ');
    Ok(())
}

/// Puts ids, with a space after each.
fn put_ids<O: Sink>(ids: &[u32], piece: &mut Piece, sink: &mut O) -> Result<(), Failed>
    ensures streams { Streams (O.state sink.old) (O.state sink.new) piece.old piece.new
        (flat_map (λ id. decimal id ++ 32 ∷ []) ids.now) result }
    ensures reach { OnOk result (All (λ id. id ≤ MOST_ID) ids.now) }
{
    for id in ids {
        put_id(*id, piece, sink)?;
    }
    Ok(())
}

/// Puts an id and a space.
fn put_id<O: Sink>(id: u32, piece: &mut Piece, sink: &mut O) -> Result<(), Failed>
    ensures streams { Streams (O.state sink.old) (O.state sink.new) piece.old piece.new (decimal id ++ 32 ∷ []) result }
    ensures reach { id ≤ MOST_ID }
{
    piece.make_room(sink)?;
    piece.add_number(id);
    piece.add_byte(b' ');
    Ok(())
}

/// Puts a short text.
fn put_text<O: Sink>(text: &[u8], piece: &mut Piece, sink: &mut O) -> Result<(), Failed>
    requires { length text.now ≤ 64 }
    ensures { Streams (O.state sink.old) (O.state sink.new) piece.old piece.new text.now result }
{
    piece.make_room(sink)?;
    piece.add_text(text);
    Ok(())
}
