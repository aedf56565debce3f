//! Reads logs from their texts.
ghost use Rattle.std.specs.Prelude.{◌≡◌, ◌==◌, ◌⊎◌, ◌+◌, ◌<◌, ◌≤◌, ℕ, List, [], ◌∷◌, ◌++◌, ◌↔◌, All, length, drop};
ghost use Rattle.std.specs.Prelude.{vec_len, MatchResult, IfOk, Ok, Err, Some, None, option_map, position};
ghost use Rattle.lists_core.specs.declared.list_of.TheConstants.{MOST_ITEMS};
ghost use Rattle.chain_core.specs.Lemma.{IsNumbered, IsWritable};
ghost use Rattle.chain_core.specs.Reading.{words_of, lines_of, hints_in, literals_in, lemma_in, lemmas_in, encoding_in};
ghost use Rattle.chain_core.specs.Reading.{log_of};
ghost use Rattle.chain_core.specs.Text.{log_text};
ghost use Rattle.literals_core.specs.declared.encoding.Encoding.{Encoding};
ghost use Rattle.chain_core.specs.declared.log.Lemma.{Lemma};
ghost use Rattle.chain_core.specs.Unread.{IsUnread};
ghost use Rattle.chain_core.specs.declared.fault.LogFault.{LogFault};
ghost use Rattle.chain_core.specs.declared.fault.LogFault.TheVariants.{Shape, NoMemory};

use crate::fault::LogFault;
use crate::literal::{Literal, MOST_PLACE};
use crate::log::{Lemma, Log};
use crate::number::{front_number, front_place};
use lists_core::ListOf;
use literals_core::Encoding;
use std::alloc::{AllocError, Global};

/// The most bytes of a text that is read: 64 MiB.
pub const MOST_BYTES: usize = 67_108_864;

/// Reads the text of a log: its encoding and its lemmas. Time is linear in the length of the text.
pub fn read_log(alloc: Global, bytes: &[u8]) -> Result<(Encoding, Log), LogFault>
    requires { length bytes.now ≤ 67108864 }
    ensures answer { MatchResult result (λ read. log_of bytes.now ≡ Ok read)
        (λ fault. (fault ≡ NoMemory) ⊎ (log_of bytes.now ≡ Err fault)) }

    // A text is read exactly when it is that of an encoding and of lemmas with numbers within their limits.
    ensures text { (encoding : Encoding) (log : List Lemma)
        → (log_of bytes.now ≡ Ok (encoding, log)) ↔ ((bytes.now ≡ log_text encoding log) × All IsWritable log) }

    // It is refused if it does not begin with the line of an encoding, or else at the first line that is not a lemma's.
    ensures cause { (fault : LogFault) → (log_of bytes.now ≡ Err fault) ↔ IsUnread bytes.now fault }
{
    let Some(end) = line_end(bytes) else {
        return Err(LogFault::Header);
    };
    let Some(encoding) = encoding_of(&bytes[..end]) else {
        return Err(LogFault::Header);
    };
    let log = read_lemmas(alloc, bytes, end + 1)?;
    Ok((encoding, log))
}

/// Where the first line ends.
fn line_end(text: &[u8]) -> Option<usize>
    ensures { result ≡ position (λ b. b == 10) text.now }
{
    text.iter().position(|b| *b == b'\n')
}

/// The encoding that a first line names.
fn encoding_of(line: &[u8]) -> Option<Encoding>
    ensures { result ≡ encoding_in line.now }
{
    if line == b"lincs-refutation 1 coalitions".as_slice() {
        Some(Encoding::Coalitions)
    } else if line == b"lincs-refutation 1 separation".as_slice() {
        Some(Encoding::Separation)
    } else {
        None
    }
}

/// Reads the lemmas from the second line on, which begins at this place.
fn read_lemmas(alloc: Global, bytes: &[u8], from: usize) -> Result<Log, LogFault>
    requires few { length bytes.now ≤ MOST_BYTES }
    requires from { from ≤ length bytes.now }
    ensures { MatchResult result (λ log. lemmas_in 2 (lines_of (drop from bytes.now)) ≡ Ok log)
        (λ fault. (fault ≡ NoMemory) ⊎ (lemmas_in 2 (lines_of (drop from bytes.now)) ≡ Err fault)) }
{
    let mut log = Log::new(alloc);
    let mut literals = Vec::new(alloc);
    let mut hints = Vec::new(alloc);
    let mut line = 2;
    let mut at = from;
    while at < bytes.len() {
        let rest = &bytes[at..];
        let Some(len) = line_end(rest) else {
            return Err(LogFault::Shape(line));
        };
        let text = &rest[..len];
        let lemma = read_lemma(alloc, text, line, &mut literals, &mut hints)?;
        log.add(lemma)?;
        at += len + 1;
        line += 1;
    }
    Ok(log)
}

/// Reads the lemma of a line. The two vectors are room for its numbers.
fn read_lemma(
    alloc: Global,
    text: &[u8],
    line: u32,
    literals: &mut Vec<Literal>,
    hints: &mut Vec<u32>,
) -> Result<Lemma, LogFault>
    requires { length text.now ≤ MOST_BYTES }
    ensures answer { MatchResult result (λ lemma. lemma_in text.now ≡ Some lemma)
        (λ fault. (fault ≡ NoMemory) ⊎ ((fault ≡ Shape line) × (lemma_in text.now ≡ None))) }
    ensures numbered { IfOk result IsNumbered }
{
    literals.clear();
    hints.clear();
    let Some(id) = front_number(text) else {
        return Err(LogFault::Shape(line));
    };
    if id.value == 0 {
        return Err(LogFault::Shape(line));
    }
    if id.len == text.len() {
        return Err(LogFault::Shape(line));
    }
    let next = read_literals(text, id.len + 1, line, literals)?;
    read_hints(text, next, line, hints)?;
    Ok(Lemma {
        id: id.value as u32,
        literals: exact_list(alloc, literals.as_slice())?,
        hints: exact_list(alloc, hints.as_slice())?,
    })
}

/// Reads literals up to the word `0`, and returns where the hints begin.
fn read_literals(
    text: &[u8],
    from: usize,
    line: u32,
    literals: &mut Vec<Literal>,
) -> Result<usize, LogFault>
    requires few { length text.now ≤ MOST_BYTES }
    requires from { from ≤ length text.now }
    ensures answer { MatchResult result
        (λ next. (next ≤ length text.now) × ((read : List ℕ) × (literals.new.items ≡ literals.old.items ++ read)
        × (literals_in (words_of (drop from text.now))
        ≡ option_map (λ hs. (read, hs)) (hints_in (words_of (drop next text.now))))))
        (λ fault. (fault ≡ NoMemory) ⊎ ((fault ≡ Shape line) × (literals_in (words_of (drop from text.now)) ≡ None))) }
    ensures few { vec_len literals.new ≤ vec_len literals.old + length text.now }
{
    let mut at = from;
    loop {
        let Some(word) = front_place(&text[at..]) else {
            return Err(LogFault::Shape(line));
        };
        let end = at + word.len;
        if end == text.len() {
            return Err(LogFault::Shape(line));
        }
        if word.value == 0 {
            return Ok(end + 1);
        }
        if word.value < 2 || word.value > u64::from(MOST_PLACE) {
            return Err(LogFault::Shape(line));
        }
        literals.push(Literal::at(word.value as u32))?;
        at = end + 1;
    }
}

/// Reads hints up to the word `0`, which ends the line.
fn read_hints(text: &[u8], from: usize, line: u32, hints: &mut Vec<u32>) -> Result<(), LogFault>
    requires few { length text.now ≤ MOST_BYTES }
    requires from { from ≤ length text.now }
    ensures answer { MatchResult result
        (λ _. (read : List ℕ) × (hints.new.items ≡ hints.old.items ++ read)
        × (hints_in (words_of (drop from text.now)) ≡ Some read))
        (λ fault. (fault ≡ NoMemory) ⊎ ((fault ≡ Shape line) × (hints_in (words_of (drop from text.now)) ≡ None))) }
    ensures few { vec_len hints.new ≤ vec_len hints.old + length text.now }
{
    let mut at = from;
    loop {
        let Some(word) = front_number(&text[at..]) else {
            return Err(LogFault::Shape(line));
        };
        let end = at + word.len;
        if word.value == 0 {
            if end == text.len() {
                return Ok(());
            }
            return Err(LogFault::Shape(line));
        }
        if end == text.len() {
            return Err(LogFault::Shape(line));
        }
        hints.push(word.value as u32)?;
        at = end + 1;
    }
}

/// The items as a list without spare room.
fn exact_list<T: Copy>(alloc: Global, items: &[T]) -> Result<ListOf<T>, AllocError>
    requires { length items.now ≤ MOST_ITEMS }
    ensures { IfOk result (λ list. list ≡ items.now) }
{
    let items = Vec::from_slice(alloc, items)?;
    Ok(ListOf::from_vec(items))
}
