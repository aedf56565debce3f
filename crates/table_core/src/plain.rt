//! Fields that need no quotes, appended in the room that a text has. Most fields are of this kind. A text comes and goes
//! by value, so that its length can be in a register. `Err` has the text with a part of what was to be appended.
ghost use Rattle.std.specs.Prelude.{◌≡◌, ◌==◌, ℕ, List, [], ◌∷◌, ◌++◌, true, false, ◌+◌, ◌<◌, ◌≤◌, length};
ghost use Rattle.std.specs.Prelude.{slice_index_or, vec_len, vec_capacity, IfOk, IfErr, OnErr, OnOk};
ghost use Rattle.std.specs.List.{flat_map, list_any};
ghost use Rattle.table_core.specs.Written.{field_text, is_special, next_text, quoted, record_text};

use crate::cells::Cells;
use std::simd::prelude::*;

/// Whether a byte calls for quotes around its field.
fn is_special(b: u8) -> bool
    ensures { result ≡ is_special b }
{
    b == b',' || b == b'"' || b == b'\r' || b == b'\n'
}

/// Whether one of eight bytes is this one.
#[inline(always)]
fn has_byte(bytes: u8x8, byte: u8) -> bool
    ensures { result ≡ list_any (λ b. b == byte) bytes }
{
    bytes.simd_eq(u8x8::splat(byte)).to_bitmask() != 0
}

/// Whether one of eight bytes calls for quotes.
#[inline(always)]
fn has_special(block: &[u8; 8]) -> bool
    ensures { result ≡ list_any is_special block.now }
{
    let bytes = u8x8::from_array(*block);
    has_byte(bytes, b',') | has_byte(bytes, b'"') | has_byte(bytes, b'\r') | has_byte(bytes, b'\n')
}

/// Appends eight bytes. As one number they are one write.
#[inline(always)]
fn push_eight(block: &[u8; 8], mut text: Vec<u8>) -> Vec<u8>
    requires { vec_len text + 8 ≤ vec_capacity text }
    ensures items { result.items ≡ text.items ++ block.now }
    ensures len { vec_len result ≡ vec_len text + 8 }
    ensures room { vec_capacity result ≡ vec_capacity text }
{
    let [a, b, c, d, e, f, g, h] = u64::from_le_bytes(*block).to_le_bytes();
    text.push_reserved(a);
    text.push_reserved(b);
    text.push_reserved(c);
    text.push_reserved(d);
    text.push_reserved(e);
    text.push_reserved(f);
    text.push_reserved(g);
    text.push_reserved(h);
    text
}

/// Appends bytes that need no quotes, one by one.
#[inline(always)]
fn push_bytes(bytes: &[u8], mut text: Vec<u8>) -> Result<Vec<u8>, Vec<u8>>
    requires { vec_len text + length bytes.now ≤ vec_capacity text }
    ensures whole { IfOk result (λ longer. longer.items ≡ text.items ++ bytes.now) }
    ensures plain { OnOk result (list_any is_special bytes.now ≡ false) }
    ensures part { IfErr result (λ longer. (more : List ℕ) × (longer.items ≡ text.items ++ more)) }
    ensures special { OnErr result (list_any is_special bytes.now ≡ true) }
{
    for byte in bytes {
        if is_special(*byte) {
            return Err(text);
        }
        text.push_reserved(*byte);
    }
    Ok(text)
}

/// Appends a field that needs no quotes, eight bytes at a time.
#[inline(always)]
pub fn push_plain(field: &[u8], mut text: Vec<u8>) -> Result<Vec<u8>, Vec<u8>>
    requires { vec_len text + length field.now ≤ vec_capacity text }
    ensures whole { IfOk result (λ longer. longer.items ≡ text.items ++ field_text field.now) }
    ensures part { IfErr result (λ longer. (more : List ℕ) × (longer.items ≡ text.items ++ more)) }
    ensures special { OnErr result (field_text field.now ≡ quoted field.now) }
{
    let mut rest = field;
    while let Some((block, more)) = rest.split_first_chunk::<8>() {
        if has_special(block) {
            return Err(text);
        }
        text = push_eight(block, text);
        rest = more;
    }
    push_bytes(rest, text)
}

/// Appends a field that needs no quotes, if there is room for it.
#[inline(always)]
fn push_field(field: &[u8], text: Vec<u8>) -> Result<Vec<u8>, Vec<u8>>
    ensures whole { IfOk result (λ longer. longer.items ≡ text.items ++ field_text field.now) }
    ensures part { IfErr result (λ longer. (more : List ℕ) × (longer.items ≡ text.items ++ more)) }
{
    if text.capacity() - text.len() < field.len() {
        return Err(text);
    }
    push_plain(field, text)
}

/// Appends a byte, if there is room for it.
#[inline(always)]
fn push_byte(byte: u8, mut text: Vec<u8>) -> Result<Vec<u8>, Vec<u8>>
    ensures whole { IfOk result (λ longer. longer.items ≡ text.items ++ byte ∷ []) }
    ensures part { IfErr result (λ longer. (more : List ℕ) × (longer.items ≡ text.items ++ more)) }
{
    if text.len() == text.capacity() {
        return Err(text);
    }
    text.push_reserved(byte);
    Ok(text)
}

/// Appends a comma and a field that needs no quotes, if there is room.
#[inline(always)]
fn push_next(field: &[u8], text: Vec<u8>) -> Result<Vec<u8>, Vec<u8>>
    ensures whole { IfOk result (λ longer. longer.items ≡ text.items ++ next_text field.now) }
    ensures part { IfErr result (λ longer. (more : List ℕ) × (longer.items ≡ text.items ++ more)) }
{
    let text = push_byte(b',', text)?;
    push_field(field, text)
}

/// Appends cells that need no quotes, a comma before each, if there is room.
#[inline(always)]
fn push_cells<C: Cells>(cells: &C, mut text: Vec<u8>) -> Result<Vec<u8>, Vec<u8>>
    ensures whole { IfOk result (λ longer. longer.items ≡ text.items ++ flat_map next_text (C.cells cells.now)) }
    ensures part { IfErr result (λ longer. (more : List ℕ) × (longer.items ≡ text.items ++ more)) }
{
    for k in 0..cells.count() {
        text = push_next(cells.cell(k).as_bytes(), text)?;
    }
    Ok(text)
}

/// Appends the record of a row with a category, if no field needs quotes and there is room.
#[inline(always)]
pub fn push_record<C: Cells>(
    name: &[u8],
    cells: &C,
    category: &[u8],
    text: Vec<u8>,
) -> Result<Vec<u8>, Vec<u8>>
    ensures whole { IfOk result (λ longer. longer.items ≡ text.items
        ++ record_text (name.now ∷ (C.cells cells.now ++ category.now ∷ []))) }
    ensures part { IfErr result (λ longer. (more : List ℕ) × (longer.items ≡ text.items ++ more)) }
{
    let text = push_field(name, text)?;
    let text = push_cells(cells, text)?;
    let text = push_next(category, text)?;
    push_byte(b'\n', text)
}
