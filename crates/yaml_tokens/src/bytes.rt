//! What is at a place of a line.
ghost use Rattle.std.specs.Prelude.{◌≡◌, drop};
ghost use Rattle.yaml_tokens.specs.Tokens as spec;

/// Whether a space or the end is there.
pub fn is_blank_at(bytes: &[u8], at: usize) -> bool
    ensures { result ≡ spec.is_blank_next (drop at bytes.now) }
{
    at >= bytes.len() || bytes[at] == b' '
}

/// Whether a `#` is there.
pub fn is_hash_at(bytes: &[u8], at: usize) -> bool
    ensures { result ≡ spec.is_hash_next (drop at bytes.now) }
{
    at < bytes.len() && bytes[at] == b'#'
}

/// Whether a byte is one of `, [ ] { }`.
fn is_flow(b: u8) -> bool
    ensures { result ≡ spec.is_flow b }
{
    b == b',' || b == b'[' || b == b']' || b == b'{' || b == b'}'
}

/// Whether one of `, [ ] { }` is there.
pub fn is_flow_at(bytes: &[u8], at: usize) -> bool
    ensures { result ≡ spec.is_flow_next (drop at bytes.now) }
{
    at < bytes.len() && is_flow(bytes[at])
}

/// Whether a space or the end is there, or inside brackets one of `, [ ] { }`.
pub fn is_separated_at(depth: usize, bytes: &[u8], at: usize) -> bool
    ensures { result ≡ spec.is_separated depth (drop at bytes.now) }
{
    is_blank_at(bytes, at) || (0 < depth && is_flow_at(bytes, at))
}

/// Whether a comma or a closing bracket is there.
pub fn is_end_at(bytes: &[u8], at: usize) -> bool
    ensures { result ≡ spec.is_end_next (drop at bytes.now) }
{
    at < bytes.len() && (bytes[at] == b',' || bytes[at] == b']')
}

/// Whether a colon is there, before a space or the end.
pub fn is_colon_at(bytes: &[u8], at: usize) -> bool
    ensures { result ≡ spec.is_colon_next (drop at bytes.now) }
{
    at < bytes.len() && bytes[at] == b':' && is_blank_at(bytes, at + 1)
}
