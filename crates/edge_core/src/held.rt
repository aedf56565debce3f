//! Files in memory, the newest first.
ghost use Rattle.std.specs.Prelude.{◌≡◌, ◌+◌, ◌-◌, ◌<◌, ◌≤◌, ◌++◌, [], None, length, take, drop, IfNone, IfSome, OnOk};
ghost use Rattle.std.specs.Prelude.{OnErr, ◌⊎◌};
ghost use Rattle.edge_core.specs.Held.{held_in, Holds, bytes_at, bytes_of_place};

use std::alloc::{AllocError, Global};

#[derive(Drop)]
pub(crate) struct HeldFile {
    pub(crate) name: String,
    pub(crate) bytes: Vec<u8>,
}

// The place of the newest file of this name.
pub(crate) fn place_of(files: &[HeldFile], name: &str) -> Option<usize>
    ensures none { IfNone result (held_in files.now name.now ≡ None) }
    ensures place { IfSome result (λ i. i < length files.now) }
    ensures bytes { IfSome result (λ i. held_in files.now name.now ≡ bytes_at files.now i) }
{
    for (i, file) in files.iter().enumerate() {
        if file.name.as_str() == name {
            return Some(i);
        }
    }
    None
}

// Puts a file in front of the others, so that it is the newest.
pub(crate) fn put_first(
    alloc: Global,
    files: &mut Vec<HeldFile>,
    name: &str,
    bytes: &[u8],
) -> Result<(), AllocError>
    ensures ok { OnOk result (Holds (held_in files.old.items) (held_in files.new.items) name.now bytes.now) }
    ensures err { OnErr result (files.new.items ≡ files.old.items) }
{
    let name = String::from_str(alloc, name)?;
    let bytes = bytes.to_vec(alloc)?;
    files.insert(0, HeldFile { name, bytes })?;
    Ok(())
}

// Copies what fits of the source to the front of the buffer.
fn copy_front(source: &[u8], buf: &mut [u8]) -> usize
    ensures within { result ≤ length source.now }
    ensures room { result ≤ length buf.old }
    ensures copied { buf.new ≡ take result source.now ++ drop result buf.old }
    ensures whole { (result ≡ length source.now) ⊎ (result ≡ length buf.old) }
{
    let count = source.len().min(buf.len());
    buf[..count].copy_from_slice(&source[..count]);
    count
}

// Copies the next bytes of a file, of which some were taken.
#[tactic(auto, using(crate::proofs::Copied::copied_next, crate::proofs::Copied::copied_end, crate::proofs::Copied::copied_rest))]
fn copy_next(bytes: &[u8], taken: usize, buf: &mut [u8]) -> usize
    ensures bound { result ≤ length buf.new }
    ensures small { result ≤ length bytes.now - taken }
    ensures next { drop taken bytes.now ≡ take result buf.new ++ drop (taken + result) bytes.now }
    ensures end { result ≡ 0 → 0 < length buf.new → drop (taken + result) bytes.now ≡ [] }
    ensures rest { drop result buf.new ≡ drop result buf.old }
{
    if taken >= bytes.len() {
        return 0;
    }
    copy_front(&bytes[taken..], buf)
}

// Copies the next bytes of the file at a place. Without such a file it copies nothing.
pub(crate) fn copy_next_at(
    files: &[HeldFile],
    place: Option<usize>,
    taken: usize,
    buf: &mut [u8],
) -> usize
    ensures bound { result ≤ length buf.new }
    ensures small { result ≤ length (bytes_of_place files.now place) - taken }
    ensures next { drop taken (bytes_of_place files.now place) ≡ take result buf.new
        ++ drop (taken + result) (bytes_of_place files.now place) }
    ensures end { result ≡ 0 → 0 < length buf.new → drop (taken + result) (bytes_of_place files.now place) ≡ [] }
    ensures rest { drop result buf.new ≡ drop result buf.old }
{
    let Some(place) = place else {
        return copy_next(&[], taken, buf);
    };
    if place >= files.len() {
        return copy_next(&[], taken, buf);
    }
    let file = &files[place];
    copy_next(&file.bytes, taken, buf)
}
