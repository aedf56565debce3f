//! What no clause says: what the system's files and outputs give and take, and that calls return no fault with ample
//! memory.
use edge_core::*;
use std::fs;
use std::io::{self, Write};
use std::test::Fail;

/// Takes at most three bytes a call, and nothing once it holds seven.
#[derive(Drop)]
struct Narrow {
    taken: Vec<u8>,
}

impl Write for Narrow {
    fn write(&mut self, buf: &[u8]) -> io::Result<usize> {
        let room = 7usize.saturating_sub(self.taken.len());
        let count = buf.len().min(3).min(room);
        self.taken.extend_from_slice(&buf[..count])?;
        Ok(count)
    }

    fn flush(&mut self) -> io::Result<()> {
        Ok(())
    }
}

fn is_same(got: &Result<Vec<u8>, LoadFault>, want: Result<&[u8], LoadFault>) -> bool {
    match (got, want) {
        (Ok(bytes), Ok(text)) => bytes.as_slice() == text,
        (Err(fault), Err(other)) => *fault == other,
        _ => false,
    }
}

#[test]
fn files_of_the_system_are_read_whole(rt: HostRuntime) -> Result<(), Fail> {
    let short = b"a short file\n".as_slice();
    let mut long = Vec::new(rt.alloc());
    for k in 0..200_000u32 {
        long.push((k % 251) as u8)?;
    }
    fs::write(&rt, "edge_short.txt", short)?;
    fs::write(&rt, "edge_long.txt", long.as_slice())?;
    fs::write(&rt, "edge_empty.txt", b"".as_slice())?;
    fs::create_dir(&rt, "edge_folder")?;
    let mut shelf = FileShelf::new(&rt);
    for (name, want) in [
        ("edge_short.txt", Ok(short)),
        ("edge_long.txt", Ok(long.as_slice())),
        ("edge_missing.txt", Err(LoadFault::Read)),
        ("edge_empty.txt", Ok(b"".as_slice())),
        ("edge_folder", Err(LoadFault::Read)),
        ("edge_short.txt", Ok(short)),
    ] {
        let got = load(rt.alloc(), &mut shelf, name);
        assert!(rt; is_same(&got, want), "{name}");
    }
    for name in ["edge_short.txt", "edge_long.txt", "edge_empty.txt"] {
        fs::remove_file(&rt, name)?;
    }
    fs::remove_dir(&rt, "edge_folder")?;
    Ok(())
}

#[test]
fn a_writer_that_takes_little_gets_the_whole_text_in_order(rt: HostRuntime) -> Result<(), Fail> {
    let mut narrow = Narrow {
        taken: Vec::new(rt.alloc()),
    };
    let mut sink = StdSink::new(&mut narrow);
    assert_eq!(rt; put_all(&mut sink, b"four, "), Ok(()));
    assert_eq!(rt; put_all(&mut sink, b""), Ok(()));
    assert_eq!(rt; put_all(&mut sink, b"five"), Err(Failed));
    drop(sink);
    assert_eq!(rt; narrow.taken.as_slice(), b"four, f".as_slice());
    Ok(())
}

#[test]
fn memory_holds_what_was_put_there(rt: HostRuntime) -> Result<(), Fail> {
    let mut shelf = MemShelf::new(rt.alloc());
    shelf.add("a", b"one")?;
    shelf.add("b", b"two")?;
    shelf.add("a", b"three")?;
    shelf.fail_at(5)?;
    for (name, want) in [
        ("a", Ok(b"three".as_slice())),
        ("b", Err(LoadFault::Read)),
        ("b", Ok(b"two".as_slice())),
    ] {
        let got = load(rt.alloc(), &mut shelf, name);
        assert!(rt; is_same(&got, want), "{name}");
    }
    let mut shelf = SafeShelf::new(rt.alloc());
    shelf.add("a", b"one")?;
    for (name, want) in [("a", b"one".as_slice()), ("b", b"".as_slice())] {
        let got = load(rt.alloc(), &mut shelf, name);
        assert!(rt; is_same(&got, Ok(want)), "{name}");
    }
    let mut sink = MemSink::new(rt.alloc());
    sink.fail_at(2)?;
    assert_eq!(rt; put_all(&mut sink, b"one"), Ok(()));
    assert_eq!(rt; put_all(&mut sink, b"two"), Err(Failed));
    assert_eq!(rt; put_all(&mut sink, b"three"), Ok(()));
    assert_eq!(rt; sink.bytes(), b"onethree".as_slice());
    Ok(())
}

#[test]
fn a_file_has_at_most_64_mebibytes(rt: HostRuntime) -> Result<(), Fail> {
    let longer = Vec::from_elem(rt.alloc(), 7u8, 67_108_865)?;
    let most = &longer.as_slice()[1..];
    let mut shelf = MemShelf::new(rt.alloc());
    shelf.add("most", most)?;
    shelf.add("longer", longer.as_slice())?;
    for (name, want) in [("longer", Err(LoadFault::TooLong)), ("most", Ok(most))] {
        let got = load(rt.alloc(), &mut shelf, name);
        assert!(rt; is_same(&got, want), "{name}");
    }
    Ok(())
}

#[test]
fn a_late_fault_is_a_fault(rt: HostRuntime) -> Result<(), Fail> {
    let pieces = Vec::from_elem(rt.alloc(), 7u8, 200_000)?;
    let mut shelf = MemShelf::new(rt.alloc());
    shelf.add("pieces", pieces.as_slice())?;
    shelf.fail_at(4)?;
    for want in [Err(LoadFault::Read), Ok(pieces.as_slice())] {
        let got = load(rt.alloc(), &mut shelf, "pieces");
        assert!(rt; is_same(&got, want));
    }
    Ok(())
}
