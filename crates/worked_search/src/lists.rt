//! Lists and rows at a concrete type of items.
ghost use Rattle.std.specs.Prelude.{◌≡◌, IfOk, length};

use lists_core::ListOf;
use rows_core::Rows;
use std::alloc::{AllocError, Global};
use std::test::Fail;

/// Three rows, the second of them empty, with the first two items of the third exchanged.
fn three_rows(alloc: Global) -> Result<Rows<u8>, AllocError>
    ensures { IfOk result (λ rows. length rows ≡ 3) }
{
    let mut rows = Rows::new(alloc);
    rows.push(&[1u8, 2, 3])?;
    rows.push(&[])?;
    rows.push(&[4, 5])?;
    rows.swap(2, 0, 1);
    Ok(rows)
}

#[test]
fn rows_are_kept_apart(rt: HostRuntime) -> Result<(), Fail> {
    let rows = three_rows(rt.alloc())?;
    assert_eq!(rt; rows.count(), 3);
    assert_eq!(rt; rows.row(0), &[1u8, 2, 3][..]);
    assert_eq!(rt; rows.row(1), &[][..]);
    assert_eq!(rt; rows.row(2), &[5u8, 4][..]);
    Ok(())
}

#[test]
fn items_keep_the_order_of_push(rt: HostRuntime) -> Result<(), Fail> {
    let mut masks = ListOf::new(rt.alloc());
    masks.push(3u32)?;
    masks.push(1)?;
    assert_eq!(rt; (masks.len(), *masks.get(1)), (2, 1));
    assert_eq!(rt; masks.as_slice(), &[3u32, 1][..]);
    assert_eq!(rt; masks.into_vec().as_slice(), &[3u32, 1][..]);
    Ok(())
}
