//! What no clause says: that tables are read and written with ample memory.
ghost use Rattle.table_core.specs.Table.{IsTableOf};

use crate::files::{SPEED, examples_of, problem_of, table_of};
use problem_core::Problem;
use std::alloc::{AllocError, Global};
use std::test::Fail;
use table_core::{Table, put_header, put_row};

/// Appends the next row with the category Good, by each of the two ways to do so.
fn put_two(
    alloc: Global,
    problem: &Problem,
    table: &mut Table,
    out: &mut Vec<u8>,
) -> Result<(), Fail>
    requires { IsTableOf problem.now table.old }
{
    let row = table.next(problem)?.ok_or("no row")?;
    put_row(alloc, &row, "Good", out)?;
    if table.advance(problem)? {
        table.put_current("Good", out)?;
    }
    Ok(())
}

/// The header of a problem's tables.
fn header_of(alloc: Global, problem: &Problem) -> Result<Vec<u8>, AllocError> {
    let mut out = Vec::new(alloc);
    put_header(alloc, problem, &mut out)?;
    Ok(out)
}

/// Appends the first two rows of a text.
fn put_first_two(
    alloc: Global,
    problem: &Problem,
    text: &str,
    out: &mut Vec<u8>,
) -> Result<(), Fail> {
    let mut table = table_of(alloc, problem, text)?;
    put_two(alloc, problem, &mut table, out)
}

/// The header and the first two rows of a text as they are written.
fn written(alloc: Global, text: &str) -> Result<Vec<u8>, Fail> {
    let problem = problem_of(alloc, SPEED)?;
    let mut out = header_of(alloc, &problem)?;
    put_first_two(alloc, &problem, text, &mut out)?;
    Ok(out)
}

/// The category of the last of the examples of a text, of which there are two.
fn second_of_two(alloc: Global, text: &str) -> Result<u32, Fail> {
    let problem = problem_of(alloc, SPEED)?;
    let two = examples_of(alloc, &problem, text)?;
    if two.count() == 2 {
        Ok(two.category(1))
    } else {
        Err("not two".into())
    }
}

#[test]
fn comments_free_columns_and_quotes_are_read(rt: HostRuntime) -> Result<(), Fail> {
    let text = "\u{feff}# by hand\ncategory,Speed,name\r\n,7,\"a, b\"\r\nBad,3,\"c \"\"d\"\"\"\n";
    let out = written(rt.alloc(), text)?;
    let same = out.as_slice()
        == "name,Speed,category\n\"a, b\",7,Good\n\"c \"\"d\"\"\",3,Good\n".as_bytes();
    assert!(rt; same);
    Ok(())
}

#[test]
fn rows_with_a_category_are_examples(rt: HostRuntime) -> Result<(), Fail> {
    let text = "name,Speed,category\na,3,Bad\nb,5,\nc,7,Good\n";
    assert_eq!(rt; second_of_two(rt.alloc(), text)?, 1);
    Ok(())
}
