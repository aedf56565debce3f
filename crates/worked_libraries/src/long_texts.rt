//! What no clause says: what a text costs that is held many times.
use std::test::Fail;
use yaml_tokens::Text;

/// How many bytes the text has.
const BYTES: usize = 4_194_304;

/// How many times it is held. A copy of its bytes each time would take 400 GB.
const TIMES: usize = 100_000;

#[test]
fn a_long_text_held_a_hundred_thousand_times_costs_a_pointer_each_time(
    rt: HostRuntime,
) -> Result<(), Fail> {
    let mut long = String::new(rt.alloc());
    for _ in 0..BYTES / 16 {
        long.push_str("sixteen bytes ..")?;
    }
    let own = Text::of(rt.alloc(), long.as_str())?;
    let mut last = own.again(rt.alloc())?;
    let mut texts = Vec::new(rt.alloc());
    for _ in 0..TIMES {
        let next = last.again(rt.alloc())?;
        texts.push(last)?;
        last = next;
    }
    assert_eq!(rt; texts.len(), TIMES);
    assert_eq!(rt; last.as_str().len(), BYTES);
    assert!(rt; last.as_str() == long.as_str());
    Ok(())
}
