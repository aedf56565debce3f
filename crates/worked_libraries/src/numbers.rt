//! What no clause says: that appending succeeds with ample memory; and worked values, which come
//! from the grammar and the place values of decimals.

use fixed_core::{Fixed, FixedFault, put_fixed, read_fixed};
use std::test::Fail;

const ONE: i128 = 1_000_000_000_000_000_000;

const MILLION: u32 = 1_000_000;

#[test]
fn texts_read_as_their_units(rt: HostRuntime) -> Result<(), Fail> {
    let cases: [(&str, i128); 20] = [
        ("7", 7 * ONE),
        ("-7", -7 * ONE),
        ("+7", 7 * ONE),
        ("1.", ONE),
        (".5", ONE / 2),
        ("-0.50", -ONE / 2),
        ("007.250", 7 * ONE + ONE / 4),
        ("2e3", 2000 * ONE),
        ("2E+3", 2000 * ONE),
        ("2500e-3", 2 * ONE + ONE / 2),
        ("5.96046448e-08", 59_604_644_800),
        ("0.000000000000000001", 1),
        ("0.0000000000000000010", 1),
        ("1e-18", 1),
        ("1e18", ONE * ONE),
        ("-1000000000000000000.000000000000000000000", -ONE * ONE),
        ("100000000000000000000000000000000000000000e-41", ONE),
        ("0.000000000000000000000e5", 0),
        ("0e-99", 0),
        ("-0", 0),
    ];
    for (text, units) in cases.iter() {
        assert_eq!(rt; read_fixed(text).ok(), Fixed::of(*units));
    }
    Ok(())
}

#[test]
fn texts_are_refused_by_the_first_fault(rt: HostRuntime) -> Result<(), Fail> {
    let cases: [(&str, FixedFault); 20] = [
        ("", FixedFault::Shape),
        (".", FixedFault::Shape),
        ("-", FixedFault::Shape),
        ("1e", FixedFault::Shape),
        ("1e+", FixedFault::Shape),
        ("e5", FixedFault::Shape),
        ("1e5.", FixedFault::Shape),
        ("1.2.3", FixedFault::Shape),
        (" 1", FixedFault::Shape),
        ("1 ", FixedFault::Shape),
        ("+-1", FixedFault::Shape),
        ("1_000", FixedFault::Shape),
        ("1e-19", FixedFault::Digits),
        ("0.0000000000000000001", FixedFault::Digits),
        (
            "1000000000000000000.0000000000000000001",
            FixedFault::Digits,
        ),
        ("1e-99999999999999999999999999", FixedFault::Digits),
        ("1000000000000000000.1", FixedFault::Range),
        ("-1000000000000000000.000000000000000001", FixedFault::Range),
        ("1e19", FixedFault::Range),
        ("1e99999999999999999999999999", FixedFault::Range),
    ];
    for (text, fault) in cases.iter() {
        assert_eq!(rt; read_fixed(text).err(), Some(*fault));
    }
    Ok(())
}

#[test]
fn numbers_are_spelled_with_ample_memory(rt: HostRuntime) -> Result<(), Fail> {
    let cases: [(i128, &str); 8] = [
        (0, "0"),
        (ONE, "1"),
        (-ONE / 2, "-0.5"),
        (1, "0.000000000000000001"),
        (1200 * ONE, "1200"),
        (59_604_644_800, "0.0000000596046448"),
        (ONE * ONE, "1000000000000000000"),
        (1 - ONE * ONE, "-999999999999999999.999999999999999999"),
    ];
    for (units, spelling) in cases.iter() {
        let value = Fixed::of(*units).ok_or("out of range")?;
        let mut out = Vec::new(rt.alloc());
        put_fixed(value, &mut out)?;
        assert_eq!(rt; out.as_slice(), spelling.as_bytes());
    }
    assert_eq!(rt; Fixed::of(ONE * ONE + 1), None);
    assert_eq!(rt; Fixed::of(-ONE * ONE - 1), None);
    Ok(())
}

#[test]
fn a_million_digits_are_read_to_their_end(rt: HostRuntime) -> Result<(), Fail> {
    let mut nines = String::new(rt.alloc());
    let mut zeros = String::new(rt.alloc());
    for _ in 0..MILLION {
        nines.push('9')?;
        zeros.push('0')?;
    }
    let nines = nines.as_str();
    let zeros = zeros.as_str();
    let far = format!(in rt.alloc(); "1e{nines}")?;
    let near = format!(in rt.alloc(); "1e-{nines}")?;
    let none = format!(in rt.alloc(); "0e{nines}")?;
    let seven = format!(in rt.alloc(); "{zeros}7")?;
    assert_eq!(rt; read_fixed(far.as_str()).err(), Some(FixedFault::Range));
    assert_eq!(rt; read_fixed(near.as_str()).err(), Some(FixedFault::Digits));
    assert_eq!(rt; read_fixed(none.as_str()).ok(), Fixed::of(0));
    assert_eq!(rt; read_fixed(seven.as_str()).ok(), Fixed::of(7 * ONE));
    Ok(())
}
