use crate::{
    Pairing, Width, choose, complement, join_above, operate, part_from, shift_left, shift_right,
};
use std::test::Fail;

fn wide(bits: u32) -> Result<Width, u32> {
    Width::new(bits).ok_or(bits)
}

#[test]
fn widths(rt: HostRuntime) -> Result<(), Fail> {
    assert!(rt; Width::new(0).is_none() && Width::new(33).is_none());
    let byte = wide(8)?;
    assert!(rt; byte.bits() == 8 && byte.holds(255) && !byte.holds(256));
    assert!(rt; wide(32)?.holds(4_294_967_295));
    Ok(())
}

#[test]
fn sums_and_differences(rt: HostRuntime) -> Result<(), Fail> {
    let byte = wide(8)?;
    assert!(rt; operate(byte, Pairing::Sum, 200, 100) == 44);
    assert!(rt; operate(byte, Pairing::Difference, 3, 5) == 254);
    assert!(rt; operate(wide(1)?, Pairing::Sum, 1, 1) == 0);
    assert!(rt; operate(wide(31)?, Pairing::Difference, 0, 1) == 2_147_483_647);
    assert!(rt; operate(wide(32)?, Pairing::Difference, 0, 1) == 4_294_967_295);
    Ok(())
}

#[test]
fn bits_and_comparisons(rt: HostRuntime) -> Result<(), Fail> {
    let byte = wide(8)?;
    assert!(rt; complement(byte, 15) == 240);
    assert!(rt; operate(byte, Pairing::And, 12, 10) == 8);
    assert!(rt; operate(byte, Pairing::Or, 12, 10) == 14);
    assert!(rt; operate(byte, Pairing::Xor, 12, 10) == 6);
    assert!(rt; operate(byte, Pairing::Equals, 12, 10) == 0);
    assert!(rt; operate(byte, Pairing::Less, 10, 12) == 1);
    Ok(())
}

#[test]
fn shifts_and_parts(rt: HostRuntime) -> Result<(), Fail> {
    let byte = wide(8)?;
    assert!(rt; shift_left(byte, 129, 0) == 129 && shift_left(byte, 129, 7) == 128);
    assert!(rt; shift_right(129, 0) == 129 && shift_right(129, 7) == 1);
    assert!(rt; part_from(byte, 4, 0xABCD) == 0xBC);
    assert!(rt; join_above(wide(32)?, wide(16)?, 0x1234, 0x5678) == 0x1234_5678);
    assert!(rt; choose(1, 7, 9) == 7 && choose(0, 7, 9) == 9);
    Ok(())
}

#[test]
fn past_the_width(rt: HostRuntime) -> Result<(), Fail> {
    let byte = wide(8)?;
    assert!(rt; complement(byte, 256) == 0 && operate(byte, Pairing::Difference, 0, 300) == 0);
    assert!(rt; shift_left(byte, 1, 8) == 0 && shift_left(byte, 1, 4_294_967_295) == 0);
    assert!(rt; shift_right(4_294_967_295, 32) == 0 && part_from(byte, 32, 4_294_967_295) == 0);
    assert!(rt; join_above(wide(32)?, wide(16)?, 1, 65_536) == 131_072);
    Ok(())
}
