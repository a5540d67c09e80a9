//! Sets and values by hand: the first and the last variable, and the first number past it.
use super::*;
use std::test::Fail;

#[test]
fn members(rt: HostRuntime) -> Result<(), Fail> {
    let mut set = VariableSet::only(127);
    assert!(rt; set.contains(127) && !set.contains(126) && !set.contains(0));
    set.insert(0);
    assert!(rt; set.contains(0) && set.contains(127) && !set.contains(1));
    set.insert(128);
    assert!(rt; !set.contains(128) && !set.contains(4_294_967_295));
    assert!(rt; VariableSet::only(128) == VariableSet::empty());
    Ok(())
}

#[test]
fn unions_and_intersections(rt: HostRuntime) -> Result<(), Fail> {
    let mut one = VariableSet::only(3);
    one.insert(5);
    let mut two = VariableSet::only(5);
    two.insert(90);
    let both = one.intersection(&two);
    assert!(rt; both == VariableSet::only(5));
    let either = one.union(&two);
    assert!(rt; either.contains(3) && either.contains(5) && either.contains(90));
    assert!(rt; !either.contains(4) && !either.contains(89));
    Ok(())
}

#[test]
fn values(rt: HostRuntime) -> Result<(), Fail> {
    let mut values = Values::zeros();
    assert!(rt; values.at(0) == 0 && values.at(127) == 0);
    values.set(127, 9);
    values.set(0, 4_294_967_295);
    assert!(rt; values.at(127) == 9 && values.at(0) == 4_294_967_295 && values.at(126) == 0);
    let before = values;
    values.set(128, 7);
    assert!(rt; values == before && values.at(128) == 0);
    Ok(())
}
