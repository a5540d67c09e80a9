//! An accepted design by hand, the worked example of docs/FORMAT.md: a register that adds up what a port is driven to.
use crate::{Accepted, judge};
use design::read_design;
use lattice::Chain;
use records::DesignFile;
use refusal::Section;
use std::test::Fail;

const SUM: &[u8] = b"\
    \x01\0\0\0\
    \x2c\0\0\0\0\0\0\0\
    \x2c\0\0\0\x18\0\0\0\
    \x44\0\0\0\x08\0\0\0\
    \x4c\0\0\0\x10\0\0\0\
    \x5c\0\0\0\x30\0\0\0\
    \0\x08\0\0\0\0\0\0\0\0\0\0\
    \x01\x08\0\0\0\0\0\0\x05\0\0\0\
    \x01\0\0\0\0\0\0\0\
    \x03\0\0\0\x01\0\0\0\x02\0\0\0\0\0\0\0\
    \x01\x08\0\0\x01\0\0\0\0\0\0\0\0\0\0\0\
    \x01\x08\0\0\0\0\0\0\0\0\0\0\0\0\0\0\
    \x06\x08\0\0\0\0\0\0\x01\0\0\0\0\0\0\0";

// What is lent can be handed on for as long as the design is lent.
fn lent<'s, 'a>(design: &'s Accepted<'a>) -> &'s DesignFile<'a> {
    design.file()
}

#[test]
fn files(rt: HostRuntime) -> Result<(), Fail> {
    let formed = read_design(SUM)?;
    let design = judge(&formed, &Chain::new(2)?)?;
    let file = lent(&design);
    assert!(rt; file.bytes() == SUM && file.count(Section::Variables) == 2);
    assert!(rt; file.variable(1).reset == 5 && file.count(Section::Expressions) == 3);
    // What is kept can outlive the design.
    let kept = design.to_file();
    drop(design);
    assert!(rt; kept.bytes() == SUM && kept.count(Section::Variables) == 2);
    assert!(rt; kept.variable(1).reset == 5 && kept.count(Section::Expressions) == 3);
    Ok(())
}
