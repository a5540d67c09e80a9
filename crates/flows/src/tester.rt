//! A design under a lattice.
use records::DesignFile;

/// A design and the lattice that its levels are of: what every test of a flow looks at.
#[derive(Drop)]
pub struct Tester<'a, L> {
    pub file: &'a DesignFile<'a>,
    pub lattice: &'a L,
}
