//! Judging a design under a lattice of each kind.
use clearance::read_table;
use design::read_design;
use judgement::{Accepted, judge};
use lattice::{Chain, Lattice, Pair, Reversed, Sets};
use refusal::Refusal;
use std::str::FromStr;

const DIAMOND: &[u8] = b"1111\n0101\n0011\n0001";

/// The lattices that a case can name.
#[derive(Clone, Copy)]
pub(crate) enum LatticeName {
    Chain,
    Sets,
    Diamond,
    Pair,
    Reversed,
}

/// A word that names no lattice.
#[derive(Clone, Copy)]
pub(crate) struct UnknownLattice;

impl FromStr for LatticeName {
    type Err = UnknownLattice;

    fn from_str(word: &str) -> Result<LatticeName, UnknownLattice> {
        match word {
            "C2" => Ok(LatticeName::Chain),
            "S2" => Ok(LatticeName::Sets),
            "T4" => Ok(LatticeName::Diamond),
            "P(C2,C2)" => Ok(LatticeName::Pair),
            "R(C3)" => Ok(LatticeName::Reversed),
            _ => Err(UnknownLattice),
        }
    }
}

/// The design of a file, where it is accepted under the lattice.
pub(crate) fn accepted<'a, L: Lattice>(
    file: &'a [u8],
    lattice: &L,
) -> Result<Accepted<'a>, Refusal> {
    let formed = read_design(file)?;
    judge(&formed, lattice)
}

/// The design of a file, where it is accepted under the lattice that is named.
pub(crate) fn accepted_under<'a>(
    file: &'a [u8],
    name: LatticeName,
) -> Result<Accepted<'a>, Refusal> {
    match name {
        LatticeName::Chain => accepted(file, &Chain::new(2)?),
        LatticeName::Sets => accepted(file, &Sets::new(2)?),
        LatticeName::Diamond => accepted(file, &read_table(DIAMOND)?),
        LatticeName::Pair => {
            let first = Chain::new(2)?;
            let second = Chain::new(2)?;
            accepted(file, &Pair { first, second })
        }
        LatticeName::Reversed => accepted(file, &Reversed { of: Chain::new(3)? }),
    }
}
