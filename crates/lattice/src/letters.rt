//! The letters of the kinds, under a contract.
ghost use Rattle.std.specs.Prelude.{◌≡◌, ℕ};

use crate::{Chain, Lattice, Pair, Reversed, Sets};

/// A kind over other lattices, by its letter, which is its `SIGN` too.
// Beside `Lattice`, since a contract names the constant of a generic impl only by a ghost member, and no lattice of another
// crate has to give one.
pub trait Lettered {
    const LETTER: char;

    ghost LETTER: { ℕ };
}

/// The signs of chains and of sets: `C` and `S`.
pub fn signs() -> (char, char)
    ensures { result ≡ (67, 83) }
{
    (Chain::SIGN, Sets::SIGN)
}

/// The signs of pairs and of reversals: `P` and `R`.
pub fn composed_signs<A: Lattice, B: Lattice>() -> (char, char)
    ensures { result ≡ (80, 82) }
{
    (Pair::<A, B>::LETTER, Reversed::<A>::LETTER)
}
