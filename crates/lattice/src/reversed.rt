//! R: a lattice turned round.
ghost use Rattle.std.specs.Prelude.{◌≡◌};
ghost use Rattle.lattice.specs.Reversals.{reversed_laws};
ghost use Rattle.lattice.specs.Kinds.{reversed};

use crate::{Lattice, Lettered, Level, are_levels};

// One letter for both traits, of which only the second can be named in a contract.
const LETTER: char = 'R';

/// The levels of `of`, with the order turned round.
#[derive(Clone, Copy, Debug, PartialEq, Eq)]
pub struct Reversed<A> {
    pub of: A,
}

impl<A: Lattice> Lattice for Reversed<A> {
    const SIGN: char = LETTER;

    ghost meaning = { λ s. reversed (A.Lattice.meaning s.of) };

    ghost lawful = { λ s. reversed_laws (A.Lattice.lawful s.of) };

    fn count(&self) -> u32 {
        self.of.count()
    }

    fn is_below(&self, a: Level, b: Level) -> bool {
        self.of.is_below(b, a)
    }

    fn join(&self, a: Level, b: Level) -> Level {
        if are_levels(self.of.count(), a, b) {
            self.of.meet(a, b)
        } else {
            self.lowest()
        }
    }

    fn meet(&self, a: Level, b: Level) -> Level {
        if are_levels(self.of.count(), a, b) {
            self.of.join(a, b)
        } else {
            self.lowest()
        }
    }

    fn lowest(&self) -> Level {
        self.of.highest()
    }

    fn highest(&self) -> Level {
        self.of.lowest()
    }
}

impl<A: Lattice> Lettered for Reversed<A> {
    const LETTER: char = LETTER;

    ghost LETTER = { 82 };
}
