//! C: a chain of levels.
ghost use Rattle.std.specs.Prelude.{◌≡◌, ℕ, ◌<◌, ◌≤◌};
ghost use Rattle.lattice.specs.Chains.{chain_laws};
ghost use Rattle.lattice.specs.Kinds.{chain};
ghost use Rattle.refusal.specs.Outcome.{MadeIf};
ghost use Rattle.refusal.specs.declared.Refusal.TheVariants.{OutsideLimits};

use crate::{Lattice, Level, MOST_LEVELS, are_levels};
use refusal::Refusal;

/// Levels 0 to n - 1, each at or below those that follow it.
#[derive(Clone, Copy, Debug, PartialEq, Eq)]
pub struct Chain {
    n: u32,
    ghost some: { 1 ≤ n },
    ghost most: { n ≤ 65536 },
}

impl Chain {
    /// The chain of `n` levels.
    pub fn new(n: u32) -> Result<Chain, Refusal>
        ensures { MadeIf result ((1 ≤ n) × (n ≤ 65536)) (λ c. c.n ≡ n) OutsideLimits }
    {
        if n < 1 || n > MOST_LEVELS {
            return Err(Refusal::OutsideLimits);
        }
        Ok(Chain { n })
    }
}

impl Lattice for Chain {
    const SIGN: char = 'C';

    ghost meaning = { λ s. chain s.n };

    ghost lawful = { λ s. chain_laws s.n s.some s.most };

    fn count(&self) -> u32 {
        self.n
    }

    fn is_below(&self, a: Level, b: Level) -> bool {
        a <= b && b < self.n
    }

    fn join(&self, a: Level, b: Level) -> Level {
        if are_levels(self.n, a, b) {
            a.max(b)
        } else {
            self.lowest()
        }
    }

    fn meet(&self, a: Level, b: Level) -> Level {
        if are_levels(self.n, a, b) {
            a.min(b)
        } else {
            self.lowest()
        }
    }

    fn lowest(&self) -> Level {
        0
    }

    fn highest(&self) -> Level {
        self.n - 1
    }
}
