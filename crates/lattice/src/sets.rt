//! S: the sets of some owners.
ghost use Rattle.std.specs.Prelude.{◌≡◌, ℕ, ◌<◌, ◌≤◌, Decides};
ghost use Rattle.lattice.specs.Owners.{sets_laws};
ghost use Rattle.lattice.specs.Kinds.{sets, Subset};
ghost use Rattle.refusal.specs.Outcome.{MadeIf};
ghost use Rattle.refusal.specs.declared.Refusal.TheVariants.{OutsideLimits};

use crate::{Lattice, Level, are_levels};
use refusal::Refusal;

/// A level is a set of owners: bit i is 1 where owner i belongs to it.
#[derive(Clone, Copy, Debug, PartialEq, Eq)]
pub struct Sets {
    owners: u32,
    ghost most: { owners ≤ 16 },
}

impl Sets {
    const MOST_OWNERS: u32 = 16;

    /// The sets of `owners` owners.
    pub fn new(owners: u32) -> Result<Sets, Refusal>
        ensures { MadeIf result (owners ≤ 16) (λ s. s.owners ≡ owners) OutsideLimits }
    {
        if owners > Self::MOST_OWNERS {
            return Err(Refusal::OutsideLimits);
        }
        Ok(Sets { owners })
    }
}

impl Lattice for Sets {
    const SIGN: char = 'S';

    ghost meaning = { λ s. sets s.owners };

    ghost lawful = { λ s. sets_laws s.owners s.most };

    fn count(&self) -> u32 {
        1 << self.owners
    }

    // `subset` says in owners what the bits say.
    fn is_below(&self, a: Level, b: Level) -> bool
        ensures below { result ≡ (sets self.now.owners).below a b }
        ensures subset { Decides result (Subset self.now.owners a b) }
    {
        a & b == a && b < self.count()
    }

    fn join(&self, a: Level, b: Level) -> Level {
        if are_levels(self.count(), a, b) {
            a | b
        } else {
            self.lowest()
        }
    }

    fn meet(&self, a: Level, b: Level) -> Level {
        if are_levels(self.count(), a, b) {
            a & b
        } else {
            self.lowest()
        }
    }

    fn lowest(&self) -> Level {
        0
    }

    fn highest(&self) -> Level {
        self.count() - 1
    }
}
