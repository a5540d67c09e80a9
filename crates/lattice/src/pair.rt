//! P: the pair of two lattices.
ghost use Rattle.std.specs.Prelude.{◌≡◌, ℕ, ◌+◌, ◌*◌, ◌<◌, ◌≤◌, MatchOption, nat_lt};
ghost use Rattle.lattice.specs.Pairs.{pair_laws};
ghost use Rattle.lattice.specs.Kinds.{pair, product, TwoLevels};
ghost use Rattle.refusal.specs.Outcome.{MadeIf};
ghost use Rattle.refusal.specs.declared.Refusal.TheVariants.{OutsideLimits};

use crate::{Lattice, Lettered, Level, MOST_LEVELS, are_levels};
use refusal::Refusal;

// One letter for both traits, of which only the second can be named in a contract.
const LETTER: char = 'P';

/// Level `a * q + b` stands for level `a` of the first and `b` of the second, which has `q` levels.
/// Where that would make more than 65,536 levels, the pair has the one level 0.
#[derive(Clone, Copy, Debug, PartialEq, Eq)]
pub struct Pair<A, B> {
    pub first: A,
    pub second: B,
}

/// How many levels the pair of two lattices has, where these are not too many.
pub fn pair_count<A: Lattice, B: Lattice>(first: &A, second: &B) -> Result<u32, Refusal>
    ensures { MadeIf result
        ((product (A.Lattice.meaning first.now) (B.Lattice.meaning second.now)).count ≤ 65536)
        (λ n. n ≡ (product (A.Lattice.meaning first.now) (B.Lattice.meaning second.now)).count)
        OutsideLimits }
{
    first
        .count()
        .checked_mul(second.count())
        .filter(|n| *n <= MOST_LEVELS)
        .ok_or(Refusal::OutsideLimits)
}

impl<A: Lattice, B: Lattice> Pair<A, B> {
    // How many levels the product has, where these are not too many.
    fn product(&self) -> Option<u32>
        ensures { MatchOption result
            (65536 < (product (A.Lattice.meaning self.now.first) (B.Lattice.meaning self.now.second)).count)
            (λ n. (n ≤ 65536) × (n ≡ (product (A.Lattice.meaning self.now.first) (B.Lattice.meaning self.now.second)).count)) }
    {
        pair_count(&self.first, &self.second).ok()
    }

    // How many levels share a high half, where `a` and `b` are levels of the product.
    fn columns(&self, a: Level, b: Level) -> Option<u32>
        ensures { MatchOption result
            (TwoLevels (A.Lattice.meaning self.now.first) (B.Lattice.meaning self.now.second) a b → ⊥)
            (λ q. TwoLevels (A.Lattice.meaning self.now.first) (B.Lattice.meaning self.now.second) a b × (q ≡ (B.Lattice.meaning self.now.second).count)) }
    {
        if !are_levels(self.product()?, a, b) {
            return None;
        }
        Some(self.second.count())
    }

    // The level of two halves.
    fn level(&self, a: Level, b: Level) -> Level
        requires product_bound { (product (A.Lattice.meaning self.now.first) (B.Lattice.meaning self.now.second)).count ≤ 65536 }
        requires a_bound { a < (A.Lattice.meaning self.now.first).count }
        requires b_bound { b < (B.Lattice.meaning self.now.second).count }
        ensures { result ≡ a * (B.Lattice.meaning self.now.second).count + b }
    {
        a * self.second.count() + b
    }
}

impl<A: Lattice, B: Lattice> Lattice for Pair<A, B> {
    const SIGN: char = LETTER;

    ghost meaning = { λ s. pair (A.Lattice.meaning s.first) (B.Lattice.meaning s.second) };

    ghost lawful = { λ s. pair_laws (A.Lattice.lawful s.first) (B.Lattice.lawful s.second) };

    fn count(&self) -> u32 {
        self.product().unwrap_or(1)
    }

    fn is_below(&self, a: Level, b: Level) -> bool {
        if self.product().is_none() {
            return a == 0 && b == 0;
        }
        let q = self.second.count();
        self.first.is_below(a / q, b / q) && self.second.is_below(a % q, b % q)
    }

    fn join(&self, a: Level, b: Level) -> Level {
        let Some(q) = self.columns(a, b) else {
            return self.lowest();
        };
        self.level(
            self.first.join(a / q, b / q),
            self.second.join(a % q, b % q),
        )
    }

    fn meet(&self, a: Level, b: Level) -> Level {
        let Some(q) = self.columns(a, b) else {
            return self.lowest();
        };
        self.level(
            self.first.meet(a / q, b / q),
            self.second.meet(a % q, b % q),
        )
    }

    fn lowest(&self) -> Level {
        if self.product().is_none() {
            0
        } else {
            self.level(self.first.lowest(), self.second.lowest())
        }
    }

    fn highest(&self) -> Level {
        if self.product().is_none() {
            0
        } else {
            self.level(self.first.highest(), self.second.highest())
        }
    }
}

impl<A: Lattice, B: Lattice> Lettered for Pair<A, B> {
    const LETTER: char = LETTER;

    ghost LETTER = { 80 };
}
