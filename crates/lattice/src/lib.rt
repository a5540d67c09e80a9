//! Security lattices behind one trait: chains, sets of owners, pairs and reversals.
#![tactic(auto)]

ghost use Rattle.std.specs.Prelude.{◌≡◌, ℕ, ◌<◌, true, Decides};
ghost use Rattle.lattice.specs.Meaning.{Meaning, Laws, Joins, Meets, Lowest, Highest};

mod chain;
mod letters;
mod pair;
mod reversed;
mod sets;
mod several;

pub use chain::Chain;
pub use letters::{Lettered, composed_signs, signs};
pub use pair::{Pair, pair_count};
pub use reversed::Reversed;
pub use sets::Sets;
pub use several::{all_below, join_all};

/// A level is a number below its lattice's count; any other number is a level of none.
pub type Level = u32;

/// The most levels that a lattice may have.
pub const MOST_LEVELS: u32 = 65_536;

/// Whether `a` and `b` are levels of a lattice of `count` levels.
// Beside the trait, since the method of an impl cannot call a provided one of the same trait.
pub fn are_levels(count: u32, a: Level, b: Level) -> bool
    ensures { Decides result ((a < count) × (b < count)) }
{
    a < count && b < count
}

/// A lattice of levels. Every answer follows from its count and its order; a question alters nothing.
pub trait Lattice {
    /// The letter of the kind.
    const SIGN: char;

    ghost meaning: { Self → Meaning };

    fn count(&self) -> u32
        ensures { result ≡ (meaning self.now).count };

    /// Whether `a` is at or below `b`.
    fn is_below(&self, a: Level, b: Level) -> bool
        ensures { result ≡ (meaning self.now).below a b };

    // Each kind tests the levels itself: a provided join over one for two levels would give the trait
    // a method that asks its callers for levels, and nothing public asks its callers for anything.
    /// The least level at or above both.
    fn join(&self, a: Level, b: Level) -> Level
        ensures { Joins (meaning self.now) a b result };

    /// The greatest level at or below both.
    fn meet(&self, a: Level, b: Level) -> Level
        ensures { Meets (meaning self.now) a b result };

    fn lowest(&self) -> Level
        ensures { Lowest (meaning self.now) result };

    fn highest(&self) -> Level
        ensures { Highest (meaning self.now) result };

    ghost lawful: { (s : Self) → Laws (meaning s) };

    // Three of the laws by names of their own, so that a proof over any lattice finds them by itself.
    ghost levels: { (s : Self) (a b : ℕ) → (meaning s).below a b ≡ true → (a < (meaning s).count) × (b < (meaning s).count) } = { λ s. (lawful s).order.levels };

    ghost reflexive: { (s : Self) (a : ℕ) → a < (meaning s).count → (meaning s).below a a ≡ true } = { λ s. (lawful s).order.reflexive };

    ghost transitive: { (s : Self) (a b c : ℕ) → (meaning s).below a b ≡ true → (meaning s).below b c ≡ true → (meaning s).below a c ≡ true } = { λ s. (lawful s).order.transitive };
}
