//! Several levels at once, over any lattice.
ghost use Rattle.std.specs.Prelude.{◌≡◌, ℕ, ◌<◌, true, Decides, MatchOption};
ghost use Rattle.lattice.specs.Meaning.{All, EachBelow, Joined};

use crate::{Lattice, Level};

/// Whether each of the levels is at or below `top`: at a level `top`, whether their join is.
pub fn all_below<L: Lattice>(l: &L, levels: &[Level], top: Level) -> bool
    ensures each { Decides result (EachBelow (L.meaning l.now) levels.now top) }
    ensures join { top < (L.meaning l.now).count → (j : ℕ) → Joined (L.meaning l.now) levels.now j → (L.meaning l.now).below j top ≡ result }
{
    levels.iter().all(|a| l.is_below(*a, top))
}

/// The least level at or above each of the levels; of none, the lowest. Nothing where one of them is no level.
pub fn join_all<L: Lattice>(l: &L, levels: &[Level]) -> Option<Level>
    ensures { MatchOption result
        (All (λ a. a < (L.meaning l.now).count) levels.now → ⊥)
        (λ j. Joined (L.meaning l.now) levels.now j) }
{
    // A `try_fold` would wrap each step in an `Option` and read no plainer.
    let mut join = l.lowest();
    for a in levels {
        if *a >= l.count() {
            return None;
        }
        join = l.join(join, *a);
    }
    Some(join)
}
