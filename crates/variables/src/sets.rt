//! Sets of variables.
ghost use Rattle.std.specs.Prelude.{◌≡◌, ℕ, ◌<◌, false, ◌&&◌, ◌||◌, nat_eq, nat_lt, slice_index_or};

use crate::MOST_VARIABLES;
use std::array;

/// Which variables belong. No number of [`MOST_VARIABLES`] or more does.
#[derive(Clone, Copy, Debug, PartialEq, Eq)]
pub struct VariableSet {
    marks: [bool; MOST_VARIABLES],
}

impl VariableSet {
    ghost use Rattle.variables.specs.Variables.{has};

    pub fn empty() -> VariableSet
        ensures { (v : ℕ) → has result v ≡ false }
    {
        VariableSet {
            marks: [false; MOST_VARIABLES],
        }
    }

    /// The set of one variable.
    pub fn only(v: u32) -> VariableSet
        ensures { (u : ℕ) → has result u ≡ (nat_lt u MOST_VARIABLES && nat_eq v u) }
    {
        let mut set = VariableSet::empty();
        set.insert(v);
        set
    }

    pub fn contains(&self, v: u32) -> bool
        ensures { result ≡ has self.now v }
    {
        self.marks.get(v as usize).copied().unwrap_or(false)
    }

    /// Adds variable `v`, if there is such a variable.
    pub fn insert(&mut self, v: u32)
        ensures { (u : ℕ) → has self.new u ≡ (nat_lt u MOST_VARIABLES && nat_eq v u || has self.old u) }
    {
        // Written by index, since a proof knows no mark after `get_mut`.
        let i = v as usize;
        if i < MOST_VARIABLES {
            self.marks[i] = true;
        }
    }

    // The variables of which `by` holds, given whether this set has them and whether `other` has.
    fn merged<F: Fn(bool, bool) -> bool>(&self, other: &VariableSet, by: F) -> VariableSet
        requires { F.IsAlwaysCallable by }
        ensures { (v : ℕ) → v < MOST_VARIABLES → F.post by (slice_index_or self.now.marks v false) (slice_index_or other.now.marks v false) (slice_index_or result.marks v false) }
    {
        VariableSet {
            marks: array::from_fn(|v| by(self.marks[v], other.marks[v])),
        }
    }

    pub fn union(&self, other: &VariableSet) -> VariableSet
        ensures { (v : ℕ) → has result v ≡ (has self.now v || has other.now v) }
    {
        self.merged(other, |mine, theirs| mine || theirs)
    }

    pub fn intersection(&self, other: &VariableSet) -> VariableSet
        ensures { (v : ℕ) → has result v ≡ (has self.now v && has other.now v) }
    {
        self.merged(other, |mine, theirs| mine && theirs)
    }
}
