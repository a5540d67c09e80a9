//! The values to try at an origin, and the levels there.
ghost use Rattle.std.specs.Prelude.{◌≡◌};
ghost use Rattle.records.specs.Trees.{design_of};
ghost use Rattle.paths.specs.Marks.{sets_of};
ghost use Rattle.paths.specs.Trying.{Tabled};

use crate::origins::Origin;
use crate::values::ValueSets;
use records::{DesignFile, ENTRIES};
use std::array;

/// An origin, and for each value that a table has an entry for whether it is to be tried, and the level there.
/// Worked out once, so that each value of one origin can be held against each of another at no cost.
#[derive(Clone, Copy)]
pub struct Trials {
    pub origin: Origin,
    pub tried: [bool; ENTRIES],
    pub levels: [u32; ENTRIES],
}

impl Trials {
    /// What is to be tried at this origin.
    pub fn at(file: &DesignFile<'_>, sets: &ValueSets, origin: Origin) -> Trials
        ensures origin { result.origin ≡ origin }
        ensures tabled { Tabled (design_of file.now) (sets_of sets.now) result }
    {
        Trials {
            origin,
            tried: array::from_fn(|x| origin.is_tried(file, sets, x as u32)),
            levels: array::from_fn(|x| origin.level_at(file, x as u32)),
        }
    }
}
