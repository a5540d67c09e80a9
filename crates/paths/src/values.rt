//! The values that are left to variables.
ghost use Rattle.std.specs.Prelude.{◌≡◌, ℕ, ◌^◌, ◌<◌, true, false, not, ◌&&◌, Decides, nat_eq, slice_index_or};
ghost use Rattle.language.specs.Typing.{leaves};
ghost use Rattle.language.specs.Finite.{May, Possible};
ghost use Rattle.records.specs.Trees.{expr_at, design_of};
ghost use Rattle.paths.specs.Marks.{sets_of};

use crate::conditions::leaves_value;
use crate::path::gathered;
use records::{DesignFile, ENTRIES};
use std::array;
use variables::{MOST_VARIABLES, VariableSet};
use vectors::fits;

// How many bits number the entries of a table.
const WIDEST_SELECTOR: u32 = 4;

/// Which of its values are left to each variable up to 4 wide: as many as a table has entries.
#[derive(Clone, Copy, Debug, PartialEq, Eq)]
pub struct ValueSets {
    marks: [[bool; ENTRIES]; MOST_VARIABLES],
}

impl ValueSets {
    /// All values are left.
    pub fn all() -> ValueSets
        ensures { (v x : ℕ) → v < 128 → x < 16 → sets_of result v x ≡ true }
    {
        ValueSets {
            marks: [[true; ENTRIES]; MOST_VARIABLES],
        }
    }

    /// Takes the value `x` from variable `v`, if there are such.
    pub fn take(&mut self, v: u32, x: u32)
        ensures { (u y : ℕ) → u < 128 → y < 16 → sets_of self.new u y ≡ (not (nat_eq v u && nat_eq x y) && sets_of self.old u y) }
    {
        let (v, x) = (v as usize, x as usize);
        if v < MOST_VARIABLES && x < ENTRIES {
            self.marks[v][x] = false;
        }
    }

    /// Whether the value `x` is left to variable `v`.
    pub fn leaves(&self, v: u32, x: u32) -> bool
        ensures { result ≡ sets_of self.now v x }
    {
        self.marks
            .get(v as usize)
            .and_then(|marks| marks.get(x as usize))
            .copied()
            .unwrap_or(false)
    }

    /// Whether variable `v` may have the value `x`: it is a value of the variable, and it is left.
    pub fn may(&self, file: &DesignFile<'_>, v: u32, x: u32) -> bool
        ensures { Decides result (May (design_of file.now) (sets_of self.now) v x) }
    {
        v < file.variable_count()
            && (x as usize) < ENTRIES
            && fits(x, file.width(v))
            && self.leaves(v, x)
    }

    // Whether variable `v` may have any value.
    fn may_any(&self, file: &DesignFile<'_>, v: u32) -> bool
        ensures { Decides result ((x : ℕ) × May (design_of file.now) (sets_of self.now) v x) }
    {
        (0..ENTRIES as u32).any(|x| self.may(file, v, x))
    }

    // The values of variable `v` that are left where condition `e` comes out as `way` besides.
    fn left(&self, file: &DesignFile<'_>, e: u32, way: bool, v: u32) -> [bool; ENTRIES]
        ensures { (x : ℕ) → x < 16 → slice_index_or result x false ≡ (leaves (expr_at file.now e) way v x && sets_of self.now v x) }
    {
        array::from_fn(|x| self.leaves(v, x as u32) && leaves_value(file, e, way, v, x as u32))
    }

    // The values that are left where condition `e` comes out as `way` besides. It takes none from a variable that it
    // does not read.
    pub(crate) fn narrowed(&self, file: &DesignFile<'_>, e: u32, way: bool) -> ValueSets
        ensures { (v x : ℕ) → v < 128 → x < 16 → sets_of result v x ≡ (leaves (expr_at file.now e) way v x && sets_of self.now v x) }
    {
        let read = gathered(file, e, &VariableSet::empty());
        // Not by `array::from_fn`: with a closure that chooses between two rows the proof did not close.
        let mut fewer = *self;
        for v in 0..MOST_VARIABLES {
            if read.contains(v as u32) {
                fewer.marks[v] = self.left(file, e, way, v as u32);
            }
        }
        fewer
    }

    /// Whether no set is empty.
    pub fn is_possible(&self, file: &DesignFile<'_>) -> bool
        ensures { Decides result (Possible (design_of file.now) (sets_of self.now)) }
    {
        (0..file.variable_count()).all(|v| file.width(v) > WIDEST_SELECTOR || self.may_any(file, v))
    }
}
