//! Where levels come from.
ghost use Rattle.std.specs.Prelude.{◌≡◌, Decides};
ghost use Rattle.language.specs.Finite.{target_place, Tries, level_at, One};
ghost use Rattle.records.specs.Trees.{design_of};
ghost use Rattle.paths.specs.Marks.{shape_of, place_of, sets_of};

use crate::conditions::Shape;
use crate::values::ValueSets;
use records::{DesignFile, ENTRIES, Label};
use vectors::fits;

/// Where a level comes from: it is fixed, or a table's entry at a variable's value, or at any value of a width.
#[derive(Clone, Copy)]
pub enum Origin {
    Always { level: u32 },
    ValueOf { table: u32, variable: u32 },
    AnyOf { table: u32, width: u32 },
}

impl From<Label> for Origin {
    ghost use Rattle.std.specs.Prelude.{◌≡◌};
    ghost use Rattle.language.specs.Finite.{label_place};
    ghost use Rattle.records.specs.Labels.{label_of};
    ghost use Rattle.paths.specs.Marks.{place_of};

    ghost from_gives = { λ label origin. place_of origin ≡ label_place (label_of label) };

    fn from(label: Label) -> Origin {
        match label {
            Label::Fixed { level } => Origin::Always { level },
            Label::LookedUp {
                table,
                selector: variable,
            } => Origin::ValueOf { table, variable },
        }
    }
}

impl Origin {
    /// Where the level of `u` comes from, once it is assigned an expression of this shape.
    pub fn of_target(file: &DesignFile<'_>, u: u32, shape: Shape) -> Origin
        ensures { place_of result ≡ target_place (design_of file.now) u (shape_of shape) }
    {
        match file.label(u) {
            Label::LookedUp { table, selector } if selector == u => match shape {
                Shape::Number { value } => Origin::Always {
                    level: file.entry(table, value),
                },
                Shape::Single { variable } => Origin::ValueOf { table, variable },
                Shape::Other => Origin::AnyOf {
                    table,
                    width: file.width(u),
                },
            },
            label => Origin::from(label),
        }
    }

    /// Whether `x` is a value to try here.
    pub fn is_tried(self, file: &DesignFile<'_>, sets: &ValueSets, x: u32) -> bool
        ensures { Decides result (Tries (design_of file.now) (sets_of sets.now) (place_of self) x) }
    {
        match self {
            Origin::Always { .. } => x == 0,
            Origin::ValueOf { variable, .. } => sets.may(file, variable, x),
            Origin::AnyOf { width, .. } => (x as usize) < ENTRIES && fits(x, width),
        }
    }

    /// The level here, where the value is `x`.
    pub fn level_at(self, file: &DesignFile<'_>, x: u32) -> u32
        ensures { result ≡ level_at (design_of file.now) (place_of self) x }
    {
        match self {
            Origin::Always { level } => level,
            Origin::ValueOf { table, .. } | Origin::AnyOf { table, .. } => file.entry(table, x),
        }
    }
}

/// Whether two values agree, where both origins look at one variable.
pub fn are_one(p: Origin, q: Origin, x: u32, y: u32) -> bool
    ensures { Decides result (One (place_of p) (place_of q) x y) }
{
    match (p, q) {
        (
            Origin::ValueOf { variable, .. },
            Origin::ValueOf {
                variable: other,
                ..
            },
        ) => variable != other || x == y,
        _ => true,
    }
}
