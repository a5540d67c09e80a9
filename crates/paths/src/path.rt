//! A path to an assignment: what the conditions on it leave, and what they read.
ghost use Rattle.std.specs.Prelude.{◌≡◌, ℕ, ◌<◌, ◌&&◌, ◌||◌, List, [], ◌∷◌};
ghost use Rattle.language.specs.Form.{Way};
ghost use Rattle.language.specs.Typing.{leaves};
ghost use Rattle.language.specs.Finite.{mentions};
ghost use Rattle.variables.specs.Variables.{has};
ghost use Rattle.records.specs.Trees.{expr_at};
ghost use Rattle.paths.specs.Marks.{Tracks};

use crate::values::ValueSets;
use records::{DesignFile, Node};
use variables::VariableSet;

/// The values that a path leaves to the variables up to 4 wide, and the variables that its conditions read.
#[derive(Clone, Copy)]
pub struct Path {
    pub values: ValueSets,
    pub variables: VariableSet,
}

// Marks the variables that expression `e` reads.
fn mark_reads(set: &mut VariableSet, file: &DesignFile<'_>, e: u32)
    ensures { (v : ℕ) → v < 128 → has set.new v ≡ (mentions (expr_at file.now e) v || has set.old v) }
{
    match file.node(e) {
        Node::Constant { .. } => {}
        Node::Variable { variable, .. } => set.insert(variable),
        Node::Not { of, .. }
        | Node::ShiftLeft { of, .. }
        | Node::ShiftRight { of, .. }
        | Node::Part { of, .. } => mark_reads(set, file, of),
        Node::Pair {
            left: one,
            right: two,
            ..
        }
        | Node::Above {
            high: one,
            low: two,
            ..
        } => {
            mark_reads(set, file, one);
            mark_reads(set, file, two);
        }
        Node::Choose {
            condition,
            yes,
            no,
            ..
        } => {
            mark_reads(set, file, condition);
            mark_reads(set, file, yes);
            mark_reads(set, file, no);
        }
    }
}

/// The variables of a set, and those that expression `e` reads.
pub fn gathered(file: &DesignFile<'_>, e: u32, set: &VariableSet) -> VariableSet
    ensures { (v : ℕ) → v < 128 → has result v ≡ (mentions (expr_at file.now e) v || has set.now v) }
{
    let mut all = *set;
    mark_reads(&mut all, file, e);
    all
}

impl Path {
    /// The path without conditions.
    pub fn start() -> Path
        ensures { Tracks [] result }
    {
        Path {
            values: ValueSets::all(),
            variables: VariableSet::empty(),
        }
    }

    /// The path that goes on where condition `e` comes out as `way`.
    pub fn past(&self, file: &DesignFile<'_>, e: u32, way: bool) -> Path
        ensures { (path : List Way) → Tracks path self.now → Tracks ((expr_at file.now e, way) ∷ path) result }
    {
        Path {
            values: self.values.narrowed(file, e, way),
            variables: gathered(file, e, &self.variables),
        }
    }
}
