//! How commands and blocks assign variables.
ghost use Rattle.std.specs.Prelude.{◌≡◌, ℕ, ◌<◌, true, length, Decides};
ghost use Rattle.refusal.specs.declared.Section.TheVariants.{Blocks};
ghost use Rattle.language.specs.Syntax.{Expr, Cmd, idle, seq, choice, assign};
ghost use Rattle.records.specs.Layouts.{count_in};
ghost use Rattle.records.specs.Trees.{cmd_at};
ghost use Rattle.survey.specs.Sets.{after_in, Reaches, Assigns};

use records::{Action, DesignFile, MOST_BLOCKS};
use refusal::Section;
use variables::VariableSet;

/// The variables that a command assigns: somewhere, on every path, and twice where the two assignments do not stand in
/// opposite branches.
#[derive(Clone, Copy)]
pub(crate) struct Reach {
    pub(crate) some: VariableSet,
    pub(crate) always: VariableSet,
    pub(crate) twice: VariableSet,
}

/// The variables that a block assigns, and those that the blocks before it assign.
#[derive(Clone, Copy)]
pub(crate) struct BlockSets {
    pub(crate) own: VariableSet,
    pub(crate) before: VariableSet,
}

/// What the blocks assign, one after the other and each.
#[derive(Clone, Copy)]
pub(crate) struct Assigned {
    pub(crate) all: Reach,
    pub(crate) each: [BlockSets; MOST_BLOCKS],
}

impl Reach {
    // What an idle command does.
    fn nothing() -> Reach
        ensures { Reaches idle result }
    {
        Reach {
            some: VariableSet::empty(),
            always: VariableSet::empty(),
            twice: VariableSet::empty(),
        }
    }

    // What an assignment of `v` does.
    fn assigning(v: u32) -> Reach
        ensures { (e : Expr) (k : ℕ) → Reaches (assign v e k) result }
    {
        Reach {
            some: VariableSet::only(v),
            always: VariableSet::only(v),
            twice: VariableSet::empty(),
        }
    }

    // What a command does that is followed by another.
    fn then(&self, next: &Reach) -> Reach
        ensures { (a b : Cmd) → Reaches a self.now → Reaches b next.now → Reaches (seq a b) result }
    {
        let clash = self.some.intersection(&next.some);
        Reach {
            some: self.some.union(&next.some),
            always: self.always.union(&next.always),
            twice: clash.union(&self.twice.union(&next.twice)),
        }
    }

    // What one of two commands does.
    fn or(&self, other: &Reach) -> Reach
        ensures { (e : Expr) (a b : Cmd) → Reaches a self.now → Reaches b other.now → Reaches (choice e a b) result }
    {
        Reach {
            some: self.some.union(&other.some),
            always: self.always.intersection(&other.always),
            twice: self.twice.union(&other.twice),
        }
    }
}

// What command `n` does.
fn reach_of(file: &DesignFile<'_>, n: u32) -> Reach
    ensures { Reaches (cmd_at file.now n) result }
{
    match file.action(n) {
        Action::Idle => Reach::nothing(),
        Action::Both { first, second } => reach_of(file, first).then(&reach_of(file, second)),
        Action::Choose { yes, no, .. } => reach_of(file, yes).or(&reach_of(file, no)),
        Action::Assign { target, .. } => Reach::assigning(target),
    }
}

/// What the blocks do.
pub(crate) fn assigned_by(file: &DesignFile<'_>) -> Assigned
    ensures { Assigns file.now (count_in file.now Blocks) result.all result.each }
{
    let mut all = Reach::nothing();
    let none = BlockSets {
        own: VariableSet::empty(),
        before: VariableSet::empty(),
    };
    let mut each = [none; MOST_BLOCKS];
    for b in 0..file.count(Section::Blocks) {
        let here = reach_of(file, file.block(b).top);
        each[b as usize] = BlockSets {
            own: here.some,
            before: all.some,
        };
        all = all.then(&here);
    }
    Assigned { all, each }
}

/// Whether a block that assigns `v` comes after one that assigns `s`.
pub(crate) fn assigned_after(each: &[BlockSets], v: u32, s: u32) -> bool
    ensures { Decides result ((b : ℕ) × (b < length each.now) × (after_in each.now v s b ≡ true)) }
{
    each.iter()
        .any(|block| block.own.contains(v) && block.before.contains(s))
}
