//! One variable of a flow against a target, at the values that are left to them.
ghost use Rattle.std.specs.Prelude.{◌≡◌, ℕ, MatchOption};
ghost use Rattle.lattice.specs.Meaning.{Below};
ghost use Rattle.language.specs.Syntax.{Design, var};
ghost use Rattle.language.specs.Finite.{Sets, Tries, One, level_at, Under, AllUnder, label_place};
ghost use Rattle.records.specs.Trees.{design_of};
ghost use Rattle.variables.specs.Variables.{has};
ghost use Rattle.paths.specs.Marks.{place_of, sets_of};
ghost use Rattle.paths.specs.Trying.{Tabled};
ghost use Rattle.flows.specs.Findings.{Clash, Clashes, Offends};

use crate::tester::Tester;
use lattice::Lattice;
use paths::{Origin, Trials, ValueSets, are_one};
use records::ENTRIES;
use variables::VariableSet;

/// What flows into a target: the variables, and the values that are left to each variable.
#[derive(Clone, Copy)]
pub struct Flow<'a> {
    pub values: &'a ValueSets,
    pub variables: &'a VariableSet,
}

/// A variable of a flow, the value that it is looked up at, and the target's, where it is not at or below the target.
#[derive(Clone, Copy)]
pub struct Offence {
    pub variable: u32,
    pub x: u32,
    pub y: u32,
}

// The level at the value `x`, if it is to be tried. No method of `Trials`: only the search for a clash asks it.
fn level_tried(p: &Trials, x: u32) -> Option<u32>
    ensures { (d : Design) (sets : Sets) → Tabled d sets p.now → MatchOption result
        (Tries d sets (place_of p.now.origin) x → ⊥)
        (λ l. Tries d sets (place_of p.now.origin) x × (l ≡ level_at d (place_of p.now.origin) x)) }
{
    let i = x as usize;
    if i < ENTRIES && p.tried[i] {
        Some(p.levels[i])
    } else {
        None
    }
}

impl<'a, L: Lattice> Tester<'a, L> {
    // A value `y` to try at `q` at which the level at `p`, where the value is `x`, is not at or below the level at `q`.
    fn clash_at(&self, p: &Trials, x: u32, q: &Trials) -> Option<u32>
        ensures { let m = L.meaning self.now.lattice.now in let from = place_of p.now.origin in let to = place_of q.now.origin in
            (d : Design) (sets : Sets) → Tabled d sets p.now → Tabled d sets q.now → MatchOption result
            ((y : ℕ) → Tries d sets from x → Tries d sets to y → One from to x y → Below m (level_at d from x) (level_at d to y))
            (λ y. Clash m d sets from to x y) }
    {
        let from = level_tried(p, x)?;
        (0..ENTRIES as u32).find(|y| {
            are_one(p.origin, q.origin, x, *y)
                && level_tried(q, *y).is_some_and(|to| !self.lattice.is_below(from, to))
        })
    }

    // The first values to try at which variable `v` is not under the target.
    fn offence_at(&self, values: &ValueSets, v: u32, target: &Trials) -> Option<Offence>
        ensures { let m = L.meaning self.now.lattice.now in let d = design_of self.now.file.now in let sets = sets_of values.now in
            Tabled d sets target.now → MatchOption result
            (Under m d sets (label_place (var d v).label) (place_of target.now.origin))
            (Clashes m d sets (place_of target.now.origin) v) }
    {
        let source = Trials::at(self.file, values, Origin::from(self.file.label(v)));
        // `.find_map(..)`, with `?` or `.map(..)` in its closure, was tried: the search alone does not prove it.
        for x in 0..ENTRIES as u32 {
            if let Some(y) = self.clash_at(&source, x, target) {
                return Some(Offence { variable: v, x, y });
            }
        }
        None
    }

    /// The first variable of a flow that is not under the target's origin, unless a set is empty.
    pub fn find_offence(&self, flow: Flow<'_>, target: Origin) -> Option<Offence>
        ensures { let m = L.meaning self.now.lattice.now in let d = design_of self.now.file.now in let sets = sets_of flow.entry.values.now in
            MatchOption result
            (AllUnder m d sets (has flow.entry.variables.now) (place_of target))
            (Offends m d sets (has flow.entry.variables.now) (place_of target)) }
    {
        if !flow.values.is_possible(self.file) {
            return None;
        }
        let trials = Trials::at(self.file, flow.values, target);
        // `.filter(..).find_map(..)` was tried: the search alone does not prove it.
        for v in 0..self.file.variable_count() {
            if flow.variables.contains(v)
                && let Some(offence) = self.offence_at(flow.values, v, &trials)
            {
                return Some(offence);
            }
        }
        None
    }
}
