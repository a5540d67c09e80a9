//! Values that show an offence, and the levels of the flow and of the target at them.
ghost use Rattle.std.specs.Prelude.{◌≡◌, ℕ, ◌^◌, ◌<◌};
ghost use Rattle.language.specs.Syntax.{count, var};
ghost use Rattle.language.specs.Typing.{Levelled, Shape};
ghost use Rattle.language.specs.Finite.{May, Possible, target_place};
ghost use Rattle.records.specs.Trees.{design_of};
ghost use Rattle.variables.specs.Variables.{has, value_of};
ghost use Rattle.paths.specs.Marks.{place_of, sets_of};
ghost use Rattle.flows.specs.Findings.{Offends, Exposes, Suited, JoinBelow, Looks, filled};

use crate::leaks::Leak;
use crate::offences::{Flow, Offence};
use crate::tester::Tester;
use lattice::Lattice;
use paths::{Origin, ValueSets};
use records::{DesignFile, ENTRIES};
use variables::{Values, VariableSet};

// A value that the sets leave to variable `v`, or 0.
fn some_value(file: &DesignFile<'_>, sets: &ValueSets, v: u32) -> u32
    ensures fits { result < 2 ^ (var (design_of file.now) v).width }
    ensures left { (x : ℕ) → May (design_of file.now) (sets_of sets.now) v x → May (design_of file.now) (sets_of sets.now) v result }
{
    (0..ENTRIES as u32)
        .find(|x| sets.may(file, v, *x))
        .unwrap_or(0)
}

// A value for each variable, one that the sets leave it.
fn some_values(file: &DesignFile<'_>, sets: &ValueSets) -> Values
    ensures { Possible (design_of file.now) (sets_of sets.now) → Suited (design_of file.now) (sets_of sets.now) (value_of result) }
{
    Values::from_fn(|v| some_value(file, sets, v))
}

// The values with `x` where the origin looks.
fn put_there(mut values: Values, origin: Origin, x: u32) -> Values
    ensures { Looks (place_of origin) → (v : ℕ) → value_of result v ≡ filled (place_of origin) (value_of values) x v }
{
    if let Origin::ValueOf { variable, .. } = origin {
        values.set(variable, x);
    }
    values
}

impl<'a, L: Lattice> Tester<'a, L> {
    // The join of the levels of some variables at these values.
    fn join_at(&self, values: &Values, variables: &VariableSet) -> u32
        ensures { let m = L.meaning self.now.lattice.now in let d = design_of self.now.file.now in
            Levelled m d → JoinBelow m d (value_of values.now) (has variables.now) (count d) result }
    {
        let mut join = self.lattice.lowest();
        for v in 0..self.file.variable_count() {
            if variables.contains(v) {
                join = self.lattice.join(join, self.file.level(values, v));
            }
        }
        join
    }

    /// The leak of command `command`: its levels are those at values at which the first is not at or below the second.
    pub(crate) fn shown_leak(
        &self,
        command: u32,
        flow: Flow<'_>,
        target: Origin,
        offence: Offence,
    ) -> Leak
        ensures command { result.command ≡ command }
        ensures levels { let m = L.meaning self.now.lattice.now in let d = design_of self.now.file.now in let sets = sets_of flow.entry.values.now in
            (u : ℕ) (e : Shape) → Levelled m d → place_of target ≡ target_place d u e
            → Offends m d sets (has flow.entry.variables.now) (place_of target) offence
            → Exposes m d sets (has flow.entry.variables.now) u e result.flow result.target }
    {
        let source = Origin::from(self.file.label(offence.variable));
        let base = some_values(self.file, flow.values);
        let values = put_there(put_there(base, source, offence.x), target, offence.y);
        Leak {
            command,
            flow: self.join_at(&values, flow.variables),
            target: target.level_at(self.file, offence.y),
        }
    }
}
