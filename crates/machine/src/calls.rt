//! The calls of a session.
ghost use Rattle.std.specs.Prelude.{◌≡◌, ℕ, ◌^◌, ◌||◌, nat_lt};
ghost use Rattle.language.specs.Machine as machine;
ghost use Rattle.language.specs.Machine.{opening, driven, step, drive, clock, reset, gets, answer};
ghost use Rattle.variables.specs.Variables.{value_of};
ghost use Rattle.records.specs.Trees.{design_of};

use crate::state::State;
use lattice::{Lattice, Level};
use records::{DesignFile, Kind, Variable};
use refusal::Refusal;
use variables::Values;
use vectors::fits;

// The value of variable `v` at the opening.
fn opening_at(file: &DesignFile<'_>, v: u32) -> u32
    ensures { result ≡ opening (design_of file.now) v }
{
    match file.get_variable(v) {
        Some(
            Variable {
                kind: Some(Kind::Register),
                reset,
                ..
            },
        ) => reset,
        _ => 0,
    }
}

/// The values at the opening: 0 for ports, the reset values for registers.
pub fn opening(file: &DesignFile<'_>) -> Values
    ensures { (v : ℕ) → value_of result v ≡ opening (design_of file.now) v }
{
    Values::from_fn(|v| opening_at(file, v))
}

/// Gives every port and register its value at the opening.
pub fn reset(held: &mut Values, file: &DesignFile<'_>)
    ensures { (v : ℕ) → value_of held.new v ≡ step (design_of file.now) (value_of held.old) reset v }
{
    *held = opening(file);
}

/// One clock: the wires settle, the clocked blocks run on the values from before, all registers change together, and
/// then what is to be cleared becomes 0.
pub fn clock(held: &mut Values, file: &DesignFile<'_>)
    ensures { (v : ℕ) → value_of held.new v ≡ step (design_of file.now) (value_of held.old) clock v }
{
    let now = State { file, held };
    let values = now.settled();
    let before = State {
        file,
        held: &values,
    };
    let next = before.clocked(held);
    *held = now.clear(&next);
}

/// Refuses a drive, unless it names a port and a value that fits it.
pub fn driven(file: &DesignFile<'_>, v: u32, x: u32) -> Result<(), Refusal>
    ensures { result ≡ driven (design_of file.now) v x }
{
    let Some(
        Variable {
            kind: Some(Kind::Port),
            width,
            ..
        },
    ) = file.get_variable(v)
    else {
        return Err(Refusal::NotAPort { number: v });
    };
    if !fits(x, u32::from(width)) {
        return Err(Refusal::ValueTooWide { variable: v });
    }
    Ok(())
}

/// Sets a port, and then what is to be cleared becomes 0. A refused drive changes nothing.
pub fn drive(held: &mut Values, file: &DesignFile<'_>, v: u32, x: u32) -> Result<(), Refusal>
    ensures answer { result ≡ driven (design_of file.now) v x }
    ensures held { (u : ℕ) → value_of held.new u ≡ step (design_of file.now) (value_of held.old) (drive v x) u }
{
    driven(file, v, x)?;
    let mut now = *held;
    now.set(v, x);
    *held = State { file, held }.clear(&now);
    Ok(())
}

// Whether variable `v` is a port or a register.
fn is_held(file: &DesignFile<'_>, v: u32) -> bool
    ensures { result ≡ machine.held (design_of file.now) v }
{
    matches!(
        file.get_variable(v),
        Some(Variable {
            kind: Some(Kind::Port | Kind::Register),
            ..
        })
    )
}

impl State<'_> {
    // Whether variable `v` is a port or a register, or a wire that a settled block gives a value.
    fn has_value(&self, v: u32) -> bool
        ensures { result ≡ (machine.held (design_of self.now.file.now) v || gets (value_of self.now.held.now) (design_of self.now.file.now).settled v) }
    {
        is_held(self.file, v) || self.gets_value(v)
    }

    /// A read's answer: the value and the level of variable `v`, where that level is at or below the watcher's.
    pub fn answer<L: Lattice>(
        &self,
        lattice: &L,
        watcher: Level,
        v: u32,
    ) -> Result<(u32, Level), Refusal>
        ensures { result ≡ answer (L.meaning lattice.now) (design_of self.now.file.now) (value_of self.now.held.now) watcher v }
    {
        if self.file.get_variable(v).is_none() {
            return Err(Refusal::NotAVariable { number: v });
        }
        if watcher >= lattice.count() {
            return Err(Refusal::NotAWatcher { variable: v });
        }
        if !self.has_value(v) {
            return Err(Refusal::NoValue { variable: v });
        }
        let values = self.settled();
        let settled = State {
            file: self.file,
            held: &values,
        };
        let level = settled.level(v);
        if !lattice.is_below(level, watcher) {
            return Err(Refusal::Hidden { variable: v });
        }
        Ok((values.at(v), level))
    }
}
