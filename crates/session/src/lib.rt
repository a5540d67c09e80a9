//! Sessions: an accepted design, run by cycles and read by watchers.
#![tactic(auto)]

ghost use Rattle.std.specs.Prelude.{◌≡◌, ℕ};
ghost use Rattle.language.specs.Machine.{opening, step, driven, answer, drive, clock, reset};
ghost use Rattle.variables.specs.Variables.{value_of};
ghost use Rattle.records.specs.Trees.{design_of};
ghost use Rattle.design.specs.First.{under};

use judgement::Accepted;
use lattice::{Lattice, Level};
use machine::State;
use refusal::Refusal;
use variables::Values;

/// A session on an accepted design: the design, and a value for each port and register.
#[derive(Drop)]
pub struct Session<'a> {
    design: Accepted<'a>,
    held: Values,
}

impl<'a> Session<'a> {
    /// Opens a session: ports hold 0, registers their reset values.
    pub fn open(design: Accepted<'a>) -> Session<'a>
        ensures design { result.design ≡ design.entry }
        ensures held { (v : ℕ) → value_of result.held v ≡ opening (design_of (under design.entry.bytes.now design.entry.file.layout)) v }
    {
        let held = machine::opening(&design.to_file());
        Session { design, held }
    }

    /// Sets a port and clears what that clears, or refuses and changes nothing.
    pub fn drive(&mut self, variable: u32, value: u32) -> Result<(), Refusal>
        ensures answer { result ≡ driven (design_of (under self.old.design.bytes.now self.old.design.file.layout)) variable value }
        ensures held { (v : ℕ) → value_of self.new.held v ≡ step (design_of (under self.old.design.bytes.now self.old.design.file.layout)) (value_of self.old.held) (drive variable value) v }
        ensures design { self.new.design ≡ self.old.design }
    {
        machine::drive(&mut self.held, &self.design.to_file(), variable, value)
    }

    /// One cycle: the wires settle, all assigned registers change together, and what that clears is cleared.
    pub fn clock(&mut self)
        ensures held { (v : ℕ) → value_of self.new.held v ≡ step (design_of (under self.old.design.bytes.now self.old.design.file.layout)) (value_of self.old.held) clock v }
        ensures design { self.new.design ≡ self.old.design }
    {
        machine::clock(&mut self.held, &self.design.to_file());
    }

    /// Gives every port and register its value at the opening.
    pub fn reset(&mut self)
        ensures held { (v : ℕ) → value_of self.new.held v ≡ step (design_of (under self.old.design.bytes.now self.old.design.file.layout)) (value_of self.old.held) reset v }
        ensures design { self.new.design ≡ self.old.design }
    {
        machine::reset(&mut self.held, &self.design.to_file());
    }

    /// The value and the present level of a variable, where a watcher may read it.
    pub fn read<L: Lattice>(
        &self,
        lattice: &L,
        watcher: Level,
        variable: u32,
    ) -> Result<(u32, Level), Refusal>
        ensures { result ≡ answer (L.meaning lattice.now) (design_of (under self.now.design.bytes.now self.now.design.file.layout)) (value_of self.now.held) watcher variable }
    {
        let state = State {
            file: &self.design.to_file(),
            held: &self.held,
        };
        state.answer(lattice, watcher, variable)
    }

    /// Ends the session and gives the accepted design back.
    pub fn close(self) -> Accepted<'a>
        ensures { result ≡ self.entry.design }
    {
        self.design
    }
}
