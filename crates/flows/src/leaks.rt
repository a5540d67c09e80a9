//! Assignments that break rule 13.
ghost use Rattle.std.specs.Prelude.{List, MatchResult};
ghost use Rattle.language.specs.Form.{Way};
ghost use Rattle.language.specs.Typing.{Levelled};
ghost use Rattle.language.specs.Finite.{Test13};
ghost use Rattle.records.specs.Trees.{design_of, expr_at, cmd_at};
ghost use Rattle.paths.specs.Marks.{Tracks};
ghost use Rattle.flows.specs.Findings.{Breach, Walked};

use crate::offences::Flow;
use crate::tester::Tester;
use lattice::Lattice;
use paths::{Origin, Path, gathered, shape_of};
use records::Action;
use refusal::Refusal;

/// A command that breaks rule 13, with a level of its flow and of its target.
#[derive(Clone, Copy)]
pub struct Leak {
    pub command: u32,
    pub flow: u32,
    pub target: u32,
}

impl From<Leak> for Refusal {
    ghost use Rattle.std.specs.Prelude.{◌≡◌};
    ghost use Rattle.refusal.specs.declared.Refusal.TheVariants.{FlowTooHigh};

    ghost from_gives = { λ leak refusal. refusal ≡ FlowTooHigh leak.command leak.flow leak.target };

    fn from(leak: Leak) -> Refusal {
        Refusal::FlowTooHigh {
            command: leak.command,
            flow: leak.flow,
            target: leak.target,
        }
    }
}

impl<'a, L: Lattice> Tester<'a, L> {
    // Checks rule 13 for command `n`, which assigns expression `e` to `u`.
    fn check_assignment(&self, path: &Path, n: u32, u: u32, e: u32) -> Result<(), Leak>
        ensures { let m = L.meaning self.now.lattice.now in let d = design_of self.now.file.now in let assigned = expr_at self.now.file.now e in
            (ways : List Way) → Tracks ways path.now → Levelled m d → MatchResult result (λ _. Test13 m d ways u assigned) (λ b. Breach m d b ways u assigned n) }
    {
        let variables = gathered(self.file, e, &path.variables);
        let flow = Flow {
            values: &path.values,
            variables: &variables,
        };
        let target = Origin::of_target(self.file, u, shape_of(self.file, e));
        match self.find_offence(flow, target) {
            Some(offence) => Err(self.shown_leak(n, flow, target, offence)),
            None => Ok(()),
        }
    }

    /// Checks rule 13 for command `n`, which a path leads to, and gives the first leak that it meets.
    pub fn check_command(&self, path: &Path, n: u32) -> Result<(), Leak>
        ensures { let m = L.meaning self.now.lattice.now in let d = design_of self.now.file.now in
            (ways : List Way) → Tracks ways path.now → Levelled m d → Walked m d result ways (cmd_at self.now.file.now n) }
    {
        match self.file.action(n) {
            Action::Idle => Ok(()),
            Action::Both { first, second } => {
                self.check_command(path, first)?;
                self.check_command(path, second)
            }
            Action::Choose { condition, yes, no } => {
                let on = path.past(self.file, condition, true);
                self.check_command(&on, yes)?;
                let off = path.past(self.file, condition, false);
                self.check_command(&off, no)
            }
            Action::Assign {
                target,
                value,
                place,
            } => self.check_assignment(path, place, target, value),
        }
    }
}
