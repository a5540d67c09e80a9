//! What commands and blocks write.
ghost use Rattle.std.specs.Prelude.{◌≡◌, ℕ, not, ◌&&◌, is_some, if◌then◌else◌};
ghost use Rattle.language.specs.Syntax.{together};
ghost use Rattle.language.specs.Machine.{written, after, values, gets};
ghost use Rattle.variables.specs.Variables.{value_of, Holds};
ghost use Rattle.records.specs.Trees.{cmd_at, body_at, settled_at, design_of};

use crate::state::State;
use records::{Action, DesignFile};
use refusal::Section;
use variables::Values;

// Carries out block `b` on the values held, if it is settled.
fn settle_block(held: &mut Values, file: &DesignFile<'_>, b: u32)
    ensures { Holds held.new (λ v. (if settled_at file.now b then after (value_of held.old) (value_of held.old) (body_at file.now b) v else value_of held.old v)) }
{
    let block = file.block(b);
    if block.is_settled() {
        let before = *held;
        State {
            file,
            held: &before,
        }
        .execute(held, block.top);
    }
}

// Whether block `b` is settled and writes to variable `v` where variables have the values held.
fn block_writes(held: &Values, file: &DesignFile<'_>, b: u32, v: u32) -> bool
    ensures { result ≡ (settled_at file.now b && is_some (written (value_of held.now) v (body_at file.now b))) }
{
    let block = file.block(b);
    block.is_settled() && State { file, held }.writes(block.top, v)
}

impl State<'_> {
    /// Carries out command `n`: all that it reads is read from the values held, and what it writes goes into `next`.
    pub fn execute(&self, next: &mut Values, n: u32)
        ensures { Holds next.new (after (value_of self.now.held.now) (value_of next.old) (cmd_at self.now.file.now n)) }
    {
        match self.file.action(n) {
            Action::Idle => {}
            Action::Both { first, second } => {
                self.execute(next, first);
                self.execute(next, second);
            }
            Action::Choose { condition, yes, no } => {
                if self.eval(condition) == 1 {
                    self.execute(next, yes);
                } else {
                    self.execute(next, no);
                }
            }
            Action::Assign { target, value, .. } => next.set(target, self.eval(value)),
        }
    }

    // Carries out block `b`, unless it is settled.
    fn clock_block(&self, next: &mut Values, b: u32)
        ensures { Holds next.new (λ v. (if not (settled_at self.now.file.now b) then after (value_of self.now.held.now) (value_of next.old) (body_at self.now.file.now b) v else value_of next.old v)) }
    {
        let block = self.file.block(b);
        if !block.is_settled() {
            self.execute(next, block.top);
        }
    }

    /// The values held, with the wires settled: block by block, each on what those before it left.
    pub fn settled(&self) -> Values
        ensures { (v : ℕ) → value_of result v ≡ values (design_of self.now.file.now) (value_of self.now.held.now) v }
    {
        let mut settled = *self.held;
        for b in 0..self.file.count(Section::Blocks) {
            settle_block(&mut settled, self.file, b);
        }
        settled
    }

    /// The values `held`, with what the clocked blocks write, where all that they read is read from this state.
    pub fn clocked(&self, held: &Values) -> Values
        ensures { Holds result (after (value_of self.now.held.now) (value_of held.now) (together (design_of self.now.file.now).clocked)) }
    {
        let mut next = *held;
        for b in 0..self.file.count(Section::Blocks) {
            self.clock_block(&mut next, b);
        }
        next
    }

    // Whether command `n` writes to variable `v`.
    fn writes(&self, n: u32, v: u32) -> bool
        ensures { result ≡ is_some (written (value_of self.now.held.now) v (cmd_at self.now.file.now n)) }
    {
        match self.file.action(n) {
            Action::Idle => false,
            Action::Both { first, second } => self.writes(second, v) || self.writes(first, v),
            Action::Choose { condition, yes, no } => {
                if self.eval(condition) == 1 {
                    self.writes(yes, v)
                } else {
                    self.writes(no, v)
                }
            }
            Action::Assign { target, .. } => target == v,
        }
    }

    // Whether a settled block gives variable `v` a value.
    pub(crate) fn gets_value(&self, v: u32) -> bool
        ensures { result ≡ gets (value_of self.now.held.now) (design_of self.now.file.now).settled v }
    {
        let mut values = *self.held;
        for b in 0..self.file.count(Section::Blocks) {
            if block_writes(&values, self.file, b, v) {
                return true;
            }
            settle_block(&mut values, self.file, b);
        }
        false
    }
}
