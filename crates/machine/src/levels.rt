//! The levels of variables, and which of them are cleared.
ghost use Rattle.std.specs.Prelude.{◌≡◌, ℕ};
ghost use Rattle.language.specs.Machine.{level, cleared, clear};
ghost use Rattle.variables.specs.Variables.{value_of};
ghost use Rattle.records.specs.Trees.{design_of};

use crate::state::State;
use records::Label;
use variables::Values;

impl State<'_> {
    /// The level of variable `v`.
    pub fn level(&self, v: u32) -> u32
        ensures { result ≡ level (design_of self.now.file.now) (value_of self.now.held.now) v }
    {
        self.file.level(self.held, v)
    }

    /// Whether variable `v` is cleared where `next` takes the place of the values held: another variable, which changes,
    /// looks up its level.
    pub fn is_cleared(&self, next: &Values, v: u32) -> bool
        ensures { result ≡ cleared (design_of self.now.file.now) (value_of self.now.held.now) (value_of next.now) v }
    {
        match self.file.label(v) {
            Label::Fixed { .. } => false,
            Label::LookedUp { selector, .. } => selector != v
                && self.held.at(selector) != next.at(selector),
        }
    }

    // The value of variable `v` where `next` takes the place of the values held: 0 if it is cleared.
    fn kept(&self, next: &Values, v: u32) -> u32
        ensures { result ≡ clear (design_of self.now.file.now) (value_of self.now.held.now) (value_of next.now) v }
    {
        if self.is_cleared(next, v) {
            return 0;
        }
        next.at(v)
    }

    /// The values `next`, which take the place of those held, with 0 for what is cleared.
    pub fn clear(&self, next: &Values) -> Values
        ensures { (v : ℕ) → value_of result v ≡ clear (design_of self.now.file.now) (value_of self.now.held.now) (value_of next.now) v }
    {
        Values::from_fn(|v| self.kept(next, v))
    }
}
