//! How variables are labelled.
ghost use Rattle.std.specs.Prelude.{◌≡◌};
ghost use Rattle.records.specs.Trees.{variable_of};
ghost use Rattle.records.specs.Labels.{label_of};

use crate::cells::Variable;
use crate::codes::Form;

/// A variable's label: a level, or a table and a selector.
#[derive(Clone, Copy)]
pub enum Label {
    Fixed { level: u32 },
    LookedUp { table: u32, selector: u32 },
}

impl Variable {
    /// The label that the record gives.
    pub fn label(self) -> Label
        ensures { label_of result ≡ (variable_of self).label }
    {
        match self.form {
            Some(Form::LookedUp) => Label::LookedUp {
                table: u32::from(self.table),
                selector: self.level,
            },
            _ => Label::Fixed { level: self.level },
        }
    }
}
