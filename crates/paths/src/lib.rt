//! What the typing rules look at: the values that a path leaves to variables, the variables in the conditions around,
//! and where levels come from.
#![tactic(auto)]

mod conditions;
mod origins;
mod path;
mod trials;
mod values;

pub use conditions::{Shape, always_assigns, shape_of};
pub use origins::{Origin, are_one};
pub use path::{Path, gathered};
pub use trials::Trials;
pub use values::ValueSets;
