//! What is held of each variable of a design: which belong to a set, and a value for each.
#![tactic(auto)]

mod sets;
mod values;

pub use sets::VariableSet;
pub use values::Values;

/// The most variables of a design.
pub const MOST_VARIABLES: usize = 128;

#[cfg(test)]
mod tests;
