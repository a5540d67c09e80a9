//! The judge: whether a design keeps the typing rules under a lattice, and the refusal where it does not.
#![tactic(auto)]

mod accepted;
mod first;
mod flowing;
mod levels;
mod staying;
mod typing;

pub use accepted::{Accepted, judge};

#[cfg(test)]
mod tests;
