//! The flows of a design: assignments whose variables are not all at or below their target, with the two levels
//! that show it.
#![tactic(auto)]

mod leaks;
mod offences;
mod showing;
mod tester;

pub use leaks::Leak;
pub use offences::{Flow, Offence};
pub use tester::Tester;
