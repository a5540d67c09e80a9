//! What a design does: expressions, commands, settling, levels, clearing, and the calls of a session, over held values.
#![tactic(auto)]

mod blocks;
mod calls;
mod levels;
mod state;
mod value;

pub use calls::{clock, drive, driven, opening, reset};
pub use state::State;
