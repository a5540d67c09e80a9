//! What the rules of form ask of a design as a whole, found in passes over its records and walks over its blocks:
//! how often each record is used, what the blocks assign, and which records read too early or write where they may not.
#![tactic(auto)]

mod marks;
mod reach;
mod survey;
mod uses;

pub use marks::{is_register, is_settled, is_wire};
pub use survey::{Findings, Survey, survey_of};
pub use uses::{UseCounts, Uses, uses_of};
