//! Designs, and refusals, as text for an engineer.
#![tactic(auto)]

mod commands;
mod declarations;
mod designs;
mod expressions;
mod reasons;

pub use commands::CommandText;
pub use declarations::{TableText, VariableText};
pub use designs::DesignText;
pub use expressions::ExpressionText;
pub use reasons::Reason;
