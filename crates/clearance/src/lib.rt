//! Lattices given by a table, and tables given as text.
#![tactic(auto)]

mod relation;
mod table;
mod text;

pub use table::{Table, table_sign};
pub use text::read_table;
