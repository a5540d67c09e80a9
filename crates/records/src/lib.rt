//! A design file: its bytes, where its sections lie, its records, and the trees that they describe.
#![tactic(auto)]

mod bytes;
mod cells;
mod codes;
mod file;
mod labels;
mod layout;
mod nodes;

pub use bytes::{byte, field, part_from};
pub use cells::{Block, Command, Expression, Variable};
pub use codes::{BlockKind, Form, Kind, Operation, Step, UnknownCode};
pub use file::{DesignFile, ENTRIES};
pub use labels::Label;
pub use layout::{
    Extent, Layout, MOST_BLOCKS, MOST_COMMANDS, MOST_EXPRESSIONS, MOST_TABLES, SECTION_COUNT,
    layout_of, limit_of, section_at,
};
pub use nodes::{Action, Node};
