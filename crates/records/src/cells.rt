//! The records of each section, as their bytes have them.
ghost use Rattle.std.specs.Prelude.{◌≡◌};
ghost use Rattle.records.specs.Cells.{variable_from, block_from, command_from, expression_from};
ghost use Rattle.records.specs.Trees.{is_settled};

use crate::bytes::{byte, field};
use crate::codes::{BlockKind, Form, Kind, Operation, Step};

/// A variable record.
#[derive(Clone, Copy)]
pub struct Variable {
    /// Nothing where the code is unknown, as in the other records.
    pub kind: Option<Kind>,
    pub width: u8,
    pub form: Option<Form>,
    pub table: u8,
    /// The level of a fixed label, the selector of one that is looked up.
    pub level: u32,
    pub reset: u32,
}

/// A block record.
#[derive(Clone, Copy)]
pub struct Block {
    pub kind: Option<BlockKind>,
    pub top: u32,
}

impl Block {
    /// Whether the block gives values to wires; one of unknown kind does not.
    pub fn is_settled(self) -> bool
        ensures { result ≡ is_settled self.kind }
    {
        self.kind == Some(BlockKind::Settled)
    }
}

/// A command record.
#[derive(Clone, Copy)]
pub struct Command {
    pub step: Option<Step>,
    pub a: u32,
    pub b: u32,
    pub c: u32,
}

/// An expression record.
#[derive(Clone, Copy)]
pub struct Expression {
    pub operation: Option<Operation>,
    pub width: u8,
    /// The third and the fourth byte, which have no use.
    pub third: u8,
    pub fourth: u8,
    pub a: u32,
    pub b: u32,
    pub c: u32,
}

// The variable record that `part` begins with. One that is cut short counts as zeros.
pub(crate) fn read_variable(part: &[u8]) -> Variable
    ensures { result ≡ variable_from part.now }
{
    match part {
        [kind, width, form, table, rest @ ..] => Variable {
            kind: Kind::try_from(*kind).ok(),
            width: *width,
            form: Form::try_from(*form).ok(),
            table: *table,
            level: field(rest, 0),
            reset: field(rest, 4),
        },
        _ => Variable {
            kind: Some(Kind::Port),
            width: 0,
            form: Some(Form::Fixed),
            table: 0,
            level: 0,
            reset: 0,
        },
    }
}

// The block record that `part` begins with.
pub(crate) fn read_block(part: &[u8]) -> Block
    ensures { result ≡ block_from part.now }
{
    Block {
        kind: BlockKind::try_from(field(part, 0)).ok(),
        top: field(part, 4),
    }
}

// The command record that `part` begins with.
pub(crate) fn read_command(part: &[u8]) -> Command
    ensures { result ≡ command_from part.now }
{
    Command {
        step: Step::try_from(field(part, 0)).ok(),
        a: field(part, 4),
        b: field(part, 8),
        c: field(part, 12),
    }
}

// The expression record that `part` begins with.
pub(crate) fn read_expression(part: &[u8]) -> Expression
    ensures { result ≡ expression_from part.now }
{
    Expression {
        operation: Operation::try_from(byte(part, 0)).ok(),
        width: byte(part, 1),
        third: byte(part, 2),
        fourth: byte(part, 3),
        a: field(part, 4),
        b: field(part, 8),
        c: field(part, 12),
    }
}
