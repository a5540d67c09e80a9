//! What commands and expressions are: each record with its parts, which are records with lower numbers.
ghost use Rattle.std.specs.Prelude.{◌≡◌, ◌≤◌};
ghost use Rattle.records.specs.Nodes.{action_of, operand_of, node_of, LowerParts, LowerOperands};

use crate::cells::{Command, Expression};
use crate::codes::{Operation, Step};
use crate::layout::limit_of;
use refusal::Section;
use vectors::{Pairing, fits};

/// A command; its parts are record numbers.
#[derive(Clone, Copy)]
pub enum Action {
    Idle,
    Both {
        first: u32,
        second: u32,
    },
    Choose {
        condition: u32,
        yes: u32,
        no: u32,
    },
    Assign {
        target: u32,
        value: u32,
        /// The number of the record itself.
        place: u32,
    },
}

/// An expression; its parts are record numbers.
#[derive(Clone, Copy)]
pub enum Node {
    Constant {
        width: u8,
        value: u32,
    },
    Variable {
        width: u8,
        variable: u32,
        /// The number of the record itself.
        place: u32,
    },
    Not {
        width: u8,
        of: u32,
    },
    Pair {
        width: u8,
        by: Pairing,
        left: u32,
        right: u32,
    },
    ShiftLeft {
        width: u8,
        of: u32,
        by: u32,
    },
    ShiftRight {
        width: u8,
        of: u32,
        by: u32,
    },
    Part {
        width: u8,
        of: u32,
        from: u32,
    },
    Above {
        width: u8,
        high: u32,
        low: u32,
    },
    Choose {
        width: u8,
        condition: u32,
        yes: u32,
        no: u32,
    },
}

/// What stands for an expression out of range: the constant 0 of no width.
pub(crate) const NOTHING: Node = Node::Constant { width: 0, value: 0 };

// What command record `n` does; one out of range does nothing.
pub(crate) fn action_of(x: Command, n: u32) -> Action
    ensures is { result ≡ action_of x n }
    ensures lower { LowerParts result n }
{
    match x.step {
        Some(Step::Both) if x.a < n && x.b < n => Action::Both {
            first: x.a,
            second: x.b,
        },
        Some(Step::Choose) if x.b < n && x.c < n => Action::Choose {
            condition: x.a,
            yes: x.b,
            no: x.c,
        },
        Some(Step::Assign) if x.a < limit_of(Section::Variables) => Action::Assign {
            target: x.a,
            value: x.b,
            place: n,
        },
        _ => Action::Idle,
    }
}

// What expression record `n` is, but for its width.
fn operand_of(x: Expression, n: u32) -> Node
    ensures is { result ≡ operand_of x n }
    ensures lower { LowerOperands result n }
{
    let width = x.width;
    let one = x.a < n;
    let two = one && x.b < n;
    let shift = one && x.b < u32::from(width);
    match x.operation {
        Some(Operation::Constant) if fits(x.a, u32::from(width)) => Node::Constant {
            width,
            value: x.a,
        },
        Some(Operation::Variable) => Node::Variable {
            width,
            variable: x.a,
            place: n,
        },
        Some(Operation::Not) if one => Node::Not { width, of: x.a },
        Some(Operation::Pair(by)) if two => Node::Pair {
            width,
            by,
            left: x.a,
            right: x.b,
        },
        Some(Operation::ShiftLeft) if shift => Node::ShiftLeft {
            width,
            of: x.a,
            by: x.b,
        },
        Some(Operation::ShiftRight) if shift => Node::ShiftRight {
            width,
            of: x.a,
            by: x.b,
        },
        Some(Operation::Part) if one => Node::Part {
            width,
            of: x.a,
            from: x.b,
        },
        Some(Operation::Above) if two => Node::Above {
            width,
            high: x.a,
            low: x.b,
        },
        Some(Operation::Choose) if two && x.c < n => Node::Choose {
            width,
            condition: x.a,
            yes: x.b,
            no: x.c,
        },
        _ => NOTHING,
    }
}

// What expression record `n` is; one out of range is nothing.
pub(crate) fn node_of(x: Expression, n: u32) -> Node
    ensures is { result ≡ node_of x n }
    ensures lower { LowerOperands result n }
{
    if x.width == 0 || x.width > 32 {
        return NOTHING;
    }
    operand_of(x, n)
}
